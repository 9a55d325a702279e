//! Fourier-Motzkin elimination: whether premises show a goal, with evidence either way.
//!
//! A system is decided by its premises together with the negation of its goal. The variables are
//! eliminated in order: a variable goes from the rows by the combinations of each row that has it
//! with a positive coefficient and each that has it with a negative one. Each row keeps the
//! multipliers that make it of the rows at the start. At the end a row without variables and below
//! 0 is a contradiction, and its multipliers are a proof. Where there is none, a point is found
//! going back from the last variable to the first: each gets its greatest lower bound, or else its
//! least upper bound, or else 0. The rows that this needs are made anew, so that never more than
//! two lists of rows take memory.
#![tactic(auto)]

mod bound;
mod contradiction;
mod decision;
mod made;
mod pairs;
mod places;
mod settle;
mod small;

pub use decision::{Answer, decide};
pub use made::LIMIT;
