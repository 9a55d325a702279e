//! The simplex search: whether premises show a goal, without a list of rows that grows.
//!
//! The search has a table of whole numbers over one denominator. Its lines are at first the
//! premises and the negated goal, and its columns the variables. At each turn the first row whose
//! value is negative at the table's point is exchanged with the first column that can raise it. The
//! search ends where no row is negative, and the point meets all rows; or where no column can raise
//! a row, and the line's numbers are multipliers that show the goal. What is found is checked before
//! it is answered, so that neither whole quotients nor an end of the turns have to be promised.
#![tactic(auto)]

mod choice;
mod difference;
mod divisor;
mod found;
mod guess;
mod label;
mod line;
mod negation;
mod table;
mod turns;
mod word;

pub use guess::{Guess, search};
pub use turns::PIVOTS;
