//! The words of the language that all who speak of programs share: its terminals, the operators of
//! comparisons, choices, and its limits.
#![tactic(auto)]

mod choice;
mod limits;
mod operator;
mod terminal;

pub use choice::{Bound, Choice, end_of};
pub use limits::{BRACES, COMPARISONS, EDGES, SIGNS};
pub use operator::Op;
pub use terminal::Terminal;
