//! Sources that are made, to try how the time grows with the size of a program.
#![tactic(auto)]

mod made;
mod pieces;
mod summary;

pub use made::{LOOPS, MADE_BYTES, in_range, make};
pub use summary::{Summary, push_summary};
