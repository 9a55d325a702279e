//! Calls by themselves: of one library each, over the texts that a case names. A module for each
//! library.
#![tactic(auto)]

mod assignment;
mod elim;
mod entail;
mod fault;
mod graph;
mod lower;
mod names;
mod numbers;
mod points;
mod rows;
mod simplex;
mod texts;
mod tokens;

pub use fault::Fault;
pub use names::answer;
