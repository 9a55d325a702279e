//! The two iterations over a graph in any domain, forwards and backwards: a value for each point.
#![tactic(auto)]

mod asking;
mod entry;
mod gathering;
mod heads;
mod iteration;
mod marks;
mod recession;
mod sweeping;

pub use entry::entry_condition;
pub use iteration::forward;
pub use recession::backward;
