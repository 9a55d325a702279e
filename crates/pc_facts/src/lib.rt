//! What is known at each point of a graph, and what is enough at its entry, as text.
#![tactic(auto)]

mod facts;
mod quick;

pub use facts::show_facts;
pub use quick::show_quick;
