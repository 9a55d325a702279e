//! Domains: values that stand for sets of states, what carries them along the edges of graphs and back, and the laws that
//! they keep. Whoever iterates over a graph sees no more of a domain than these.
#![tactic(auto)]

mod backward;
mod forward;
mod limits;

pub use backward::Backward;
pub use forward::Forward;
pub use limits::{NoMemory, PARTS};
