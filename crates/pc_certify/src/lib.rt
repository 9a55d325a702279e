//! Proofs of annotations, and the certificate of a graph.
#![tactic(auto)]

mod annotation;
mod choice;
mod cover;
mod domains;
mod edge;
mod entry;
mod heads;
mod inference;
mod laws;
mod lists;
mod loops;
mod origin;
mod row;
mod selection;

pub use annotation::prove;
pub use inference::{CANDIDATES, infer};
pub use laws::infer_is_exact_on_graphs;
