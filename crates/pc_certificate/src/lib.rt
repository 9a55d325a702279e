//! Certificates: rows for each point of a graph, and for each edge the proofs of what it owes.
#![tactic(auto)]

mod certificate;

pub use certificate::{ALTERNATIVES, Annotated, Certificate, POINTS};
pub use pc_language::EDGES;
