//! Polyhedra: the states that meet a list of rows, or no state.
#![tactic(auto)]

mod adding;
mod assignment;
mod edges;
mod elimination;
mod laws;
mod limits;
mod member;
mod numbers;
mod polyhedron;
mod showing;

pub use laws::{chains_are_exact, views_tell};
pub use limits::KEEPING_ROUND;
pub use member::Poly;
pub use polyhedron::Polyhedron;
