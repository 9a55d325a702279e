//! The canonical text of a program.
#![tactic(auto)]

mod showing;

pub use showing::show;
