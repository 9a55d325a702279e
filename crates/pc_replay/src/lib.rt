//! The replayer: whether a certificate is right for a graph, by multiplications and additions alone.
//!
//! Whatever it accepts, whoever made it, is safe: no walk from an entry state that meets the
//! certificate's condition comes to an assertion that does not hold.
#![tactic(auto)]

mod edge;
mod flaw;
mod laws;
mod lists;
mod proof;
mod replay;
mod ruling;
mod shape;

pub use laws::{accepted_is_lean, accepted_is_safe, rule_is_meant};
pub use replay::accept;
pub use ruling::Ruling;
pub use shape::are_over;
