//! Certificates as JSON, written compactly and read back exactly.
#![tactic(auto)]

mod fault;
mod laws;
mod members;
mod numbers;
mod proofs;
mod reading;
mod rows;
mod sizes;

pub use fault::JsonFault;
pub use laws::{shown_is_read_back, value_determines_certificate};
pub use pc_certificate::Certificate;
pub use reading::read_json;
