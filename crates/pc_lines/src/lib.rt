//! Lines of numbers, of rows and of proofs, and their faults: what the formats of certificates share.
//!
//! A format says which lines it wants and what each of them brings. The limits of a line are arguments of the call that reads it.
#![tactic(auto)]

mod fault;
mod heads;
mod proof_lines;
mod reader;
mod reading;
mod row_lines;
mod showing;
mod sizes;

pub use fault::CertFault;
pub use reader::Reader;
pub use reading::{proofs, rows};
pub use showing::{push_head, push_proof, push_row, push_sizes};
pub use sizes::Sizes;
