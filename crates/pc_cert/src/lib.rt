//! The first format of certificates, and the conditions that certificates tell.
//!
//! A text is that of one certificate, or has one fault.
#![tactic(auto)]

mod condition;
mod laws;
mod lengths;
mod reading;
mod showing;

pub use condition::show_condition;
pub use laws::{each_text_has_one_answer, text_determines_certificate};
pub use lengths::texts_are_short;
pub use pc_condition::{push_row, text_determines_condition};
pub use pc_lines::CertFault;
pub use reading::read_certificate;
pub use showing::show_certificate;
