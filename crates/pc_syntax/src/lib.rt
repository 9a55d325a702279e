//! From bytes to programs: the parse tree of a text, and the context rules over it.
#![tactic(auto)]

mod fault;
mod laws;
mod reading;
mod walk;

pub use fault::SourceFault;
pub use laws::{texts_have_one_answer, walks_are_sane};
pub use pc_show::show;
pub use reading::read;
