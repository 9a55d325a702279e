//! Scripts, which are entry values and choices, and the runs of programs over them.
#![tactic(auto)]

mod arithmetic;
mod conditions;
mod evaluation;
mod fault;
mod machine;
mod reading;
mod runs;
mod script;
mod verdict;

pub use fault::ScriptFault;
pub use reading::read_script;
pub use runs::run;
pub use script::{CHOICES, Script};
pub use verdict::Verdict;
