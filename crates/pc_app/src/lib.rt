//! The top call: from the words of a command line to the answer and the status.
#![tactic(auto)]

mod answer;
mod breach;
mod facts;
mod files;
mod infer;
mod laws;
mod limits;
mod malformed;
mod printing;
mod quick;
mod refusal;
mod replay;
mod ruling;
mod run;
mod service;
mod show;
mod status;
mod trial;
mod verdict;

pub use laws::{accepted_programs_are_safe, infer_is_exact};
pub use limits::{ALTERNATIVES, CERTIFICATE_BYTES, SCRIPT_BYTES, SOURCE_BYTES};
pub use service::serve;
pub use status::{
    DONE, FAILED, MALFORMED, NO_MEMORY, PAST, REFUSED, SINK_FAILED, STORE_FAILED, TOO_LONG, USAGE,
};
