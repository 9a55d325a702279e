//! Choices that break an assertion: a row of the entry that is not met is followed to an assertion that fails.
#![tactic(auto)]

mod answer;
mod breaking;
mod entry;
mod following;
mod laws;
mod script;
mod sought;
mod step;

pub use answer::Breach;
pub use breaking::breach;
pub use laws::{
    answers_are_meant, choices_are_fit, places_are_meant, runs_are_meant, script_is_read,
};
pub use script::script_text;
pub use sought::{first_bend, first_open_end};
