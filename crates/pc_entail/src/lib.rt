//! Which rows show which, and lists of rows without those that the others show.
#![tactic(auto)]

mod composition;
mod entailment;
mod laws;
mod reduction;
mod renewal;

pub use entailment::{contradictory, entails, shows_all};
pub use laws::{answers_are_functions, reductions_are_equal, shown_rows_are_met, tests_are_kept};
pub use pc_elim::Answer;
pub use reduction::reduce;
