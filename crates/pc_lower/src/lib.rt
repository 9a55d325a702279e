//! Annotations of graphs: the rows that each point has to meet so that no assertion is violated from there on.
#![tactic(auto)]

mod annotation;
mod candidates;
mod carry;
mod completion;
mod fault;
mod laws;
mod lift;
mod mode;
mod narrowing;
mod need;
mod refresh;
mod rounds;
mod steady;
mod turn;

pub use annotation::no_rows;
pub use candidates::candidate;
pub use completion::complete;
pub use fault::CandidateFault;
pub use laws::{
    annotation_covers, candidate_is_meant, candidates_are_needs, need_is_free, need_is_meant,
    need_is_owed, need_is_paid, tame_candidate_fits, tame_need_fits,
};
pub use mode::Mode;
pub use narrowing::{JOINING_ROUNDS, narrow, nothing};
pub use need::demanded;
pub use pc_flow::{Annotation, rows_at};
pub use rounds::ROUNDS;
