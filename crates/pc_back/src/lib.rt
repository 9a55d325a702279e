//! Rows as a domain that goes back over edges: what a state has to meet so that no assertion is violated from there on.
#![tactic(auto)]

mod carry;
mod entry;
mod laws;
mod limits;
mod member;
mod narrowing;
mod need;

pub use laws::need_is_kept;
pub use limits::LAST_ROUND;
pub use need::Need;
