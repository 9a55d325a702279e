//! Boxes: a least and a greatest number for each variable, either of which may be absent.
#![tactic(auto)]

mod assigning;
mod backward;
mod bounds;
mod claiming;
mod cutting;
mod entering;
mod form;
mod interval;
mod intervals;
mod laws;
mod limits;
mod meeting;
mod member;

pub use interval::Interval;
pub use laws::{boxes_back_are_exact, cutting_is_exact, fold_is_box_at};
pub use limits::{NARROWING_ROUND, WIDENING_ROUND};
pub use member::Box16;
