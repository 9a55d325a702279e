//! The search.

use crate::elim::{push_proof, question};
use crate::fault::Fault;
use crate::numbers::push_line;
use crate::points::push_point;
use pc_ports::Files;
use pc_simplex::Guess;
use pc_text::Text;
use std::alloc::Global;

/// What the search answers: a proof, a point, or `gave up`.
pub fn search(alloc: Global, texts: &Files, text: &mut Text) -> Result<(), Fault> {
    let system = question(alloc, texts)?;
    push_guess(text, pc_simplex::search(alloc, &system)?)
}

/// Adds a proof, a point, or `gave up`.
fn push_guess(text: &mut Text, guess: Guess) -> Result<(), Fault> {
    match guess {
        Guess::Shown(proof) => push_proof(text, &proof),
        Guess::Point(point) => push_point(text, &point),
        Guess::GaveUp => push_line(text, "gave up"),
    }
}
