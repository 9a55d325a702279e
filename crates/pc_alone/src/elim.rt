//! Elimination.

use crate::fault::Fault;
use crate::numbers::{push_line, push_number, system_of};
use crate::points::push_point;
use crate::texts::{row_in, text_in};
use pc_elim::Answer;
use pc_ports::Files;
use pc_rows::{Part, Proof, System};
use pc_text::Text;
use std::alloc::Global;

/// The question whether the text `premises` shows the text `goal`.
pub fn question(alloc: Global, texts: &Files) -> Result<System, Fault> {
    let premises = text_in(texts, "premises")?;
    system_of(alloc, premises, row_in(alloc, texts, "goal")?)
}

/// What elimination answers.
pub fn decide(alloc: Global, texts: &Files, text: &mut Text) -> Result<(), Fault> {
    let system = question(alloc, texts)?;
    push_answer(text, pc_elim::decide(alloc, &system)?)
}

/// Adds a proof, a point, or `unsettled`.
pub fn push_answer(text: &mut Text, answer: Answer) -> Result<(), Fault> {
    match answer {
        Answer::Shown(proof) => push_proof(text, &proof),
        Answer::Point(point) => push_point(text, &point),
        Answer::Unsettled => push_line(text, "unsettled"),
    }
}

/// Adds a proof as a line: the goal's multiplier, and each premise with its own.
pub fn push_proof(text: &mut Text, proof: &Proof) -> Result<(), Fault> {
    text.push_all(b"shown")?;
    push_number(text, proof.goal().get())?;
    let parts = proof.parts();
    for i in 0..parts.len() {
        push_part(text, parts.at(i))?;
    }
    Ok(text.push(b'\n')?)
}

/// Adds a premise's number and its multiplier.
fn push_part(text: &mut Text, part: Part) -> Result<(), Fault> {
    push_number(text, part.index as i128)?;
    push_number(text, part.multiplier.get())
}
