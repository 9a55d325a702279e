//! Candidates, and the lower widening.

use crate::fault::Fault;
use crate::graph::graph_in;
use crate::numbers::{push_line, push_rows};
use crate::texts::{line_in, rows_in};
use pc_lower::{CandidateFault, Mode};
use pc_ports::Files;
use pc_rows::Rows;
use pc_text::Text;
use std::alloc::Global;

/// The rows that the candidate of the text `mode` gives to each point of the program that the text
/// `source` spells; or `past`, or `full`.
pub fn candidate(alloc: Global, texts: &Files, text: &mut Text) -> Result<(), Fault> {
    let mode = mode_of(line_in(texts, "mode")?)?;
    let graph = graph_in(alloc, texts)?;
    match pc_lower::candidate(alloc, &graph, mode) {
        Ok(annotation) => push_points(text, annotation.as_slice()),
        Err(CandidateFault::Past) => push_line(text, "past"),
        Err(CandidateFault::Full) => push_line(text, "full"),
        Err(CandidateFault::NoMemory) => Err(Fault::Memory),
    }
}

/// Adds the rows of each point.
fn push_points(text: &mut Text, annotation: &[Rows]) -> Result<(), Fault> {
    for rows in annotation {
        push_line(text, "point")?;
        push_rows(text, rows)?;
    }
    Ok(())
}

/// The mode of this name.
fn mode_of(name: &str) -> Result<Mode, Fault> {
    match name {
        "hint" => Ok(Mode::Hint),
        "plain" => Ok(Mode::Plain),
        "tilt1" => Ok(Mode::Tilt1),
        "tilt2" => Ok(Mode::Tilt2),
        "escape" => Ok(Mode::Escape),
        _ => Err(Fault::Directive),
    }
}

/// The lower widening of `rows` by `others` in the round `number`.
pub fn narrow(alloc: Global, texts: &Files, text: &mut Text) -> Result<(), Fault> {
    let round = line_in(texts, "number")?.parse()?;
    let old = rows_in(alloc, texts, "rows")?;
    let newer = rows_in(alloc, texts, "others")?;
    push_rows(text, &pc_lower::narrow(alloc, &old, &newer, round)?)
}
