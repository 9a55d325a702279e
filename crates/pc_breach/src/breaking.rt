//! Choices that break an assertion.

ghost use Rattle.std.specs.Prelude.{◌≡◌, ◌<◌, ◌≤◌, length};
ghost use Rattle.std.specs.List.{AllByRecursion as Each};
ghost use Rattle.pc_rows.specs.declared.row.TheConstants.{VARIABLES};
ghost use Rattle.pc_rows.specs.Linear.{AllInRange};
ghost use Rattle.pc_rows.specs.Bounds.{AreWithin};
ghost use Rattle.pc_flow.specs.Shape.{NoHeads};
ghost use Rattle.pc_lower.specs.Annotation.{no_rows};
ghost use Rattle.pc_lower.specs.Operations.{Fits, operations};
ghost use Rattle.pc_lower.specs.Tame.{IsTame, tame_bound};
ghost use Rattle.pc_breach.specs.Answers.{BreachIs, IsNotPast, needed};
ghost use Rattle.pc_breach.specs.Graphs.{IsStraight};

use crate::answer::Breach;
use crate::entry::first_broken;
use crate::following::followed;
use pc_flow::{Annotation, Graph, rows_at};
use pc_lower::{CandidateFault, complete, no_rows};
use pc_rows::NoMemory;
use std::alloc::Global;

/// Choices that break an assertion from an entry state, of a graph without loops, tests and open ends.
pub fn breach(alloc: Global, g: &Graph, entry: &[i128]) -> Result<Breach, NoMemory>
    requires values { length entry.now ≡ g.now.params }
    requires range { AllInRange entry.now }
    requires straight { IsStraight g.now }
    ensures answer { BreachIs g.now entry.now result }
    ensures tame { IsTame g.now → AreWithin tame_bound entry.now → IsNotPast result }
{
    // what a graph keeps
    let _points = g.points();
    let none = no_rows(alloc, g)?;
    match complete(alloc, g, &none) {
        Ok(rows) => breach_by(alloc, g, &rows, entry),
        Err(CandidateFault::Past) => Ok(Breach::Past),
        Err(CandidateFault::Full) => Ok(Breach::Past),
        Err(CandidateFault::NoMemory) => Err(NoMemory),
    }
}

/// The same, where `rows` are those that the points need.
fn breach_by(
    alloc: Global,
    g: &Graph,
    rows: &Annotation,
    entry: &[i128],
) -> Result<Breach, NoMemory>
    requires values { length entry.now ≤ VARIABLES }
    requires range { AllInRange entry.now }
    requires heads { NoHeads g.now.points }
    requires long { length rows.now ≡ length g.now.points }
    requires need { rows.now ≡ needed g.now }
    requires fit { Each Fits (operations g.now (no_rows g.now.points)) }
    ensures { BreachIs g.now entry.now result }
{
    // what a graph keeps
    let _points = g.points();
    match first_broken(rows_at(rows, 0), entry) {
        Err(_) => Ok(Breach::Past),
        Ok(None) => Ok(Breach::Safe),
        Ok(Some(r)) => Ok(Breach::Choices(followed(alloc, g, rows, r)?)),
    }
}
