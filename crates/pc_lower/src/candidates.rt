//! Candidates: guesses at annotations that may be proved.

ghost use Rattle.std.specs.Prelude.{◌≡◌, ◌<◌, length, slice_get, IfOk, IfSome};
ghost use Rattle.pc_lower.specs.Annotation.{AreFew};
ghost use Rattle.pc_lower.specs.Candidate.{hint_at, hinted, heads_by, candidate};
ghost use Rattle.pc_lower.specs.Course.{hint_at_operations, hint_operations, heads_operations, candidate_operations};
ghost use Rattle.pc_lower.specs.Fresh.{HeadsAre};
ghost use Rattle.pc_lower.specs.Laws.{IsComplete, IsNotRefused};
ghost use Rattle.pc_lower.specs.Operations.{Answers};
ghost use Rattle.pc_lower.specs.TameCourse.{IsTameFor};

use crate::completion::completed;
use crate::fault::CandidateFault;
use crate::mode::Mode;
use crate::need::joined;
use crate::rounds::found;
use pc_flow::{Annotation, Graph};
use pc_rows::Rows;
use sqlite_items::Items;
use std::alloc::Global;

/// The candidate of a mode: rows for the heads, which the mode finds, and the need of these rows. Nothing says that the rows
/// of a head are kept by its loop: whoever uses a candidate proves it.
///
/// `Past` or `Full` tells of the first operation that has a number out of range or a row too many.
pub fn candidate(alloc: Global, g: &Graph, m: Mode) -> Result<Annotation, CandidateFault>
    ensures answer { Answers (candidate_operations g.now m) (candidate g.now m) result }
    ensures complete { IfOk result (IsComplete g.now) }
    ensures few { IfOk result AreFew }
    ensures tame { IsTameFor g.now m → IsNotRefused result }
{
    // what a graph keeps
    let _points = g.points();
    let heads = heads_by(alloc, g, m)?;
    completed(alloc, g, &heads)
}

/// The rows that a mode gives the heads.
fn heads_by(alloc: Global, g: &Graph, m: Mode) -> Result<Annotation, CandidateFault>
    ensures { HeadsAre g.now (heads_operations g.now m) (heads_by g.now m) result }
{
    match m {
        Mode::Hint => hinted(alloc, g),
        Mode::Plain => found(alloc, g, Mode::Plain),
        Mode::Tilt1 => found(alloc, g, Mode::Tilt1),
        Mode::Tilt2 => found(alloc, g, Mode::Tilt2),
        Mode::Escape => found(alloc, g, Mode::Escape),
    }
}

/// The rows that the loops try, joined, and none at a point that is no head.
fn hinted(alloc: Global, g: &Graph) -> Result<Annotation, CandidateFault>
    ensures { HeadsAre g.now (hint_operations g.now.points) (hinted g.now) result }
{
    let mut all = Items::new(alloc);
    for p in 0..g.points() {
        let rows = hint_at(alloc, g, p)?;
        if all.push(rows).is_err() {
            return Err(CandidateFault::NoMemory);
        }
    }
    Ok(all)
}

/// The rows that the loop of a head tries, joined, and none at a point that is no head.
fn hint_at(alloc: Global, g: &Graph, p: u32) -> Result<Rows, CandidateFault>
    requires { p < length g.now.points }
    ensures { IfSome (slice_get g.now.points p) (λ point. Answers (hint_at_operations point) (hint_at point) result) }
{
    let none = Rows::new(alloc);
    if g.is_head(p) {
        joined(&none, g.tried(p))
    } else {
        Ok(none)
    }
}
