//! Annotations that are completed from the rows of the heads.

ghost use Rattle.std.specs.Prelude.{◌≡◌, length, IfOk};
ghost use Rattle.pc_flow.specs.Shape.{NoHeads};
ghost use Rattle.pc_lower.specs.Annotation.{AreOver, AreFew};
ghost use Rattle.pc_lower.specs.Need.{need};
ghost use Rattle.pc_lower.specs.Operations.{Answers, operations};
ghost use Rattle.pc_lower.specs.Laws.{IsComplete, IsNotRefused};
ghost use Rattle.pc_lower.specs.Tame.{IsTame};

use crate::annotation::at_heads;
use crate::fault::CandidateFault;
use crate::need::needed_at;
use pc_flow::{Annotation, Graph};
use std::alloc::Global;

/// The need of a graph: the heads have the rows that are given for them, and every other point has the join of what the
/// edges from it ask. The points are computed from the greatest number down, so an edge back to a head asks for the
/// head's given rows.
///
/// `Past` or `Full` tells of the first operation that has a number out of range or a row too many.
pub fn complete(alloc: Global, g: &Graph, heads: &Annotation) -> Result<Annotation, CandidateFault>
    requires long { length heads.now ≡ length g.now.points }
    requires over { AreOver g.now.variables heads.now }
    ensures need { Answers (operations g.now heads.now) (need g.now heads.now) result }
    ensures few { IfOk result AreFew }
    ensures complete { IfOk result (IsComplete g.now) }
    ensures tame { NoHeads g.now.points → IsTame g.now → IsNotRefused result }
{
    // what a graph keeps
    let _points = g.points();
    completed(alloc, g, heads)
}

/// The same, whatever variables the rows have.
pub fn completed(alloc: Global, g: &Graph, heads: &Annotation) -> Result<Annotation, CandidateFault>
    requires { length heads.now ≡ length g.now.points }
    ensures need { Answers (operations g.now heads.now) (need g.now heads.now) result }
    ensures few { IfOk result AreFew }
{
    let mut rows = at_heads(alloc, g, heads)?;
    let mut p = g.points();
    while 0 < p {
        p -= 1;
        if !g.is_head(p) {
            let needed = needed_at(alloc, g, true, p, &rows)?;
            rows.set(p as usize, needed);
        }
    }
    Ok(rows)
}
