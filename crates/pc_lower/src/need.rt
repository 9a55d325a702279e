//! What a point needs.

ghost use Rattle.std.specs.Prelude.{◌≡◌, ◌<◌, ◌≤◌, ◌∷◌, ◌++◌, [], length, IfOk};
ghost use Rattle.pc_rows.specs.Joins.{joined};
ghost use Rattle.pc_rows.specs.declared.rows.TheConstants.{ROWS};
ghost use Rattle.pc_flow.specs.Carry.{back_all};
ghost use Rattle.pc_flow.specs.Annotation.{rows_at};
ghost use Rattle.pc_flow.specs.Incidence.{leaving};
ghost use Rattle.pc_lower.specs.Need.{demanded, needed_at};
ghost use Rattle.pc_lower.specs.Operations.{Joins, Answers, carries, edge_operations, edges_operations};
ghost use Rattle.pc_lower.specs.Unchecked.{seen, seen_arc};

use crate::carry::{carried, uncovered};
use crate::fault::CandidateFault;
use pc_flow::{Annotation, Edge, Graph, What, rows_at};
use pc_rows::{Rows, join};
use std::alloc::Global;

/// The rows that a point needs which is no head: the join of what the edges from it demand, in order. Assertions ask for
/// their own rows only where they are `asserted`.
pub fn needed_at(
    alloc: Global,
    g: &Graph,
    asserted: bool,
    p: u32,
    rows: &Annotation,
) -> Result<Rows, CandidateFault>
    requires point { p < length g.now.points }
    requires long { length rows.now ≡ length g.now.points }
    ensures needed { let edges = (seen asserted g.now).edges in Answers (edges_operations (rows_at rows.now) [] (leaving p edges)) (needed_at edges (rows_at rows.now) p) result }
    ensures few { IfOk result (λ needed. length needed ≤ ROWS) }
{
    let mut needed = Rows::new(alloc);
    let numbers = g.leaving(p);
    for k in 0..numbers.len() {
        let e = g.edge(numbers[k]);
        needed = with_edge(alloc, asserted, &needed, e, rows_at(rows, e.to))?;
    }
    // its length tells that the list is within its limit
    let _few = needed.len();
    Ok(needed)
}

/// The rows that an edge alone demands of the point that it leaves, for the rows at its target: those rows carried back, without
/// what the edge's test covers, and behind an assertion's own rows; each of them where those before it do not cover it.
pub fn demanded(alloc: Global, e: &Edge, target: &Rows) -> Result<Rows, CandidateFault>
    ensures { Answers (edge_operations e.now.what [] target.now) (joined [] (demanded e.now.what target.now)) result }
{
    with_edge(alloc, true, &Rows::new(alloc), e, target)
}

/// The rows of a point so far, joined with what an edge from it demands for the rows at its target.
fn with_edge(
    alloc: Global,
    asserted: bool,
    rows: &Rows,
    e: &Edge,
    target: &Rows,
) -> Result<Rows, CandidateFault>
    ensures { let what = (seen_arc asserted e.now).what in Answers (edge_operations what rows.now target.now) (joined rows.now (demanded what target.now)) result }
{
    match &e.what {
        What::Test(own) => joined(rows, &uncovered(alloc, own, target)?),
        What::Check(own) => {
            if asserted {
                joined(&joined(rows, own)?, target)
            } else {
                joined(rows, target)
            }
        }
        What::Enter { .. } => with_carried(alloc, rows, e, target),
        What::Set { .. } => with_carried(alloc, rows, e, target),
    }
}

/// The rows of a point so far, joined with those at the target of an edge from it, carried back.
fn with_carried(alloc: Global, rows: &Rows, e: &Edge, target: &Rows) -> Result<Rows, CandidateFault>
    ensures { let back = back_all e.now.what target.now in Answers (carries e.now.what target.now ++ Joins rows.now back ∷ []) (joined rows.now back) result }
{
    joined(rows, &carried(alloc, e, target)?)
}

/// The join of two lists.
pub fn joined(a: &Rows, b: &Rows) -> Result<Rows, CandidateFault>
    ensures { Answers (Joins a.now b.now ∷ []) (joined a.now b.now) result }
{
    Ok(join(a, b)?)
}
