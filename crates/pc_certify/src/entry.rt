//! The rows of the entry, reduced.

ghost use Rattle.std.specs.Prelude.{◌≡◌, ◌<◌, length, slice_set, IfOk};
ghost use Rattle.std.specs.List.{AllByRecursion};
ghost use Rattle.pc_rows.specs.Linear.{IsOver};
ghost use Rattle.pc_flow.specs.declared.what.What.TheVariants.{Enter};
ghost use Rattle.pc_flow.specs.Arc.{arc};
ghost use Rattle.pc_flow.specs.Shape.{IsGraph};
ghost use Rattle.pc_flow.specs.Annotation.{rows_at};
ghost use Rattle.pc_certify.specs.Claims.{IsProved};
ghost use Rattle.pc_certify.specs.Proving.{EdgeDone, RenewedIs};
ghost use Rattle.pc_certify.specs.Entries.{ReducesTo};

use crate::edge::asked_proofs;
use crate::origin::Origin;
use pc_certificate::Annotated;
use pc_entail::reduce;
use pc_flow::{Edge, Graph, rows_at};
use pc_rows::{NoMemory, Proof, Rows};
use sqlite_items::Items;
use std::alloc::Global;

/// The alternative with the rows of the entry reduced: without those that the others show. The
/// proofs of the edge from the entry are made anew, from the rows that are left; where one is not
/// found, the alternative stays as it is.
pub fn reduced(alloc: Global, g: &Graph, a: Annotated) -> Result<Annotated, NoMemory>
    requires { IsProved g.now a }
    ensures { IfOk result (ReducesTo g.now a) }
{
    let _start = entry_edge(g);
    let before = rows_at(&a.rows, 0);
    let left = reduce(alloc, before)?;
    if left.len() == before.len() {
        return Ok(a);
    }
    match entry_proofs(alloc, g, &left, rows_at(&a.rows, 1))? {
        Some(proofs) => Ok(replaced(g, a, left, proofs)),
        None => Ok(a),
    }
}

/// The edge from the entry.
pub fn entry_edge(g: &Graph) -> &Edge
    ensures edge { result.now ≡ arc 0 1 (Enter g.now.params) }
    ensures start { 1 < length g.now.points }
    ensures kept { IsGraph g.now }
{
    let _kept = g.edges();
    g.edge(0)
}

/// The proofs of what the edge from the entry owes for the rows `next` at its target, each found by
/// a search from the given rows.
fn entry_proofs(
    alloc: Global,
    g: &Graph,
    rows: &Rows,
    next: &Rows,
) -> Result<Option<Items<Proof>>, NoMemory>
    ensures { RenewedIs g.now.params rows.now next.now result }
{
    let origin = Origin {
        head: true,
        edge: entry_edge(g),
        rows,
    };
    asked_proofs(alloc, &origin, next)
}

/// The alternative with other rows at the entry, and other proofs of the edge from it.
fn replaced(g: &Graph, mut a: Annotated, rows: Rows, proofs: Items<Proof>) -> Annotated
    requires proved { IsProved g.now a }
    requires over { AllByRecursion (IsOver g.now.params) rows }
    requires done { EdgeDone (slice_set a.rows 0 rows) (arc 0 1 (Enter g.now.params)) proofs }
    ensures rows { result.rows ≡ slice_set a.rows 0 rows }
    ensures proved { IsProved g.now result }
{
    let _start = entry_edge(g);
    a.rows.set(0, rows);
    a.proofs.set(0, proofs);
    a
}
