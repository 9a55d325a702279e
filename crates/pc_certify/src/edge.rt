//! The proofs of what an edge owes.

ghost use Rattle.std.specs.Prelude.{◌≡◌, ◌<◌, ◌≤◌, length, true, false};
ghost use Rattle.std.specs.List.{AllByRecursion};
ghost use Rattle.pc_rows.specs.Joins.{is_covered};
ghost use Rattle.pc_rows.specs.declared.system.TheConstants.{PREMISES};
ghost use Rattle.pc_flow.specs.Annotation.{rows_at};
ghost use Rattle.pc_flow.specs.Carry.{asked, back, premises};
ghost use Rattle.pc_lower.specs.Annotation.{is_head};
ghost use Rattle.pc_lower.specs.Laws.{IsCovered};
ghost use Rattle.pc_certify.specs.Proving.{RowsAre, EdgeIs};

use crate::lists::push;
use crate::origin::Origin;
use crate::row::row_proof;
use pc_flow::{Annotation, Edge, Graph, TEST_ROWS, rows_at};
use pc_rows::{NoMemory, PREMISES, Proof, ROWS, Rows};
use sqlite_items::Items;
use std::alloc::Global;

const _: () = prove!(ROWS + TEST_ROWS <= PREMISES);

/// The proofs of what an edge of a graph owes, in order, for the rows at its target. The premises
/// are the rows of the point that it leaves, and then those of its test. Nothing only where some
/// row has no proof.
pub fn edge_proofs(
    alloc: Global,
    g: &Graph,
    annotation: &Annotation,
    e: &Edge,
) -> Result<Option<Items<Proof>>, NoMemory>
    requires long { length annotation.now ≡ length g.now.points }
    requires leaves { e.now.from < length g.now.points }
    requires reaches { e.now.to < length g.now.points }
    requires covers { is_head g.now.points e.now.from ≡ false → IsCovered (rows_at annotation.now) e.now }
    ensures { EdgeIs g.now.points annotation.now e.now result }
{
    let origin = Origin {
        head: g.is_head(e.from),
        edge: e,
        rows: rows_at(annotation, e.from),
    };
    asked_proofs(alloc, &origin, rows_at(annotation, e.to))
}

/// The proofs of the rows that an edge has to show for those at its target, in order.
pub fn asked_proofs(
    alloc: Global,
    origin: &Origin,
    target: &Rows,
) -> Result<Option<Items<Proof>>, NoMemory>
    requires { let w = origin.now.edge.now.what in origin.now.head ≡ false → AllByRecursion (λ r. is_covered (back w r) (premises w origin.now.rows.now) ≡ true) (asked w target.now) }
    ensures proofs { let w = origin.now.edge.now.what in RowsAre origin.now.head w (premises w origin.now.rows.now) (asked w target.now) result }
    ensures few { length (asked origin.now.edge.now.what target.now) ≤ PREMISES }
{
    let mut proofs = Items::new(alloc);
    for k in 0..origin.edge.owed(target) {
        match row_proof(alloc, origin, origin.edge.asked(target, k))? {
            Some(proof) => push(&mut proofs, proof)?,
            None => return Ok(None),
        }
    }
    Ok(Some(proofs))
}
