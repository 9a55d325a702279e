//! The proofs of an annotation.

ghost use Rattle.std.specs.Prelude.{◌≡◌, ◌≤◌, [], ◌∷◌, length, IfOk, IfSome, IfNone};
ghost use Rattle.std.specs.List.{AllByRecursion};
ghost use Rattle.pc_rows.specs.declared.system.TheConstants.{PREMISES};
ghost use Rattle.pc_lower.specs.Laws.{IsComplete};
ghost use Rattle.pc_replay.specs.Accepts.{Accepts};
ghost use Rattle.pc_certify.specs.Causes.{Fails};
ghost use Rattle.pc_certify.specs.Claims.{claim};
ghost use Rattle.pc_certify.specs.Proving.{EdgesAre, AnnotatedIs};

use crate::edge::edge_proofs;
use crate::lists::push;
use pc_certificate::Annotated;
use pc_flow::{Annotation, Graph};
use pc_rows::{NoMemory, Proof};
use sqlite_items::Items;
use std::alloc::Global;

/// The proofs of an annotation: for each edge those of the rows that it owes. The annotation covers
/// what the edges owe that leave a point which is no head, as a completed one does; at the edges
/// that leave a head the proofs are looked for.
///
/// Nothing only where at some edge a row that is owed is not carried back in range, or its negation
/// is not in range; or where at an edge from a point that is no head the constants of that negation
/// and of the first row that covers the owed one have a sum that is not in range; or where at an
/// edge from a head the question is not modest, or no multipliers show the row.
pub fn prove(
    alloc: Global,
    g: &Graph,
    annotation: &Annotation,
) -> Result<Option<Annotated>, NoMemory>
    requires { IsComplete g.now annotation.now }
    ensures rows { IfOk result (λ o. IfSome o (λ b. b.rows ≡ annotation.now)) }
    ensures accepted { IfOk result (λ o. IfSome o (λ b. Accepts g.now (claim g.now (b ∷ [])))) }
    ensures few { IfOk result (λ o. IfSome o (λ b. AllByRecursion (λ proofs. length proofs ≤ PREMISES) b.proofs)) }
    ensures cause { IfOk result (λ o. IfNone o (Fails g.now annotation.now)) }
{
    annotated(alloc, g, copy(alloc, annotation)?)
}

/// The annotation with the proofs of each edge. Its rows are moved: copies of them would be the
/// greater part of what an inference needs.
pub fn annotated(
    alloc: Global,
    g: &Graph,
    annotation: Annotation,
) -> Result<Option<Annotated>, NoMemory>
    requires { IsComplete g.now annotation }
    ensures { AnnotatedIs g.now annotation result }
{
    match proofs_by_edge(alloc, g, &annotation)? {
        Some(proofs) => Ok(Some(Annotated {
            rows: annotation,
            proofs,
        })),
        None => Ok(None),
    }
}

/// The proofs of each edge.
fn proofs_by_edge(
    alloc: Global,
    g: &Graph,
    annotation: &Annotation,
) -> Result<Option<Items<Items<Proof>>>, NoMemory>
    requires { IsComplete g.now annotation.now }
    ensures { EdgesAre g.now annotation.now result }
{
    let mut proofs = Items::new(alloc);
    for i in 0..g.edges() {
        match edge_proofs(alloc, g, annotation, g.edge(i))? {
            Some(found) => push(&mut proofs, found)?,
            None => return Ok(None),
        }
    }
    Ok(Some(proofs))
}

/// The same rows.
fn copy(alloc: Global, annotation: &Annotation) -> Result<Annotation, NoMemory>
    ensures { IfOk result (λ rows. rows ≡ annotation.now) }
{
    let mut all = Items::new(alloc);
    for rows in annotation.as_slice() {
        push(&mut all, rows.copy()?)?;
    }
    Ok(all)
}
