//! The proofs of edges, as they are read.

ghost use Rattle.std.specs.Prelude.{IsTrue, ◌↔◌, ◌≤◌};
ghost use Rattle.serde_json.specs.Data.{array};
ghost use Rattle.serde_json.specs.View.{view, items_view};
ghost use Rattle.pc_rows.specs.Evidence.{IsPart, IsParts, IsProof};
ghost use Rattle.pc_json.specs.Values.{of_parts, of_proof, of_proofs, of_edges};
ghost use Rattle.pc_json.specs.Kept.{AreProofs, AreEdges};
ghost use Rattle.pc_json.specs.Exactly.{IsExactly, IsNext};

use crate::fault::JsonFault;
use crate::numbers::{count_of, number_of};
use pc_rows::{Number, PREMISES, Part, Parts, Proof};
use serde_json::Value;
use sqlite_items::Items;
use std::alloc::Global;

/// Whether a part keeps the rules, with an index from `least` on.
fn may_follow(index: u32, multiplier: Number, least: u32) -> bool
    ensures { IsTrue result ↔ ((least ≤ index) × IsPart (record { index = index; multiplier = multiplier })) }
{
    let multiplier = multiplier.get();
    least <= index && index < PREMISES as u32 && multiplier != 0
}

/// The part with this index and this multiplier. The index is from `least` on.
fn part_of(index: &Value, multiplier: &Value, least: u32) -> Result<Part, JsonFault>
    ensures { IsNext least (view index.now) (view multiplier.now) result }
{
    let index = count_of(index)?;
    let multiplier = number_of(multiplier)?;
    if may_follow(index, multiplier, least) {
        Ok(Part { index, multiplier })
    } else {
        Err(JsonFault::Value)
    }
}

/// The parts that have the values, an index and a multiplier for each.
fn parts_in(alloc: Global, list: &[Value]) -> Result<Parts, JsonFault>
    ensures { IsExactly IsParts of_parts (array (items_view list.now)) result }
{
    let mut parts = Parts::new(alloc);
    let mut least = 0;
    let mut rest = list;
    'parts: while let [index, multiplier, more @ ..] = rest {
        let part = part_of(index, multiplier, least)?;
        least = part.index + 1;
        parts.push(part)?;
        rest = more;
    }
    if rest.is_empty() {
        Ok(parts)
    } else {
        Err(JsonFault::Value)
    }
}

/// The proof, which is an array of the goal's multiplier and its parts.
fn proof_of(alloc: Global, value: &Value) -> Result<Proof, JsonFault>
    ensures { IsExactly IsProof of_proof (view value.now) result }
{
    match value.as_array() {
        Some(list) => proof_in(alloc, list.as_slice()),
        None => Err(JsonFault::Value),
    }
}

/// The proof whose numbers the values are.
fn proof_in(alloc: Global, list: &[Value]) -> Result<Proof, JsonFault>
    ensures { IsExactly IsProof of_proof (array (items_view list.now)) result }
{
    let [goal, rest @ ..] = list else {
        return Err(JsonFault::Value);
    };
    let goal = number_of(goal)?;
    let parts = parts_in(alloc, rest)?;
    Ok(Proof::new(goal, parts))
}

/// The proofs of an edge, at most [`PREMISES`].
fn proofs_of(alloc: Global, value: &Value) -> Result<Items<Proof>, JsonFault>
    ensures { IsExactly AreProofs of_proofs (view value.now) result }
{
    match value.as_array() {
        Some(list) => proofs_in(alloc, list.as_slice()),
        None => Err(JsonFault::Value),
    }
}

/// The proofs that have the values.
fn proofs_in(alloc: Global, list: &[Value]) -> Result<Items<Proof>, JsonFault>
    ensures { IsExactly AreProofs of_proofs (array (items_view list.now)) result }
{
    if PREMISES < list.len() {
        return Err(JsonFault::Value);
    }
    let mut proofs = Items::new(alloc);
    for item in list {
        let proof = proof_of(alloc, item)?;
        proofs.push(proof)?;
    }
    Ok(proofs)
}

/// The proofs of so many edges.
pub(crate) fn edges_of(
    alloc: Global,
    value: &Value,
    edges: u32,
) -> Result<Items<Items<Proof>>, JsonFault>
    ensures { IsExactly (AreEdges edges) of_edges (view value.now) result }
{
    match value.as_array() {
        Some(list) => edges_in(alloc, list.as_slice(), edges),
        None => Err(JsonFault::Value),
    }
}

/// The proofs of the edges that have the values.
fn edges_in(alloc: Global, list: &[Value], edges: u32) -> Result<Items<Items<Proof>>, JsonFault>
    ensures { IsExactly (AreEdges edges) of_edges (array (items_view list.now)) result }
{
    if list.len() != edges as usize {
        return Err(JsonFault::Value);
    }
    let mut all = Items::new(alloc);
    for item in list {
        let proofs = proofs_of(alloc, item)?;
        all.push(proofs)?;
    }
    Ok(all)
}
