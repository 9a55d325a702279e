//! The iteration forwards.

ghost use Rattle.std.specs.Prelude.{◌≡◌, ℕ, length, map, IfOk, OnOk};
ghost use Rattle.pc_rows.specs.Linear.{State};
ghost use Rattle.pc_flow.specs.Walk.{Reach};
ghost use Rattle.pc_flow.specs.Shape.{NoHeads};
ghost use Rattle.pc_domain.specs.Fold.{IsFold};
ghost use Rattle.pc_domain.specs.Values.{HasAt, IsConsistent};
ghost use Rattle.pc_fixpoint.specs.Flowing.{heads, Filled};
ghost use Rattle.pc_fixpoint.specs.Marks.{MarksTell};
ghost use Rattle.pc_fixpoint.specs.Rounds.{weight};

use crate::gathering::gathered;
use crate::heads::turn;
use crate::marks::{all_alike, is_stale};
use pc_domain::{Forward, NoMemory};
use pc_flow::Graph;
use sqlite_items::Items;
use std::alloc::Global;

/// A value for each point. Each state that some walk from some entry state brings to a point is in the point's value.
///
/// Round 0 goes from the least point up, where an edge back brings nothing yet. Each further round begins with the heads:
/// each is widened by what flows into it from the values of the round before. Where none changed these are the answer.
/// Else all points that are no head are computed anew, from the least up.
///
/// A round asks only what stands behind a change: a mark at each point tells whether its value is a new one. What flows
/// into a point along edges from points without marks is what flowed into it before.
pub fn forward<D: Forward>(alloc: Global, g: &Graph) -> Result<Items<D>, NoMemory>
    ensures long { IfOk result (λ values. length values ≡ length g.now.points) }
    ensures consistent { IfOk result (λ values. IsConsistent D.has g.now values) }
    ensures reached { IfOk result (λ values. (p : ℕ) (s : State) → Reach g.now p s → HasAt D.has values p s) }
    ensures folded { IfOk result (λ values. NoHeads g.now.points → IsFold D.says g.now (map D.view values)) }
{
    let mut values = first(alloc, g)?;
    let mut moved = all_alike(alloc, g, true)?;
    let mut round = 1u32;
    // what they tell is read by the proof alone: the number is of 32 bits, and the graph is one
    let _top = D::TOP_ROUND;
    let _points = g.points();
    'rounds: while turn(alloc, g, &mut values, &mut moved, round)? {
        refill(alloc, g, &mut values, &mut moved)?;
        round = round.saturating_add(1);
    }
    Ok(values)
}

/// Round 0.
fn first<D: Forward>(alloc: Global, g: &Graph) -> Result<Items<D>, NoMemory>
    ensures { IfOk result (λ values. Filled D.Forward g.now (length g.now.points) (length g.now.points) values) }
{
    let mut values = Items::new(alloc);
    let all = D::everything(alloc, g.variables())?;
    values.push(all)?;
    for p in 1..g.points() {
        let v = gathered(alloc, g, &values, p)?;
        values.push(v)?;
    }
    Ok(values)
}

/// The points that are no head and behind which a mark stands are computed anew, from the least number up, and marked.
fn refill<D: Forward>(
    alloc: Global,
    g: &Graph,
    values: &mut Items<D>,
    moved: &mut Items<bool>,
) -> Result<(), NoMemory>
    requires { MarksTell D.Forward g.now 1 values.old moved.old }
    ensures told { OnOk result (MarksTell D.Forward g.now (length g.now.points) values.new moved.new) }
    ensures weight { OnOk result (weight D.parts (heads g.now) values.new ≡ weight D.parts (heads g.now) values.old) }
{
    for p in 1..g.points() {
        if is_stale(g, moved, p) {
            let v = gathered(alloc, g, values, p)?;
            values.set(p as usize, v);
            moved.set(p as usize, true);
        }
    }
    Ok(())
}
