//! The iteration backwards.

ghost use Rattle.std.specs.Prelude.{◌≡◌, length, map, IfOk};
ghost use Rattle.pc_rows.specs.Linear.{State};
ghost use Rattle.pc_flow.specs.Shape.{NoHeads};
ghost use Rattle.pc_flow.specs.Walk.{IsEntry, GraphSafe, entered};
ghost use Rattle.pc_domain.specs.Fold.{IsBackFold};
ghost use Rattle.pc_domain.specs.Values.{HasAt, IsBackConsistent};

use crate::marks::all_alike;
use crate::sweeping::sweep;
use pc_domain::{Backward, NoMemory};
use pc_flow::Graph;
use sqlite_items::Items;
use std::alloc::Global;

/// A value for each point. From a state of a point's value no walk comes to an assertion that does not hold.
///
/// All begins with everything at each head. Each round goes from the greatest point down: a point is all that the edges
/// bring back that leave it, from what their targets are by now; a head is narrowed by that. From the last round of the
/// domain on a head that is narrowed has no state left, and stays so. The round in which no head changed is the last.
pub fn backward<B: Backward>(alloc: Global, g: &Graph) -> Result<Items<B>, NoMemory>
    ensures long { IfOk result (λ values. length values ≡ length g.now.points) }
    ensures consistent { IfOk result (λ values. IsBackConsistent B.has g.now values) }
    ensures safe { IfOk result (λ values. (s : State) → IsEntry g.now s → HasAt B.has values 0 (entered g.now s) → GraphSafe g.now s) }
    ensures folded { IfOk result (λ values. NoHeads g.now.points → IsBackFold B.says g.now (map B.view values)) }
{
    let mut values = start(alloc, g)?;
    let mut spent = all_alike(alloc, g, false)?;
    let mut round = 0u32;
    // what they tell is read by the proof alone: the number is of 32 bits, and the graph is one
    let _last = B::LAST_ROUND;
    let _points = g.points();
    'rounds: while sweep(alloc, g, &mut values, &mut spent, round)? {
        round = round.saturating_add(1);
    }
    Ok(values)
}

/// Everything at each point. What stands at points that are no heads is not read before it is set.
fn start<B: Backward>(alloc: Global, g: &Graph) -> Result<Items<B>, NoMemory>
    ensures { IfOk result (λ values. length values ≡ length g.now.points) }
{
    let mut values = Items::new(alloc);
    for _p in 0..g.points() {
        let all = B::everything(alloc, g.variables())?;
        values.push(all)?;
    }
    Ok(values)
}
