//! A round at the heads.

ghost use Rattle.std.specs.Prelude.{◌≡◌, ◌<◌, length, slice_get, IfOk, Some};
ghost use Rattle.pc_fixpoint.specs.Flowing.{heads};
ghost use Rattle.pc_fixpoint.specs.Marks.{MarksTell};
ghost use Rattle.pc_fixpoint.specs.Rounds.{WidensTo, AreWidened, Turned};

use crate::gathering::gathered;
use crate::marks::{all_alike, is_due};
use pc_domain::{Forward, NoMemory};
use pc_flow::Graph;
use sqlite_items::Items;
use std::alloc::Global;

/// Whether a point is the head of a loop.
pub(crate) fn is_head(g: &Graph, p: u32) -> bool
    requires { p < length g.now.points }
    ensures { slice_get (heads g.now) p ≡ Some result }
{
    g.is_head(p)
}

/// One round: the heads that have to be asked are widened by what flows into them from the values before the round. Tells
/// whether one changed. Those that did are marked then, and no other point is.
pub(crate) fn turn<D: Forward>(
    alloc: Global,
    g: &Graph,
    values: &mut Items<D>,
    moved: &mut Items<bool>,
    round: u32,
) -> Result<bool, NoMemory>
    requires { MarksTell D.Forward g.now (length g.now.points) values.old moved.old }
    ensures { IfOk result (λ changed. Turned D.Forward g.now round 0 values.old changed values.new moved.new) }
{
    let mut wider = widened(alloc, g, values, moved, round)?;
    *moved = all_alike(alloc, g, false)?;
    let mut changed = false;
    'heads: while let Some(at_point) = wider.pop() {
        if let Some(v) = at_point {
            values.set(wider.len(), v);
            moved.set(wider.len(), true);
            changed = true;
        }
    }
    Ok(changed)
}

/// The new value of each head that changes, and None at every other point.
fn widened<D: Forward>(
    alloc: Global,
    g: &Graph,
    values: &Items<D>,
    moved: &Items<bool>,
    round: u32,
) -> Result<Items<Option<D>>, NoMemory>
    requires { MarksTell D.Forward g.now (length g.now.points) values.now moved.now }
    ensures { IfOk result (AreWidened D.Forward g.now round values.now (length g.now.points)) }
{
    let mut wider = Items::new(alloc);
    for p in 0..g.points() {
        let at_point = widened_at(alloc, g, values, moved, p, round)?;
        wider.push(at_point)?;
    }
    Ok(wider)
}

/// The new value of a point, if it is a head that changes. A head that need not be asked would not change.
fn widened_at<D: Forward>(
    alloc: Global,
    g: &Graph,
    values: &Items<D>,
    moved: &Items<bool>,
    p: u32,
    round: u32,
) -> Result<Option<D>, NoMemory>
    requires point { p < length g.now.points }
    requires marks { MarksTell D.Forward g.now (length g.now.points) values.now moved.now }
    ensures { IfOk result (WidensTo D.Forward g.now round values.now p) }
{
    if !is_due(g, moved, p) {
        return Ok(None);
    }
    let newer = gathered(alloc, g, values, p)?;
    values.as_slice()[p as usize].widen(alloc, &newer, round)
}
