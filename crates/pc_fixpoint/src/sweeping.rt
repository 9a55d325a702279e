//! A round backwards.

ghost use Rattle.std.specs.Prelude.{◌≡◌, ◌<◌, length, IfOk};
ghost use Rattle.pc_fixpoint.specs.Sweeps.{AreMarked, Narrowed, Stepped, Swept};

use crate::asking::asked;
use crate::heads::is_head;
use pc_domain::{Backward, NoMemory};
use pc_flow::Graph;
use sqlite_items::Items;
use std::alloc::Global;

/// One round, from the greatest point down. Tells whether a head changed.
pub(crate) fn sweep<B: Backward>(
    alloc: Global,
    g: &Graph,
    values: &mut Items<B>,
    spent: &mut Items<bool>,
    round: u32,
) -> Result<bool, NoMemory>
    requires { AreMarked B.Backward g.now values.old spent.old }
    ensures { IfOk result (λ changed. Swept B.Backward g.now round 0 spent.old changed values.new spent.new) }
{
    let mut changed = false;
    let mut p = g.points();
    'points: while 0 < p {
        p -= 1;
        if step_at(alloc, g, values, spent, p, round)? {
            changed = true;
        }
    }
    Ok(changed)
}

/// One point of a round. Tells whether it is a head that changed.
fn step_at<B: Backward>(
    alloc: Global,
    g: &Graph,
    values: &mut Items<B>,
    spent: &mut Items<bool>,
    p: u32,
    round: u32,
) -> Result<bool, NoMemory>
    requires point { p < length g.now.points }
    requires values { length values.old ≡ length g.now.points }
    requires spent { length spent.old ≡ length g.now.points }
    ensures { IfOk result (λ changed. Stepped B.Backward g.now round values.old spent.old p changed values.new spent.new) }
{
    if !is_head(g, p) {
        let v = asked(alloc, g, values, p)?;
        values.set(p as usize, v);
        return Ok(false);
    }
    if spent.as_slice()[p as usize] {
        return Ok(false);
    }
    let newer = asked(alloc, g, values, p)?;
    narrow_at(alloc, g, values, spent, p, &newer, round)
}

/// Narrows the value at a head by a newer one. Tells whether it changed.
fn narrow_at<B: Backward>(
    alloc: Global,
    g: &Graph,
    values: &mut Items<B>,
    spent: &mut Items<bool>,
    p: u32,
    newer: &B,
    round: u32,
) -> Result<bool, NoMemory>
    requires values { p < length values.old }
    requires spent { p < length spent.old }
    ensures { IfOk result (λ changed. Narrowed B.Backward round values.old spent.old p newer.now changed values.new spent.new) }
{
    match values.as_slice()[p as usize].narrow(alloc, newer, round)? {
        None => Ok(false),
        Some(v) => {
            if round < B::LAST_ROUND {
                values.set(p as usize, v);
            } else {
                values.set(p as usize, B::nothing(alloc, g.variables())?);
                spent.set(p as usize, true);
            }
            Ok(true)
        }
    }
}
