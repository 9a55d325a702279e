//! What is asked at a point.

ghost use Rattle.std.specs.Prelude.{◌<◌, length, slice_get, IfOk};
ghost use Rattle.pc_domain.specs.Fold.{Brings};
ghost use Rattle.pc_fixpoint.specs.Ebbing.{Asked, Before, Both};

use pc_domain::{Backward, NoMemory};
use pc_flow::{Edge, Graph};
use sqlite_items::Items;
use std::alloc::Global;

/// All that the edges bring back that leave a point, in order.
pub(crate) fn asked<B: Backward>(
    alloc: Global,
    g: &Graph,
    values: &Items<B>,
    p: u32,
) -> Result<B, NoMemory>
    requires { p < length g.now.points }
    ensures { IfOk result (λ v. Asked B.Backward g.now values.now p v) }
{
    let mut v = B::everything(alloc, g.variables())?;
    let numbers = g.leaving(p);
    for k in 0..numbers.len() {
        let e = g.edge(numbers[k]);
        v = and_edge(alloc, values, e, v)?;
    }
    Ok(v)
}

/// The value so far, and what an edge brings back.
fn and_edge<B: Backward>(alloc: Global, values: &Items<B>, e: &Edge, v: B) -> Result<B, NoMemory>
    ensures { IfOk result (λ w. Brings (Before B.Backward) (Both B.Backward) (slice_get values.now e.now.to) e.now.what v w) }
{
    match values.get(e.to as usize) {
        Some(u) => v.both(alloc, &u.before(alloc, e)?),
        None => Ok(v),
    }
}
