//! What flows into a point.

ghost use Rattle.std.specs.Prelude.{◌<◌, length, slice_get, IfOk};
ghost use Rattle.pc_domain.specs.Fold.{Brings};
ghost use Rattle.pc_fixpoint.specs.Flowing.{Gathered, After, Join};

use pc_domain::{Forward, NoMemory};
use pc_flow::{Edge, Graph};
use sqlite_items::Items;
use std::alloc::Global;

/// The join of what the edges bring that enter a point, in order. An edge from a point that has no value yet brings nothing.
pub(crate) fn gathered<D: Forward>(
    alloc: Global,
    g: &Graph,
    values: &Items<D>,
    p: u32,
) -> Result<D, NoMemory>
    requires { p < length g.now.points }
    ensures { IfOk result (λ v. Gathered D.Forward g.now values.now p v) }
{
    let mut v = D::nothing(alloc, g.variables())?;
    let numbers = g.entering(p);
    for k in 0..numbers.len() {
        let e = g.edge(numbers[k]);
        v = with_edge(alloc, values, e, v)?;
    }
    Ok(v)
}

/// The value so far, joined with what an edge brings.
fn with_edge<D: Forward>(alloc: Global, values: &Items<D>, e: &Edge, v: D) -> Result<D, NoMemory>
    ensures { IfOk result (λ w. Brings (After D.Forward) (Join D.Forward) (slice_get values.now e.now.from) e.now.what v w) }
{
    match values.get(e.from as usize) {
        Some(u) => v.join(alloc, &u.after(alloc, e)?),
        None => Ok(v),
    }
}
