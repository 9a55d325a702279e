//! Which alternatives are kept. An alternative is needless beside another one where its rows at the
//! entry are found to show every row of the other one there: every state that meets it then meets
//! the other.

ghost use Rattle.std.specs.Prelude.{IfOk};
ghost use Rattle.std.specs.List.{AllByRecursion};
ghost use Rattle.pc_certify.specs.Selecting.{HasEntry, NeedlessIs, NeedlessBesideIs, Without, Selects};

use crate::lists::push;
use pc_certificate::Annotated;
use pc_entail::shows_all;
use pc_flow::rows_at;
use pc_rows::NoMemory;
use sqlite_items::Items;
use std::alloc::Global;

/// The alternatives that are kept after a further one. Where it is needless beside a kept one it is
/// left out; else the kept ones that are needless beside it go, and it is kept as the last. Where it
/// is not settled which rows show which, both are kept.
pub fn select(
    alloc: Global,
    kept: Items<Annotated>,
    a: Annotated,
) -> Result<Items<Annotated>, NoMemory>
    requires kept { AllByRecursion HasEntry kept }
    requires entry { HasEntry a }
    ensures selects { IfOk result (Selects a kept) }
    ensures entries { IfOk result (AllByRecursion HasEntry) }
{
    if is_needless_beside(alloc, &a, kept.as_slice())? {
        return Ok(kept);
    }
    let mut left = without(alloc, kept, &a)?;
    push(&mut left, a)?;
    Ok(left)
}

/// Whether the alternative is needless beside one of several.
fn is_needless_beside(alloc: Global, a: &Annotated, kept: &[Annotated]) -> Result<bool, NoMemory>
    requires entry { HasEntry a.now }
    requires kept { AllByRecursion HasEntry kept.now }
    ensures { NeedlessBesideIs a.now kept.now result }
{
    for i in 0..kept.len() {
        if is_needless(alloc, a, &kept[i])? {
            return Ok(true);
        }
    }
    Ok(false)
}

/// The kept alternatives without those that are needless beside this one, in their order.
fn without(
    alloc: Global,
    mut kept: Items<Annotated>,
    a: &Annotated,
) -> Result<Items<Annotated>, NoMemory>
    requires kept { AllByRecursion HasEntry kept }
    requires entry { HasEntry a.now }
    ensures left { IfOk result (Without a.now kept) }
    ensures entries { IfOk result (AllByRecursion HasEntry) }
{
    let mut left = Items::new(alloc);
    'rest: while 0 < kept.len() {
        let k = kept.remove(0);
        if !is_needless(alloc, &k, a)? {
            push(&mut left, k)?;
        }
    }
    Ok(left)
}

/// Whether an alternative is needless beside another one.
fn is_needless(alloc: Global, a: &Annotated, b: &Annotated) -> Result<bool, NoMemory>
    requires first { HasEntry a.now }
    requires second { HasEntry b.now }
    ensures { NeedlessIs a.now b.now result }
{
    shows_all(alloc, rows_at(&a.rows, 0), rows_at(&b.rows, 0))
}
