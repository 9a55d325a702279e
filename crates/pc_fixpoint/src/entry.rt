//! What is enough at the entry.

ghost use Rattle.std.specs.Prelude.{IsSomeAnd, IfOk, List, slice_get};
ghost use Rattle.pc_flow.specs.Shape.{NoHeads};
ghost use Rattle.pc_domain.specs.Fold.{IsBackFold};
ghost use Rattle.pc_domain.specs.View.{View};
ghost use Rattle.pc_fixpoint.specs.Ebbing.{AreSafe};

use crate::recession::backward;
use pc_domain::{Backward, NoMemory};
use pc_flow::Graph;
use pc_rows::Row;
use sqlite_items::Items;
use std::alloc::Global;

/// Rows of the entry, which only safe entry states meet.
pub fn entry_condition<B: Backward>(alloc: Global, g: &Graph) -> Result<Items<Row>, NoMemory>
    ensures safe { IfOk result (AreSafe g.now) }
    ensures folded { IfOk result (λ rows. NoHeads g.now.points → (views : List View) × IsBackFold B.says g.now views × IsSomeAnd (slice_get views 0) (λ v. B.says.rows v g.now.params rows)) }
{
    let params = g.params();
    let values = backward::<B>(alloc, g)?;
    values.as_slice()[0].entry_rows(alloc, params)
}
