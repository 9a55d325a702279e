//! Rows over an edge, and those of two values.

ghost use Rattle.std.specs.Prelude.{IfOk, Some};
ghost use Rattle.pc_back.specs.Needs.{BeforeIs, BothIs};

use pc_domain::NoMemory;
use pc_flow::Edge;
use pc_lower::{CandidateFault, demanded};
use pc_rows::{Rows, RowsFault, join};
use std::alloc::Global;

/// What an edge demands of the point that it leaves, for the rows at its target. None, which no state meets, where a number
/// leaves the range or there would be a row too many.
pub fn before(alloc: Global, edge: &Edge, rows: &Rows) -> Result<Option<Rows>, NoMemory>
    ensures { IfOk result (BeforeIs edge.now.what (Some rows.now)) }
{
    match demanded(alloc, edge, rows) {
        Ok(demanded) => Ok(Some(demanded)),
        Err(CandidateFault::Past) => Ok(None),
        Err(CandidateFault::Full) => Ok(None),
        Err(CandidateFault::NoMemory) => Err(NoMemory),
    }
}

/// The join of two lists, or None where it would have a row too many.
pub fn both(a: &Rows, b: &Rows) -> Result<Option<Rows>, NoMemory>
    ensures { IfOk result (BothIs (Some a.now) (Some b.now)) }
{
    match join(a, b) {
        Ok(rows) => Ok(Some(rows)),
        Err(RowsFault::Full) => Ok(None),
        Err(RowsFault::NoMemory) => Err(NoMemory),
    }
}
