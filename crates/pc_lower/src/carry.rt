//! Rows carried back over an edge.

ghost use Rattle.std.specs.Prelude.{◌≡◌, IfOk};
ghost use Rattle.pc_flow.specs.Carry.{back_all};
ghost use Rattle.pc_lower.specs.Need.{uncovered};
ghost use Rattle.pc_lower.specs.Operations.{Answers, carries};

use crate::fault::CandidateFault;
use pc_flow::{Edge, back};
use pc_rows::{NoMemory, Rows, covered};
use std::alloc::Global;

/// Each row at the target of an edge as a row at its source.
pub fn carried(alloc: Global, e: &Edge, rows: &Rows) -> Result<Rows, CandidateFault>
    ensures { Answers (carries e.now.what rows.now) (back_all e.now.what rows.now) result }
{
    let mut all = Rows::new(alloc);
    for i in 0..rows.len() {
        all.push(back(e, rows.at(i))?)?;
    }
    Ok(all)
}

/// The rows that others do not cover.
pub fn uncovered(alloc: Global, others: &Rows, rows: &Rows) -> Result<Rows, NoMemory>
    ensures { IfOk result (λ left. left ≡ uncovered others.now rows.now) }
{
    let mut left = Rows::new(alloc);
    for i in 0..rows.len() {
        let row = rows.at(i);
        if covered(row, others) {
            continue;
        }
        if left.push(row.copy()).is_err() {
            return Err(NoMemory);
        }
    }
    Ok(left)
}
