//! Rows and proofs, read line by line.

ghost use Rattle.std.specs.Prelude.{◌≤◌};
ghost use Rattle.pc_lines.specs.Answers.{Reads};
ghost use Rattle.pc_lines.specs.Readers as spec;
ghost use Rattle.pc_rows.specs.declared.system.TheConstants.{PREMISES};

use crate::fault::CertFault;
use crate::reader::Reader;
use pc_rows::{Proof, ROWS, Rows, VARIABLES};
use sqlite_items::Items;
use std::alloc::Global;

/// So many rows, one in each line.
pub fn rows(
    alloc: Global,
    lines: &mut Reader,
    variables: u32,
    count: usize,
) -> Result<Rows, CertFault>
    requires variables { variables ≤ VARIABLES }
    requires few { count ≤ ROWS }
    ensures { Reads (spec.repeated (λ _. spec.row_reader variables) 0 count lines.old) result lines.new }
{
    let mut rows = Rows::new(alloc);
    'rows: for _ in 0..count {
        let row = lines.row(alloc, variables)?;
        // There is room for every row, so a push is refused for want of memory alone.
        if rows.push(row).is_err() {
            return Err(CertFault::NoMemory);
        }
    }
    Ok(rows)
}

/// So many proofs, one in each line, which name some of so many premises.
pub fn proofs(
    alloc: Global,
    lines: &mut Reader,
    premises: u32,
    count: usize,
) -> Result<Items<Proof>, CertFault>
    requires { premises ≤ PREMISES }
    ensures { Reads (spec.repeated (λ _. spec.proof_reader premises) 0 count lines.old) result lines.new }
{
    let mut proofs = Items::new(alloc);
    'proofs: for _ in 0..count {
        proofs.push(lines.proof(alloc, premises)?)?;
    }
    Ok(proofs)
}
