//! Rows of the edges of tests.

ghost use Rattle.std.specs.Prelude.{◌≡◌, ◌∷◌, [], true, IfOk};
ghost use Rattle.pc_rows.specs.Linear.{negation};
ghost use Rattle.pc_program.specs.Forms.{row_fits};
ghost use Rattle.pc_graph.specs.Ways.{is_lone};

use pc_language::Op;
use pc_program::Compare;
use pc_rows::{Row, Rows};
use pc_text::NoMemory;
use std::alloc::Global;

/// Whether a test is one `!=`, which holds where one of two rows fails.
pub(crate) fn is_lone(all: &[Compare]) -> bool
    ensures { result ≡ is_lone all.now }
{
    match all {
        [only] => only.op == Op::Unequal,
        _ => false,
    }
}

/// The negation of a row of a program, which is in range.
pub(crate) fn negation(r: &Row) -> Row
    requires { row_fits r.now ≡ true }
    ensures { result ≡ negation r.now }
{
    match r.negated() {
        Ok(row) => row,
        Err(_) => unreachable!(),
    }
}

/// The list of one row.
pub(crate) fn only(alloc: Global, row: Row) -> Result<Rows, NoMemory>
    ensures { IfOk result (λ rows. rows ≡ row ∷ []) }
{
    let mut rows = Rows::new(alloc);
    match rows.push(row) {
        Ok(()) => Ok(rows),
        Err(_) => Err(NoMemory),
    }
}
