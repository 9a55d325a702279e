//! Lists of rows that leave out what is covered and what they have no room for.

ghost use Rattle.std.specs.Prelude.{◌≡◌, ◌<◌, ◌∷◌, ◌++◌, [], length, IfOk, OnOk};
ghost use Rattle.pc_rows.specs.declared.rows.TheConstants.{ROWS};
ghost use Rattle.pc_poly.specs.Rows.{added, added_fitting, gathered};

use pc_domain::NoMemory;
use pc_rows::{Past, ROWS, Row, Rows, covered};

/// Puts the row at the end, unless the rows before it cover it or have no room for it.
pub(crate) fn add(rows: &mut Rows, r: Row) -> Result<(), NoMemory>
    ensures { OnOk result (rows.new ≡ added rows.old r) }
{
    if rows.len() == ROWS || covered(&r, rows) {
        return Ok(());
    }
    push(rows, r)
}

/// Adds the row, if it is in range.
pub(crate) fn add_fitting(rows: &mut Rows, r: Result<Row, Past>) -> Result<(), NoMemory>
    ensures { OnOk result (rows.new ≡ added_fitting rows.old r) }
{
    match r {
        Ok(r) => add(rows, r),
        Err(Past) => Ok(()),
    }
}

/// Adds each row of another list, in order.
pub(crate) fn gather(rows: &mut Rows, more: &Rows) -> Result<(), NoMemory>
    ensures { OnOk result (rows.new ≡ gathered rows.old more.now) }
{
    for i in 0..more.len() {
        add(rows, more.at(i).copy())?;
    }
    Ok(())
}

/// Puts the row at the end.
pub(crate) fn push(rows: &mut Rows, r: Row) -> Result<(), NoMemory>
    requires { length rows.old < ROWS }
    ensures { OnOk result (rows.new ≡ rows.old ++ r ∷ []) }
{
    match rows.push(r) {
        Ok(()) => Ok(()),
        Err(_) => Err(NoMemory),
    }
}

/// The same rows.
pub(crate) fn copied(rows: &Rows) -> Result<Rows, NoMemory>
    ensures { IfOk result (λ all. all ≡ rows.now) }
{
    match rows.copy() {
        Ok(all) => Ok(all),
        Err(_) => Err(NoMemory),
    }
}
