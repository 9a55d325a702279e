//! Rows that cut a box.

ghost use Rattle.std.specs.Prelude.{◌≡◌, ◌≢◌, ◌<◌, pos, Some, length, IfOk};
ghost use Rattle.pc_rows.specs.Linear.{InRange};
ghost use Rattle.pc_rows.specs.Readers.{terms_of};
ghost use Rattle.pc_rows.specs.declared.row.TheConstants.{VARIABLES};
ghost use Rattle.pc_box.specs.Intervals.{cut};
ghost use Rattle.pc_box.specs.Boxes.{interval_at};
ghost use Rattle.pc_box.specs.Forward.{narrowed, cut_row, cut_rows};

use crate::bounds::Bounds;
use pc_domain::NoMemory;
use pc_rows::{Row, Rows};
use std::alloc::Global;

/// The box cut by rows, in order; None where it is empty.
pub(crate) fn cut_rows(
    alloc: Global,
    bounds: &Bounds,
    rows: &Rows,
) -> Result<Option<Bounds>, NoMemory>
    ensures { IfOk result (λ b. b ≡ cut_rows (Some bounds.now) rows.now) }
{
    let mut left = Some(bounds.copy(alloc)?);
    for k in 0..rows.len() {
        left = cut_by(alloc, left, rows.at(k))?;
    }
    Ok(left)
}

fn cut_by(alloc: Global, bounds: Option<Bounds>, r: &Row) -> Result<Option<Bounds>, NoMemory>
    ensures { IfOk result (λ b. b ≡ cut_row bounds r.now) }
{
    match bounds {
        Some(bounds) => cut_row(alloc, bounds, r),
        None => Ok(None),
    }
}

/// The box cut by a row. A row with two or more variables leaves it as it is.
pub(crate) fn cut_row(alloc: Global, bounds: Bounds, r: &Row) -> Result<Option<Bounds>, NoMemory>
    ensures { IfOk result (λ b. b ≡ cut_row (Some bounds) r.now) }
{
    match r.terms() {
        0 => Ok(if r.constant() < 0 { None } else { Some(bounds) }),
        1 => cut_by_term(alloc, &bounds, r),
        _ => Ok(Some(bounds)),
    }
}

/// The box cut by a row with one variable.
fn cut_by_term(alloc: Global, bounds: &Bounds, r: &Row) -> Result<Option<Bounds>, NoMemory>
    requires { length (terms_of r.now) ≡ 1 }
    ensures { IfOk result (λ b. b ≡ cut_row (Some bounds.now) r.now) }
{
    let (x, a) = r.term(0);
    cut_at(alloc, bounds, x, a, r.constant())
}

/// The box in which a variable keeps the integers with `a` times the integer plus `c` of at least 0.
pub(crate) fn cut_at(
    alloc: Global,
    bounds: &Bounds,
    x: u32,
    a: i128,
    c: i128,
) -> Result<Option<Bounds>, NoMemory>
    requires variable { x < VARIABLES }
    requires other { a ≢ pos 0 }
    requires factor { InRange a }
    requires constant { InRange c }
    ensures { IfOk result (λ b. b ≡ narrowed bounds.now x (cut a c (interval_at bounds.now.intervals x))) }
{
    let interval = bounds.at(x).cut(a, c);
    if interval.is_hollow() {
        return Ok(None);
    }
    Ok(Some(bounds.with(alloc, x, &interval)?))
}
