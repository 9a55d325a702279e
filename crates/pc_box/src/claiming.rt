//! Assertions backwards.

ghost use Rattle.std.specs.Prelude.{◌≡◌, Some, IfOk};
ghost use Rattle.pc_box.specs.Backward.{is_implied, claimed_row, claimed_rows};

use crate::bounds::Bounds;
use crate::cutting::cut_row;
use crate::form::{Side, end_of_form};
use pc_domain::NoMemory;
use pc_rows::{Row, Rows};
use std::alloc::Global;

/// The box before an assertion of rows, in order; None where it is empty.
pub(crate) fn claimed_rows(
    alloc: Global,
    bounds: &Bounds,
    rows: &Rows,
) -> Result<Option<Bounds>, NoMemory>
    ensures { IfOk result (λ b. b ≡ claimed_rows (Some bounds.now) rows.now) }
{
    let mut left = Some(bounds.copy(alloc)?);
    for k in 0..rows.len() {
        left = claimed_by(alloc, left, rows.at(k))?;
    }
    Ok(left)
}

fn claimed_by(alloc: Global, bounds: Option<Bounds>, r: &Row) -> Result<Option<Bounds>, NoMemory>
    ensures { IfOk result (λ b. b ≡ claimed_row bounds r.now) }
{
    match bounds {
        Some(bounds) => claimed_row(alloc, bounds, r),
        None => Ok(None),
    }
}

/// The box cut by a row with at most one variable. A row with more, which no box says exactly, leaves a box that implies it
/// as it is, and of any other nothing.
fn claimed_row(alloc: Global, bounds: Bounds, r: &Row) -> Result<Option<Bounds>, NoMemory>
    ensures { IfOk result (λ b. b ≡ claimed_row (Some bounds) r.now) }
{
    match r.terms() {
        0 => cut_row(alloc, bounds, r),
        1 => cut_row(alloc, bounds, r),
        _ => Ok(if is_implied(&bounds, r) {
            Some(bounds)
        } else {
            None
        }),
    }
}

/// Whether each state of the box meets the row.
fn is_implied(bounds: &Bounds, r: &Row) -> bool
    ensures { result ≡ is_implied bounds.now r.now }
{
    match end_of_form(Side::Least, bounds.intervals(), r, Some(0)) {
        Some(least) => least.is_at_least_zero(),
        None => false,
    }
}
