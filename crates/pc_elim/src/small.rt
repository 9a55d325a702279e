//! Rows whose numbers are so small that no combination of two of them leaves the range.

ghost use Rattle.std.specs.Prelude.{◌≡◌};
ghost use Rattle.std.specs.List.{list_all};
ghost use Rattle.pc_elim.specs.Small.{is_small, is_small_row, is_small_made};

use crate::made::{Made, PARTS};
use pc_rows::{Number, Row, VARIABLES};

/// The greatest absolute value of a small number. Twice its square is in range.
pub const SMALL: i128 = 4611686018427387904;

/// Whether all numbers and multipliers of the rows are small.
pub fn are_small(rows: &[Made]) -> bool
    ensures { result ≡ list_all is_small_made rows.now }
{
    rows.iter().all(|r| is_small_made(r))
}

fn is_small_made(r: &Made) -> bool
    ensures { result ≡ is_small_made r.now }
{
    is_small_row(r.row()) && all_small(r.multipliers())
}

fn all_small(numbers: &[Number; PARTS]) -> bool
    ensures { result ≡ list_all is_small numbers.now }
{
    numbers.iter().all(|m| is_small(*m))
}

fn is_small_row(r: &Row) -> bool
    ensures { result ≡ is_small_row r.now }
{
    for v in 0..VARIABLES as u32 {
        if !is_small(Number::new(r.coefficient(v))) {
            return false;
        }
    }
    is_small(Number::new(r.constant()))
}

fn is_small(z: Number) -> bool
    ensures { result ≡ is_small z }
{
    z.is_at_most(Number::new(SMALL)) && Number::new(-SMALL).is_at_most(z)
}
