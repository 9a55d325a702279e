//! The numbers of rows, as numbers that are known to be in range.

ghost use Rattle.std.specs.Prelude.{◌≡◌, ◌<◌, pos, int_lt};
ghost use Rattle.pc_rows.specs.declared.row.TheConstants.{VARIABLES};
ghost use Rattle.pc_rows.specs.Linear.{IsRow, coefficient, of_constant, with_coefficient, is_zero};

use pc_rows::{Number, Row};
use std::alloc::Global;

/// The coefficient at a variable.
pub(crate) fn coefficient(r: &Row, x: u32) -> Number
    requires { x < VARIABLES }
    ensures value { result ≡ coefficient r.now x }
    ensures row { IsRow r.now }
{
    Number::new(r.coefficient(x))
}

/// Whether the row is without the variable.
pub(crate) fn is_without(r: &Row, x: u32) -> bool
    requires { x < VARIABLES }
    ensures { result ≡ is_zero (coefficient r.now x) }
{
    coefficient(r, x).is_zero()
}

/// Whether the coefficient is positive.
pub(crate) fn is_positive(r: &Row, x: u32) -> bool
    requires { x < VARIABLES }
    ensures { result ≡ int_lt (pos 0) (coefficient r.now x) }
{
    Number::new(0).is_below(coefficient(r, x))
}

/// Whether the coefficient is negative.
pub(crate) fn is_negative(r: &Row, x: u32) -> bool
    requires { x < VARIABLES }
    ensures { result ≡ int_lt (coefficient r.now x) (pos 0) }
{
    coefficient(r, x).is_below(Number::new(0))
}

/// The row without variables.
pub(crate) fn constant(alloc: Global, n: Number) -> Row
    ensures { result ≡ of_constant n }
{
    Row::of_constant(alloc, n.get())
}

/// The row with another coefficient at a variable.
pub(crate) fn with(r: &Row, x: u32, n: Number) -> Row
    requires { x < VARIABLES }
    ensures { result ≡ with_coefficient r.now x n }
{
    r.with(x, n.get())
}
