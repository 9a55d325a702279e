//! Rows from which a variable is eliminated by pairs.

ghost use Rattle.std.specs.Prelude.{◌≡◌, ◌<◌, ◌∷◌, [], true, pos, int_lt, IfOk, OnOk};
ghost use Rattle.pc_rows.specs.declared.row.TheConstants.{VARIABLES};
ghost use Rattle.pc_rows.specs.Linear.{coefficient};
ghost use Rattle.pc_poly.specs.Rows.{Adds, Eliminates, weighed};

use crate::adding::{add, add_fitting};
use crate::numbers::{coefficient, is_negative, is_positive, is_without};
use pc_domain::NoMemory;
use pc_rows::{Past, Row, Rows};
use std::alloc::Global;

/// The rows without `x`, and then each row in which its coefficient is positive with each in which it is negative, in
/// the multiples at which the variable goes. Who meets the rows meets these, whatever value `x` has then.
pub(crate) fn eliminated(alloc: Global, rows: &Rows, x: u32) -> Result<Rows, NoMemory>
    requires { x < VARIABLES }
    ensures { IfOk result (λ out. Eliminates x rows.now out) }
{
    let mut out = rows_without(alloc, rows, x)?;
    for i in 0..rows.len() {
        add_pairs(&mut out, rows, rows.at(i), x)?;
    }
    Ok(out)
}

/// The rows without `x`.
fn rows_without(alloc: Global, rows: &Rows, x: u32) -> Result<Rows, NoMemory>
    requires { x < VARIABLES }
    ensures { IfOk result (λ out. Eliminates x rows.now out) }
{
    let mut out = Rows::new(alloc);
    for i in 0..rows.len() {
        add_without(&mut out, rows.at(i), x)?;
    }
    Ok(out)
}

/// Adds the row, if it is without `x`.
fn add_without(out: &mut Rows, r: &Row, x: u32) -> Result<(), NoMemory>
    requires { x < VARIABLES }
    ensures { OnOk result (Adds x (r.now ∷ []) out.old out.new) }
{
    if !is_without(r, x) {
        return Ok(());
    }
    add(out, r.copy())
}

/// Adds the row with each row in which the coefficient of `x` is negative, if its own is positive.
fn add_pairs(out: &mut Rows, rows: &Rows, p: &Row, x: u32) -> Result<(), NoMemory>
    requires { x < VARIABLES }
    ensures { OnOk result (Adds x (p.now ∷ rows.now) out.old out.new) }
{
    if !is_positive(p, x) {
        return Ok(());
    }
    for i in 0..rows.len() {
        add_pair(out, p, rows.at(i), x)?;
    }
    Ok(())
}

/// Adds the pair of a row in which the coefficient of `x` is positive and a row in which it is negative. Any other row
/// has no pair with it.
fn add_pair(out: &mut Rows, p: &Row, n: &Row, x: u32) -> Result<(), NoMemory>
    requires variable { x < VARIABLES }
    requires positive { int_lt (pos 0) (coefficient p.now x) ≡ true }
    ensures { OnOk result (Adds x (p.now ∷ n.now ∷ []) out.old out.new) }
{
    if !is_negative(n, x) {
        return Ok(());
    }
    add_fitting(out, weighed(p, n, x))
}

/// The first row times the opposite of the coefficient of `x` in the second, plus the second row times its coefficient in
/// the first.
fn weighed(p: &Row, n: &Row, x: u32) -> Result<Row, Past>
    requires { x < VARIABLES }
    ensures { IfOk result (λ r. r ≡ weighed x p.now n.now) }
{
    let first = p.times(coefficient(n, x).negated())?;
    let second = n.times(coefficient(p, x))?;
    first.sum(&second)
}
