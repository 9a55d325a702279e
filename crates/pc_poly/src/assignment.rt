//! Rows after an assignment.

ghost use Rattle.std.specs.Prelude.{◌≡◌, ◌<◌, ◌∷◌, [], pos, IfOk, OnOk, IfSome};
ghost use Rattle.pc_rows.specs.declared.row.TheConstants.{VARIABLES};
ghost use Rattle.pc_rows.specs.Linear.{IsRow, coefficient, difference_of, scaled_by};
ghost use Rattle.pc_poly.specs.Assigning.{IsOnce, AddsAfter, MetAfter, factor, needed, replaced};

use crate::adding::{add, add_fitting};
use crate::elimination::eliminated;
use crate::numbers::{coefficient, constant, with};
use pc_domain::NoMemory;
use pc_rows::{Number, Past, Row, Rows};
use std::alloc::Global;

/// The assignment `x = form + [lo, hi]`; an end that is None is open.
#[derive(Drop)]
pub struct Assignment {
    pub x: u32,
    pub form: Row,
    pub lo: Option<Number>,
    pub hi: Option<Number>,
}

/// The rows after an assignment. Where the form has the variable once, the rows say of its old value what the new one
/// tells of it. Else the variable is eliminated, and the new value lies between the ends of its form if the form is
/// without it.
pub(crate) fn assigned(alloc: Global, rows: &Rows, a: &Assignment) -> Result<Rows, NoMemory>
    requires { a.now.x < VARIABLES }
    ensures { IfOk result (λ out. AddsAfter a.now rows.now [] out) }
{
    match a.form.coefficient(a.x) {
        0 => bounded(alloc, rows, a),
        1 => replaced_all(alloc, rows, a),
        -1 => replaced_all(alloc, rows, a),
        _ => eliminated(alloc, rows, a.x),
    }
}

/// The rows from which the variable is eliminated, and the closed ends of its new value. The form is without it.
pub(crate) fn bounded(alloc: Global, rows: &Rows, a: &Assignment) -> Result<Rows, NoMemory>
    requires variable { a.now.x < VARIABLES }
    requires without { coefficient a.now.form a.now.x ≡ pos 0 }
    ensures { IfOk result (λ out. AddsAfter a.now rows.now [] out) }
{
    let mut out = eliminated(alloc, rows, a.x)?;
    add_low(alloc, &mut out, a)?;
    add_high(alloc, &mut out, a)?;
    Ok(out)
}

/// Adds the row `x - form - lo`, if the low end is closed.
fn add_low(alloc: Global, out: &mut Rows, a: &Assignment) -> Result<(), NoMemory>
    requires variable { a.now.x < VARIABLES }
    requires without { coefficient a.now.form a.now.x ≡ pos 0 }
    ensures { OnOk result (AddsAfter a.now [] out.old out.new) }
{
    match a.lo {
        Some(lo) => add_fitting(
            out,
            constant(alloc, lo.negated()).with(a.x, 1).minus(&a.form),
        ),
        None => Ok(()),
    }
}

/// Adds the row `-x + form + hi`, if the high end is closed.
fn add_high(alloc: Global, out: &mut Rows, a: &Assignment) -> Result<(), NoMemory>
    requires variable { a.now.x < VARIABLES }
    requires without { coefficient a.now.form a.now.x ≡ pos 0 }
    ensures { OnOk result (AddsAfter a.now [] out.old out.new) }
{
    match a.hi {
        Some(hi) => add_fitting(out, constant(alloc, hi).with(a.x, -1).sum(&a.form)),
        None => Ok(()),
    }
}

/// The rows in which the old value of the variable is replaced by what the new one tells of it.
fn replaced_all(alloc: Global, rows: &Rows, a: &Assignment) -> Result<Rows, NoMemory>
    requires variable { a.now.x < VARIABLES }
    requires once { IsOnce a.now }
    ensures { IfOk result (λ out. AddsAfter a.now rows.now [] out) }
{
    let mut out = Rows::new(alloc);
    for i in 0..rows.len() {
        add_replaced(alloc, &mut out, rows.at(i), a)?;
    }
    Ok(out)
}

fn add_replaced(alloc: Global, out: &mut Rows, r: &Row, a: &Assignment) -> Result<(), NoMemory>
    requires variable { a.now.x < VARIABLES }
    requires once { IsOnce a.now }
    ensures { OnOk result (AddsAfter a.now (r.now ∷ []) out.old out.new) }
{
    match replaced(alloc, r, a) {
        Some(new) => add(out, new),
        None => Ok(()),
    }
}

/// The row for the states after the assignment. None where the end that it needs is open, or a number of it is out of
/// range.
fn replaced(alloc: Global, r: &Row, a: &Assignment) -> Option<Row>
    requires variable { a.now.x < VARIABLES }
    requires once { IsOnce a.now }
    ensures { IfSome result (λ new. MetAfter a.now r.now new) }
{
    let k = factor(r, a);
    if k.is_zero() {
        return Some(r.copy());
    }
    match needed(a, k) {
        Some(end) => moved(alloc, r, a, k, end).ok(),
        None => None,
    }
}

/// How often the row has the new variable: as often as the old one, and with the other sign where the form has it so.
fn factor(r: &Row, a: &Assignment) -> Number
    requires { a.now.x < VARIABLES }
    ensures value { result ≡ factor a.now r.now }
    ensures row { IsRow r.now }
    ensures form { IsRow a.now.form }
{
    let c = coefficient(r, a.x);
    if coefficient(&a.form, a.x).is_below(Number::new(0)) {
        c.negated()
    } else {
        c
    }
}

/// The end of the choice at which its share in the row is greatest.
fn needed(a: &Assignment, k: Number) -> Option<Number>
    ensures { result ≡ needed a.now k }
{
    if Number::new(0).is_below(k) {
        a.lo
    } else {
        a.hi
    }
}

/// The row with the new variable `k` times, less `k` times the rest of the form and the end of the choice.
fn moved(alloc: Global, r: &Row, a: &Assignment, k: Number, end: Number) -> Result<Row, Past>
    requires { a.now.x < VARIABLES }
    ensures { IfOk result (λ new. new ≡ replaced a.now r.now k end) }
{
    let rest = with(&a.form, a.x, Number::new(0));
    let moved = less(&with(r, a.x, k), k, &rest)?;
    less(&moved, k, &constant(alloc, end))
}

/// The row less `k` times another one.
fn less(r: &Row, k: Number, other: &Row) -> Result<Row, Past>
    ensures { IfOk result (λ new. new ≡ difference_of r.now (scaled_by k other.now)) }
{
    r.minus(&other.times(k)?)
}
