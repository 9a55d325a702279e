//! Assignments backwards.

ghost use Rattle.std.specs.Prelude.{◌≡◌, ◌<◌, Some, length, IfOk};
ghost use Rattle.pc_language.specs.Ends.{end_of};
ghost use Rattle.pc_rows.specs.Readers.{terms_of};
ghost use Rattle.pc_rows.specs.Substitution.{IsEnd};
ghost use Rattle.pc_rows.specs.declared.row.TheConstants.{VARIABLES};
ghost use Rattle.pc_flow.specs.Arc.{BoundsFit};
ghost use Rattle.pc_box.specs.Forms.{kept};
ghost use Rattle.pc_box.specs.Backward.{distance, gap, signed, cut_form, asked, before_set};

use crate::bounds::Bounds;
use crate::cutting::cut_at;
use crate::form::{Side, plus_choice};
use crate::interval::Interval;
use pc_domain::NoMemory;
use pc_language::{Bound, end_of};
use pc_rows::{Number, Row};
use std::alloc::Global;

/// The box before the variable `x` becomes the form's value plus an integer of the choice: what is wanted of `x` is asked of
/// these, and `x` is free.
pub(crate) fn before_set(
    alloc: Global,
    bounds: &Bounds,
    x: u32,
    form: &Row,
    lo: Bound,
    hi: Bound,
) -> Result<Option<Bounds>, NoMemory>
    requires variable { x < VARIABLES }
    requires choice { BoundsFit lo hi }
    ensures { IfOk result (λ b. b ≡ before_set bounds.now x form.now (end_of lo) (end_of hi)) }
{
    let wanted = bounds.at(x);
    let freed = bounds.with(alloc, x, &Interval::free())?;
    let left = asked(
        alloc,
        Side::Least,
        Some(freed),
        form,
        end_of(lo),
        wanted.least,
    )?;
    asked(
        alloc,
        Side::Greatest,
        left,
        form,
        end_of(hi),
        wanted.greatest,
    )
}

/// The box in which the form, with the choice at its end on that side, keeps to the number that is wanted, if one is.
fn asked(
    alloc: Global,
    side: Side,
    bounds: Option<Bounds>,
    form: &Row,
    choice: Option<i128>,
    wanted: Option<Number>,
) -> Result<Option<Bounds>, NoMemory>
    requires { IsEnd choice }
    ensures { IfOk result (λ b. b ≡ asked side bounds form.now choice wanted) }
{
    match wanted {
        Some(n) => {
            let sum = plus_choice(Some(Number::new(form.constant())), choice);
            cut_form(alloc, side, bounds, gap(side, sum, n), form)
        }
        None => Ok(bounds),
    }
}

fn gap(side: Side, sum: Option<Number>, n: Number) -> Option<Number>
    ensures { result ≡ gap side sum n }
{
    match sum {
        Some(sum) => distance(side, sum, n),
        None => None,
    }
}

/// How far `c` is above a least number, or below a greatest one.
#[tactic(auto, using(crate::proofs::Keeping::kept_in, crate::proofs::Keeping::kept_out))]
fn distance(side: Side, c: Number, n: Number) -> Option<Number>
    ensures { result ≡ kept (distance side c n) }
{
    match side {
        Side::Least => c.minus(n).ok(),
        Side::Greatest => n.minus(c).ok(),
    }
}

/// The box cut by a form with at most one variable and another constant. A form with more variables gives nothing, and so
/// does a constant that is absent.
fn cut_form(
    alloc: Global,
    side: Side,
    bounds: Option<Bounds>,
    c: Option<Number>,
    form: &Row,
) -> Result<Option<Bounds>, NoMemory>
    ensures { IfOk result (λ b. b ≡ cut_form side bounds c (terms_of form.now)) }
{
    match (bounds, c) {
        (Some(bounds), Some(c)) => cut_by_form(alloc, side, bounds, c, form),
        _ => Ok(None),
    }
}

fn cut_by_form(
    alloc: Global,
    side: Side,
    bounds: Bounds,
    c: Number,
    form: &Row,
) -> Result<Option<Bounds>, NoMemory>
    ensures { IfOk result (λ b. b ≡ cut_form side (Some bounds) (Some c) (terms_of form.now)) }
{
    match form.terms() {
        0 => Ok(if c.get() < 0 { None } else { Some(bounds) }),
        1 => cut_by_variable(alloc, side, &bounds, c, form),
        _ => Ok(None),
    }
}

fn cut_by_variable(
    alloc: Global,
    side: Side,
    bounds: &Bounds,
    c: Number,
    form: &Row,
) -> Result<Option<Bounds>, NoMemory>
    requires { length (terms_of form.now) ≡ 1 }
    ensures { IfOk result (λ b. b ≡ cut_form side (Some bounds.now) (Some c) (terms_of form.now)) }
{
    let (x, a) = form.term(0);
    let a = signed(side, Number::new(a));
    cut_at(alloc, bounds, x, a.get(), c.get())
}

/// A coefficient, as it counts on that side.
fn signed(side: Side, a: Number) -> Number
    ensures { result ≡ signed side a }
{
    match side {
        Side::Least => a,
        Side::Greatest => a.negated(),
    }
}
