//! The least and the greatest value of a form in a box.

ghost use Rattle.std.specs.Prelude.{◌≡◌, ◌+ℤ◌};
ghost use Rattle.pc_rows.specs.Linear.{InRange};
ghost use Rattle.pc_rows.specs.Substitution.{IsEnd};
ghost use Rattle.pc_box.specs.Forms.{kept, kept_product, needed, plus_bound, plus_term, plus_choice, end_of_form};

use crate::interval::Interval;
use crate::intervals::{Intervals, interval_at};
use pc_rows::{Number, Row};

/// A side of an interval.
#[derive(Clone, Copy, Debug, PartialEq, Eq)]
pub enum Side {
    Least,
    Greatest,
}

/// The end on one side of what a form and a choice give in a box. It is absent where a number that it needs is, or where a
/// product or a sum from the left is not in range: the constant first, then the variables in order, then the choice's end.
pub(crate) fn end_of_form(
    side: Side,
    intervals: &Intervals,
    form: &Row,
    choice: Option<i128>,
) -> Option<Number>
    requires { IsEnd choice }
    ensures { result ≡ end_of_form side intervals.now form.now choice }
{
    let mut sum = Some(Number::new(form.constant()));
    for k in 0..form.terms() {
        let (v, c) = form.term(k);
        sum = plus_term(side, intervals, sum, v, c);
    }
    plus_choice(sum, choice)
}

/// The sum so far with the end of a term.
fn plus_term(
    side: Side,
    intervals: &Intervals,
    sum: Option<Number>,
    v: u32,
    c: i128,
) -> Option<Number>
    requires { InRange c }
    ensures { result ≡ plus_term side intervals.now sum (v, c) }
{
    match (sum, needed(side, c, interval_at(intervals, v as usize))) {
        (Some(sum), Some(n)) => kept_product(sum, Number::new(c), n),
        _ => None,
    }
}

/// The end of x's interval that decides how far `c * x` goes to one side.
fn needed(side: Side, c: i128, interval: Interval) -> Option<Number>
    ensures { result ≡ needed side c interval }
{
    match side {
        Side::Least => if 0 < c {
            interval.least
        } else {
            interval.greatest
        },
        Side::Greatest => if 0 < c {
            interval.greatest
        } else {
            interval.least
        },
    }
}

/// The sum with a product, where both are in range.
#[tactic(auto, using(crate::proofs::Keeping::kept_in, crate::proofs::Keeping::kept_out, crate::proofs::Keeping::product_in, crate::proofs::Keeping::product_out))]
fn kept_product(sum: Number, c: Number, n: Number) -> Option<Number>
    ensures { result ≡ kept_product sum c n }
{
    sum.plus_product(c, n).ok()
}

/// The sum with a choice's end.
pub(crate) fn plus_choice(sum: Option<Number>, choice: Option<i128>) -> Option<Number>
    requires { IsEnd choice }
    ensures { result ≡ plus_choice sum choice }
{
    match (sum, choice) {
        (Some(sum), Some(n)) => kept_sum(sum, Number::new(n)),
        _ => None,
    }
}

/// The sum, where it is in range.
#[tactic(auto, using(crate::proofs::Keeping::kept_in, crate::proofs::Keeping::kept_out))]
fn kept_sum(a: Number, b: Number) -> Option<Number>
    ensures { result ≡ kept (a +ℤ b) }
{
    a.plus(b).ok()
}
