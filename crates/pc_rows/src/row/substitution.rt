//! Rows carried back over an assignment.

ghost use Rattle.std.specs.Prelude.{◌≡◌, ℤ, pos, ◌+ℤ◌, ◌*ℤ◌, ◌<◌, OkIff, slice_set};
ghost use Rattle.pc_rows.specs.Linear.{coefficient, add_lists, scale_list};
ghost use Rattle.pc_rows.specs.Terms.{AreTerms, Rises, TermsIff, dense};
ghost use Rattle.pc_rows.specs.Substitution.{substituted, SubstituteFits, carried, CarryFits, ConstantFits, CoefficientsFit, IsEnd, AreOrdered, needs_open_end, least_product, ProductFits};

use crate::number::{Number, Past};
use crate::row::{Row, VARIABLES};
use crate::terms::{Term, Terms, plus_multiple, put};

/// The row that a state meets exactly where every state after `x = form + [lo, hi]` meets `r`; None is an open end. A
/// row without `x` is itself. With `c` for the coefficient at `x`, the needed end is `lo` where `c` is above 0 and `hi`
/// where it is below: where that is open the answer is the row -1, and no product is formed. Else it is the row without
/// its `x`, plus `c * form`, plus the least of the products of `c` with the closed ends. `Past` exactly where one of
/// these products, or of the sums in this order, is not in range.
pub fn substitute(
    r: &Row,
    x: u32,
    form: &Row,
    lo: Option<i128>,
    hi: Option<i128>,
) -> Result<Row, Past>
    requires variable { x < VARIABLES }
    requires low { IsEnd lo }
    requires high { IsEnd hi }
    requires ordered { AreOrdered lo hi }
    ensures { OkIff result (SubstituteFits r.now x form.now lo hi) (substituted r.now x form.now lo hi) }
{
    let c = r.number_at(x);
    if c.is_zero() {
        return Ok(r.copy());
    }
    if needs_open_end(c, lo, hi) {
        return Ok(r.never());
    }
    carried(r, x, form, lo, hi)
}

/// Whether the end is open that decides how low `c` times the choice goes.
fn needs_open_end(c: Number, lo: Option<i128>, hi: Option<i128>) -> bool
    ensures { result ≡ needs_open_end c lo hi }
{
    let zero = Number::new(0);
    lo.is_none() && zero.is_below(c) || hi.is_none() && c.is_below(zero)
}

fn carried(r: &Row, x: u32, form: &Row, lo: Option<i128>, hi: Option<i128>) -> Result<Row, Past>
    requires variable { x < VARIABLES }
    requires low { IsEnd lo }
    requires high { IsEnd hi }
    ensures { OkIff result (CarryFits r.now x form.now lo hi) (carried r.now x form.now lo hi) }
{
    let c = r.number_at(x);
    let constant = carried_constant(c, r.constant, form.constant, lo, hi)?;
    let terms = carried_terms(c, &r.terms, x, form.terms.as_slice())?;
    Ok(Row { constant, terms })
}

fn carried_constant(
    c: Number,
    constant: Number,
    of_form: Number,
    lo: Option<i128>,
    hi: Option<i128>,
) -> Result<Number, Past>
    requires low { IsEnd lo }
    requires high { IsEnd hi }
    ensures { OkIff result (ConstantFits c constant of_form lo hi) (constant +ℤ c *ℤ of_form +ℤ least_product c lo hi) }
{
    let sum = constant.plus_product(c, of_form)?;
    sum.plus(least_product(c, lo, hi)?)
}

/// The least of the products of `c` with the closed ends. `Past` exactly where one of them is not in range.
fn least_product(c: Number, lo: Option<i128>, hi: Option<i128>) -> Result<Number, Past>
    requires low { IsEnd lo }
    requires high { IsEnd hi }
    ensures { OkIff result (ProductFits c lo × ProductFits c hi) (least_product c lo hi) }
{
    match (lo, hi) {
        (Some(lo), Some(hi)) => {
            let low = c.times(Number::new(lo))?;
            Ok(low.min(c.times(Number::new(hi))?))
        }
        (Some(lo), None) => c.times(Number::new(lo)),
        (None, Some(hi)) => c.times(Number::new(hi)),
        (None, None) => Ok(Number::new(0)),
    }
}

fn carried_terms(c: Number, of_row: &Terms, x: u32, of_form: &[Term]) -> Result<Terms, Past>
    requires row { AreTerms of_row.now }
    requires variable { x < VARIABLES }
    requires form { Rises 0 of_form.now }
    ensures { TermsIff result (CoefficientsFit c (dense of_row.now.items) x (dense of_form.now)) (add_lists (scale_list c (dense of_form.now)) (slice_set (dense of_row.now.items) x (pos 0))) }
{
    let alloc = *of_row.allocator();
    let rest = put(alloc, of_row.as_slice(), x, Number::new(0));
    plus_multiple(alloc, rest.as_slice(), c, of_form)
}
