//! The negation of a row, which is told without making it.

ghost use Rattle.std.specs.Prelude.{◌≡◌, OkIff};
ghost use Rattle.pc_rows.specs.Linear.{IsInRange, negation};
ghost use Rattle.pc_rows.specs.Points.{numerator, NumeratorFits};

use pc_rows::{Number, Past, Point, Row};

/// The constant of the negation. `Past` exactly where a number of the negation is not in range.
pub fn negated_constant(r: &Row) -> Result<Number, Past>
    ensures { OkIff result (IsInRange (negation r.now)) (negation r.now).constant }
{
    Number::new(r.constant()).negated().minus(Number::new(1))
}

/// The value of the negation, which has this constant, at the point, times the denominator. `Past`
/// exactly where one of the products, the constant first and then the variables in order, or of
/// their sums from the left is not in range.
pub fn negated_value(r: &Row, constant: Number, p: &Point) -> Result<Number, Past>
    requires { constant ≡ (negation r.now).constant }
    ensures { OkIff result (NumeratorFits (negation r.now) p.now) (numerator (negation r.now) p.now) }
{
    let _row = r.constant();
    let mut sum = constant.times(Number::new(p.denominator()))?;
    for k in 0..r.terms() {
        let (v, c) = r.term(k);
        sum = sum.plus_product(Number::new(c).negated(), Number::new(p.numerator(v)))?;
    }
    Ok(sum)
}
