//! Normal forms: the rows that expressions are worth.

ghost use Rattle.std.specs.Prelude.{◌≡◌, true, ◌<◌};
ghost use Rattle.pc_rows.specs.Linear.{InRange, fits, sum_of, difference_of, scaled_by};
ghost use Rattle.pc_program.specs.Forms.{is_fit, form_of, product};

use crate::tree::Expr;
use pc_rows::Row;
use pc_text::Place;
use std::alloc::Global;

/// Why an expression has no normal form.
#[derive(Clone, Copy, Debug, PartialEq, Eq)]
pub enum AffineFault {
    /// A `*` both of whose sides have a normal form with a variable.
    NotAffine(Place),
    /// An operator whose normal form is not in range.
    Past(Place),
}

/// The normal form of an expression whose numbers are in range and whose names are below the
/// number of variables: the row that is worth what the expression is worth at every state. The
/// fault is that of the first part that has no form, or none in range, left before right and inner
/// before outer. It needs no memory.
pub fn affine(alloc: Global, e: &Expr) -> Result<Row, AffineFault>
    requires { is_fit e.now ≡ true }
    ensures { result ≡ form_of e.now }
{
    match e {
        Expr::Num(n) => Ok(Row::of_constant(alloc, *n)),
        Expr::Name(v) => Ok(Row::of_constant(alloc, 0).with(*v, 1)),
        Expr::Neg(a, place) => {
            let x = affine(alloc, a.get())?;
            multiple(-1, &x, *place)
        }
        Expr::Add(a, b, place) => {
            let x = affine(alloc, a.get())?;
            let y = affine(alloc, b.get())?;
            sum(&x, &y, *place)
        }
        Expr::Sub(a, b, place) => {
            let x = affine(alloc, a.get())?;
            let y = affine(alloc, b.get())?;
            difference(&x, &y, *place)
        }
        Expr::Mul(a, b, place) => {
            let x = affine(alloc, a.get())?;
            let y = affine(alloc, b.get())?;
            product(&x, &y, *place)
        }
    }
}

/// The sum of two forms, of the operator at `place`.
pub fn sum(a: &Row, b: &Row, place: Place) -> Result<Row, AffineFault>
    ensures { result ≡ fits (AffineFault.Past place) (sum_of a.now b.now) }
{
    match a.sum(b) {
        Ok(r) => Ok(r),
        Err(_) => Err(AffineFault::Past(place)),
    }
}

/// The difference of two forms, of the operator at `place`.
pub fn difference(a: &Row, b: &Row, place: Place) -> Result<Row, AffineFault>
    ensures { result ≡ fits (AffineFault.Past place) (difference_of a.now b.now) }
{
    match a.minus(b) {
        Ok(r) => Ok(r),
        Err(_) => Err(AffineFault::Past(place)),
    }
}

/// A form times a number, of the operator at `place`.
pub fn multiple(k: i128, r: &Row, place: Place) -> Result<Row, AffineFault>
    requires { InRange k }
    ensures { result ≡ fits (AffineFault.Past place) (scaled_by k r.now) }
{
    match r.scaled(k) {
        Ok(r) => Ok(r),
        Err(_) => Err(AffineFault::Past(place)),
    }
}

/// A product of two forms, of which one has to be a number.
pub fn product(a: &Row, b: &Row, place: Place) -> Result<Row, AffineFault>
    ensures { result ≡ product place a.now b.now }
{
    if a.is_number() {
        multiple(a.constant(), b, place)
    } else if b.is_number() {
        multiple(b.constant(), a, place)
    } else {
        Err(AffineFault::NotAffine(place))
    }
}
