//! Rational points.

ghost use Rattle.std.specs.Prelude.{◌≡◌, ◌<◌, ℤ, pos, ◌≤ℤ◌, int_le, replicate, slice_index_or, OkIff, SomeIff};
ghost use Rattle.pc_rows.specs.Linear.{InRange, AllInRange};
ghost use Rattle.pc_rows.specs.Evidence.{IsPoint};
ghost use Rattle.pc_rows.specs.Points.{numerator, NumeratorFits, over_multiple, with_numerator};

use crate::number::{Number, Past};
use crate::numbers::products;
use crate::row::{Row, VARIABLES};
use std::marker::Model;

/// A numerator for each variable, in order, and one denominator of at least 1, all in range.
#[derive(Drop)]
pub struct Point {
    numerators: [Number; VARIABLES],
    denominator: Number,
}

impl Model for Point {
    ghost use Rattle.pc_rows.specs.Evidence.{Point as Place, IsPoint};

    ghost Value = { Place };

    ghost view = { λ p. record { numerators = p.numerators; denominator = p.denominator } };

    ghost invariant = { λ p. IsPoint (record { numerators = p.numerators; denominator = p.denominator }) };
}

impl Point {
    /// The point at which all variables are 0.
    pub fn origin() -> Point
        ensures { result ≡ record { numerators = replicate VARIABLES (pos 0); denominator = pos 1 } }
    {
        Point {
            numerators: [Number::new(0); VARIABLES],
            denominator: Number::new(1),
        }
    }

    /// The numerator of variable `v`, in range.
    pub fn numerator(&self, v: u32) -> i128
        requires { v < VARIABLES }
        ensures value { result ≡ slice_index_or self.now.numerators v (pos 0) }
        ensures range { InRange result }
    {
        self.numerators[v as usize].get()
    }

    /// The denominator, in range and at least 1.
    pub fn denominator(&self) -> i128
        ensures value { result ≡ self.now.denominator }
        ensures point { IsPoint self.now }
    {
        self.denominator.get()
    }

    /// The same point over `k` times its denominator. `Past` exactly where one of its numbers is
    /// then not in range.
    pub fn over_multiple(&self, k: Number) -> Result<Point, Past>
        requires { pos 1 ≤ℤ k }
        ensures { OkIff result (AllInRange (over_multiple k self.now).numerators × InRange (over_multiple k self.now).denominator) (over_multiple k self.now) }
    {
        let numerators = products(k, &self.numerators)?;
        let denominator = k.times(self.denominator)?;
        Ok(Point {
            numerators,
            denominator,
        })
    }

    /// The point with `n` as its numerator at `v`.
    pub fn with(&self, v: u32, n: Number) -> Point
        requires { v < VARIABLES }
        ensures { result ≡ with_numerator self.now v n }
    {
        let mut numerators = self.numerators;
        numerators[v as usize] = n;
        let _in_range = n.get();
        Point {
            numerators,
            denominator: self.denominator,
        }
    }

    /// The value of the row at this point, times the denominator. `Past` exactly where one of the
    /// products, the constant first and then the variables in order, or of their sums from the left
    /// is not in range.
    pub fn value(&self, r: &Row) -> Result<Number, Past>
        ensures { OkIff result (NumeratorFits r.now self.now) (numerator r.now self.now) }
    {
        r.value_over(&self.numerators, self.denominator)
    }
}

/// Whether the row's value at the point is at least 0. None exactly where one of the products, the
/// constant first and then the variables in order, or of their sums from the left is not in range.
pub fn sign_at(r: &Row, p: &Point) -> Option<bool>
    ensures { SomeIff result (NumeratorFits r.now p.now) (int_le (pos 0) (numerator r.now p.now)) }
{
    match p.value(r) {
        Ok(value) => Some(value.is_at_least_zero()),
        Err(Past) => None,
    }
}
