//! Rows.

ghost use Rattle.std.specs.Prelude.{◌≡◌, ◌≢◌, ◌<◌, ◌≤◌, ◌*ℤ◌, ◌+ℤ◌, OkIff, IsTrue, Some, pos, length, slice_get};
ghost use Rattle.pc_rows.specs.Points.{SumsFit};
ghost use Rattle.pc_rows.specs.Linear.{InRange, dot, IsInRange, IsRow, coefficient, of_constant, with_coefficient, sum_of, difference_of, scaled_by, above_of, first_of, is_number, negation};
ghost use Rattle.pc_rows.specs.Readers.{terms_of};
ghost use Rattle.pc_rows.specs.Joins.{is_always, is_at_most};
ghost use Rattle.pc_rows.specs.Substitution.{never_row};

use crate::number::{Number, Past};
use crate::terms::{
    Term, Terms, are_same, copied, differences, first, lookup, no_terms, opposites, products, put,
    sum_of_products, sums,
};
use std::alloc::Global;
use std::marker::Model;

mod substitution;

pub use substitution::substitute;

/// The number of variables of a row.
pub const VARIABLES: usize = 32;

const _: () = prove!(VARIABLES == 32);

/// A constant and a coefficient for each variable, all in range. Variables are counted from 0 on.
/// It keeps the coefficients other than 0 alone, inline, so that no call on a row needs memory and
/// each takes the time of the terms that there are.
#[derive(Drop)]
pub struct Row {
    constant: Number,
    terms: Terms,
}

impl Model for Row {
    ghost use Rattle.pc_rows.specs.Linear.{Linear};
    ghost use Rattle.pc_rows.specs.Terms.{dense, IsKept};

    ghost Value = { Linear };

    ghost view = { λ r. record { constant = r.constant; coefficients = dense r.terms.items } };

    ghost invariant = { λ r. IsKept r.constant r.terms };
}

impl Row {
    /// The row `c`, without variables. It needs no memory.
    pub fn of_constant(alloc: Global, c: i128) -> Row
        requires { InRange c }
        ensures { result ≡ of_constant c }
    {
        Row {
            constant: Number::new(c),
            terms: no_terms(alloc),
        }
    }

    /// The row -1, which no state meets.
    fn never(&self) -> Row
        ensures { result ≡ never_row }
    {
        Row::of_constant(self.alloc(), -1)
    }

    /// The allocator that the terms never ask.
    fn alloc(&self) -> Global {
        *self.terms.allocator()
    }

    /// The row with `c` as its coefficient at `v`.
    pub fn with(&self, v: u32, c: i128) -> Row
        requires variable { v < VARIABLES }
        requires range { InRange c }
        ensures { result ≡ with_coefficient self.now v c }
    {
        Row {
            constant: self.constant,
            terms: put(self.alloc(), self.terms.as_slice(), v, Number::new(c)),
        }
    }

    /// The constant, in range.
    pub fn constant(&self) -> i128
        ensures value { result ≡ self.now.constant }
        ensures range { InRange result }
        ensures row { IsRow self.now }
    {
        self.constant.get()
    }

    /// The coefficient at variable `v`, in range.
    pub fn coefficient(&self, v: u32) -> i128
        requires { v < VARIABLES }
        ensures value { result ≡ coefficient self.now v }
        ensures range { InRange result }
        ensures row { IsRow self.now }
    {
        self.number_at(v).get()
    }

    /// How many coefficients are other than 0.
    pub fn terms(&self) -> usize
        ensures value { result ≡ length (terms_of self.now) }
        ensures most { result ≤ VARIABLES }
    {
        self.terms.len()
    }

    /// The `k`-th variable, counted from 0, that has a coefficient other than 0, and this
    /// coefficient, in range.
    pub fn term(&self, k: usize) -> (u32, i128)
        requires { k < length (terms_of self.now) }
        ensures term { slice_get (terms_of self.now) k ≡ Some result }
        ensures variable { result.0 < VARIABLES }
        ensures range { InRange result.1 }
        ensures not_zero { result.1 ≢ pos 0 }
    {
        let t = self.term_at(k);
        (t.variable, t.coefficient.get())
    }

    /// The coefficient at variable `v`, as a number.
    pub(crate) fn number_at(&self, v: u32) -> Number
        requires { v < VARIABLES }
        ensures value { result ≡ coefficient self.now v }
        ensures row { IsRow self.now }
    {
        lookup(self.terms.as_slice(), v)
    }

    /// The `k`-th term.
    fn term_at(&self, k: usize) -> Term
        requires { k < length (terms_of self.now) }
        ensures term { slice_get (terms_of self.now) k ≡ Some (result.variable, result.coefficient) }
        ensures variable { result.variable < VARIABLES }
        ensures not_zero { result.coefficient ≢ pos 0 }
    {
        self.terms.as_slice()[k]
    }

    /// The same row. It needs no memory.
    pub fn copy(&self) -> Row
        ensures value { result ≡ self.now }
        ensures row { IsRow self.now }
    {
        Row {
            constant: self.constant,
            terms: copied(&self.terms),
        }
    }

    /// The sum. `Past` exactly where one of its numbers is not in range.
    pub fn sum(&self, other: &Row) -> Result<Row, Past>
        ensures { OkIff result (IsInRange (sum_of self.now other.now)) (sum_of self.now other.now) }
    {
        let constant = self.constant.plus(other.constant)?;
        let terms = sums(self.alloc(), self.terms.as_slice(), other.terms.as_slice())?;
        Ok(Row { constant, terms })
    }

    /// The difference. `Past` exactly where one of its numbers is not in range.
    pub fn minus(&self, other: &Row) -> Result<Row, Past>
        ensures { OkIff result (IsInRange (difference_of self.now other.now)) (difference_of self.now other.now) }
    {
        let constant = self.constant.plus(other.constant.negated())?;
        let terms = differences(self.alloc(), self.terms.as_slice(), other.terms.as_slice())?;
        Ok(Row { constant, terms })
    }

    /// `k` times the row, whatever `k` is. `Past` exactly where one of its numbers is not in range.
    pub fn scaled(&self, k: i128) -> Result<Row, Past>
        ensures { OkIff result (IsInRange (scaled_by k self.now)) (scaled_by k self.now) }
    {
        match Number::checked(k) {
            Some(k) => self.times(k),
            None => self.if_all_zero(),
        }
    }

    /// The row where all its numbers are 0: no other has a multiple by a number that is not in range.
    fn if_all_zero(&self) -> Result<Row, Past>
        ensures { OkIff result (IsTrue (is_number self.now) × (self.now.constant ≡ pos 0)) self.now }
    {
        if self.is_number() && self.constant.is_zero() {
            Ok(self.copy())
        } else {
            Err(Past)
        }
    }

    /// `scaled` by a number that is known to be in range.
    pub fn times(&self, k: Number) -> Result<Row, Past>
        ensures { OkIff result (IsInRange (scaled_by k self.now)) (scaled_by k self.now) }
    {
        let constant = k.times(self.constant)?;
        let terms = products(self.alloc(), k, self.terms.as_slice())?;
        Ok(Row { constant, terms })
    }

    /// The row `-r - 1`, which is met exactly where the row `r` is not. `Past` exactly where one
    /// of its numbers is not in range.
    pub fn negated(&self) -> Result<Row, Past>
        ensures { OkIff result (IsInRange (negation self.now)) (negation self.now) }
    {
        let constant = self.constant.negated().minus(Number::new(1))?;
        let terms = opposites(self.alloc(), self.terms.as_slice())?;
        Ok(Row { constant, terms })
    }

    /// The row `self - other - 1`, which is met exactly where `self` is above `other`. `Past`
    /// exactly where one of its numbers is not in range; the difference alone may be out of range
    /// where this row is not.
    pub fn above(&self, other: &Row) -> Result<Row, Past>
        ensures { OkIff result (IsInRange (above_of self.now other.now)) (above_of self.now other.now) }
    {
        let constant = self.constant.above(other.constant)?;
        let terms = differences(self.alloc(), self.terms.as_slice(), other.terms.as_slice())?;
        Ok(Row { constant, terms })
    }

    /// The row with 0 as its coefficient at every variable from number `count` on: what is left of
    /// the row where those variables are 0.
    pub fn first(&self, count: u32) -> Row
        ensures { result ≡ first_of count self.now }
    {
        Row {
            constant: self.constant,
            terms: first(self.alloc(), self.terms.as_slice(), count),
        }
    }

    /// Whether the row has no variable: each coefficient is 0.
    pub fn is_number(&self) -> bool
        ensures { result ≡ is_number self.now }
    {
        self.terms.is_empty()
    }

    /// The constant times `denominator`, plus the sum of the coefficients times the numerators.
    /// `Past` exactly where a product or a sum from the left is not in range.
    pub(crate) fn value_over(
        &self,
        numerators: &[Number; VARIABLES],
        denominator: Number,
    ) -> Result<Number, Past>
        ensures { OkIff result (InRange (self.now.constant *ℤ denominator) × SumsFit (self.now.constant *ℤ denominator) self.now.coefficients numerators.now) (self.now.constant *ℤ denominator +ℤ dot self.now.coefficients numerators.now) }
    {
        let start = self.constant.times(denominator)?;
        sum_of_products(start, self.terms.as_slice(), numerators)
    }

    /// Whether every state meets the row by its form: it has no variable, and a constant of at
    /// least 0.
    pub fn is_always(&self) -> bool
        ensures { result ≡ is_always self.now }
    {
        self.is_number() && self.constant.is_at_least_zero()
    }

    /// Whether the row has the coefficients of `other`, and a constant that is not greater.
    pub fn is_at_most(&self, other: &Row) -> bool
        ensures { result ≡ is_at_most self.now other.now }
    {
        are_same(self.terms.as_slice(), other.terms.as_slice())
            && self.constant.is_at_most(other.constant)
    }
}
