//! Numbers of at most 127 bits beside their sign, so that each has its opposite.

ghost use Rattle.std.specs.Prelude.{◌≡◌, ℤ, pos, ◌+ℤ◌, ◌-ℤ◌, ◌*ℤ◌, neg_ℤ, OkIff, int_le, int_lt, SomeIff};
ghost use Rattle.pc_rows.specs.Linear.{InRange, is_zero};
ghost use Rattle.pc_rows.specs.Substitution.{lesser};

use std::marker::Model;

/// A result that is not in range: its absolute value is over 2^127 - 1.
#[derive(Clone, Copy, Debug, PartialEq, Eq)]
pub struct Past;

/// An integer from -(2^127 - 1) to 2^127 - 1.
#[derive(Clone, Copy, Debug, PartialEq, Eq)]
pub struct Number {
    n: i128,
}

impl Model for Number {
    ghost use Rattle.std.specs.Prelude.{ℤ};
    ghost use Rattle.pc_rows.specs.Linear.{InRange};

    ghost Value = { ℤ };

    ghost view = { λ a. a.n };

    ghost invariant = { λ a. InRange a.n };

    ghost inverse = { λ z. record { n = z } };
}

impl Default for Number {
    ghost is_default = { λ z. z ≡ pos 0 };

    /// The number 0.
    fn default() -> Number {
        Number { n: 0 }
    }
}

impl Number {
    /// The number `n`, which is any but `i128::MIN`.
    pub fn new(n: i128) -> Number
        requires { InRange n }
        ensures { result ≡ n }
    {
        Number { n }
    }

    /// The number `n`. None exactly where it is not in range, at `i128::MIN`.
    pub fn checked(n: i128) -> Option<Number>
        ensures { SomeIff result (InRange n) n }
    {
        match n {
            i128::MIN => None,
            _ => Some(Number { n }),
        }
    }

    /// The number as a machine integer.
    pub fn get(self) -> i128
        ensures value { result ≡ self }
        ensures range { InRange self }
    {
        self.n
    }

    /// The sum. `Past` exactly where it is not in range.
    pub fn plus(self, other: Number) -> Result<Number, Past>
        ensures { OkIff result (InRange (self +ℤ other)) (self +ℤ other) }
    {
        match self.n.checked_add(other.n) {
            Some(n) if n != i128::MIN => Ok(Number { n }),
            _ => Err(Past),
        }
    }

    /// The difference. `Past` exactly where it is not in range.
    pub fn minus(self, other: Number) -> Result<Number, Past>
        ensures { OkIff result (InRange (self -ℤ other)) (self -ℤ other) }
    {
        match self.n.checked_sub(other.n) {
            Some(n) if n != i128::MIN => Ok(Number { n }),
            _ => Err(Past),
        }
    }

    /// The number `self - other - 1`, which is at least 0 exactly where `self` is above `other`.
    /// The difference alone may be out of range where this number is not.
    pub fn above(self, other: Number) -> Result<Number, Past>
        ensures { OkIff result (InRange (self -ℤ other -ℤ pos 1)) (self -ℤ other -ℤ pos 1) }
    {
        match (self.n - 1).checked_sub(other.n) {
            Some(n) if n != i128::MIN => Ok(Number { n }),
            _ => Err(Past),
        }
    }

    /// The product. `Past` exactly where it is not in range.
    pub fn times(self, other: Number) -> Result<Number, Past>
        ensures { OkIff result (InRange (self *ℤ other)) (self *ℤ other) }
    {
        match self.n.checked_mul(other.n) {
            Some(n) if n != i128::MIN => Ok(Number { n }),
            _ => Err(Past),
        }
    }

    /// The number plus the product `a * b`. `Past` exactly where the product or the sum is not in
    /// range.
    pub fn plus_product(self, a: Number, b: Number) -> Result<Number, Past>
        ensures { OkIff result (InRange (a *ℤ b) × InRange (self +ℤ a *ℤ b)) (self +ℤ a *ℤ b) }
    {
        self.plus(a.times(b)?)
    }

    /// The opposite, which is in range since the range is symmetric.
    pub fn negated(self) -> Number
        ensures value { result ≡ neg_ℤ self }
        ensures range { InRange result }
    {
        Number { n: -self.n }
    }

    /// The lesser of the two.
    pub fn min(self, other: Number) -> Number
        ensures { result ≡ lesser self other }
    {
        if other.n < self.n { other } else { self }
    }

    /// Whether it is 0.
    pub fn is_zero(self) -> bool
        ensures { result ≡ is_zero self }
    {
        self.n == 0
    }

    /// Whether it is 0 or more.
    pub fn is_at_least_zero(self) -> bool
        ensures { result ≡ int_le (pos 0) self }
    {
        0 <= self.n
    }

    /// Whether it is less than `other`.
    pub fn is_below(self, other: Number) -> bool
        ensures { result ≡ int_lt self other }
    {
        self.n < other.n
    }

    /// Whether it is `other` or less.
    pub fn is_at_most(self, other: Number) -> bool
        ensures { result ≡ int_le self other }
    {
        self.n <= other.n
    }
}
