//! Division by the denominator of a table, which mostly leaves no rest.

ghost use Rattle.std.specs.Prelude.{◌≡◌, ◌≤ℤ◌, ◌*ℤ◌, int_div, int_rem, pos, true, OkIff, IfSome};
ghost use Rattle.pc_rows.specs.Linear.{InRange};

use crate::word::Word;
use pc_rows::{Number, Past};
use std::marker::Model;

/// A number of at least 1 by which others are divided. A division of wide numbers is slow, so that
/// a quotient is guessed, and the guess multiplied out: without its trailing zeros the divisor is
/// odd and has an inverse modulo 2^128, and times this inverse each multiple of it is the quotient.
#[derive(Drop)]
pub struct Divisor {
    number: Number,
    zeros: u32,
    inverse: i128,
}

impl Model for Divisor {
    ghost use Rattle.std.specs.Prelude.{ℤ, pos, ◌≤ℤ◌};

    ghost Value = { ℤ };

    ghost view = { λ d. d.number };

    ghost invariant = { λ d. pos 1 ≤ℤ d.number };
}

impl Divisor {
    /// The divisor of at least 1.
    pub fn new(number: Number) -> Divisor
        requires { pos 1 ≤ℤ number }
        ensures { result ≡ number }
    {
        let zeros = number.get().trailing_zeros();
        Divisor {
            number,
            zeros,
            inverse: inverse(number.get().wrapping_shr(zeros)),
        }
    }

    /// The number.
    pub fn get(&self) -> Number
        ensures { result ≡ self.now }
    {
        self.number
    }

    /// The quotient. `Past` exactly where it is not whole or not in range.
    pub fn divide(&self, n: Number) -> Result<Number, Past>
        ensures { OkIff result ((int_rem n self.now ≡ pos 0) × InRange (int_div n self.now)) (int_div n self.now) }
    {
        match self.multiple(n) {
            Some(quotient) => Ok(quotient),
            None => divided(n, self.number),
        }
    }

    /// What the number is a multiple by, where that is found.
    fn multiple(&self, n: Number) -> Option<Number>
        ensures { IfSome result (λ q. (q *ℤ self.now ≡ n) × InRange q) }
    {
        // most denominators are 1
        if self.number == Number::new(1) {
            return Some(n);
        }
        match self.word_multiple(n) {
            Some(quotient) => Some(quotient),
            None => self.wide_multiple(n),
        }
    }

    /// The same, where the quotient and the divisor are words. Half of the inverse is then enough.
    fn word_multiple(&self, n: Number) -> Option<Number>
        ensures { IfSome result (λ q. (q *ℤ self.now ≡ n) × InRange q) }
    {
        let guess = low_word(n.get().wrapping_shr(self.zeros)).wrapping_mul(low_word(self.inverse));
        let quotient = Number::new(guess.cast_signed() as i128);
        match (Word::of(quotient), Word::of(self.number)) {
            (Some(q), Some(d)) if q.times(d) == n.get() => Some(quotient),
            _ => None,
        }
    }

    fn wide_multiple(&self, n: Number) -> Option<Number>
        ensures { IfSome result (λ q. (q *ℤ self.now ≡ n) × InRange q) }
    {
        let guess = n.get().wrapping_shr(self.zeros).wrapping_mul(self.inverse);
        match Number::checked(guess) {
            Some(quotient) if is_product(quotient, self.number, n) => Some(quotient),
            _ => None,
        }
    }
}

/// The low half of the number's bits.
fn low_word(n: i128) -> u64 {
    (n.cast_unsigned() & 18446744073709551615) as u64
}

/// Whether the product is in range and is this number.
fn is_product(a: Number, b: Number, n: Number) -> bool
    ensures { result ≡ true → a *ℤ b ≡ n }
{
    match a.times(b) {
        Ok(product) => product == n,
        Err(Past) => false,
    }
}

/// The quotient. `Past` exactly where it is not whole or not in range.
fn divided(n: Number, d: Number) -> Result<Number, Past>
    requires { pos 1 ≤ℤ d }
    ensures { OkIff result ((int_rem n d ≡ pos 0) × InRange (int_div n d)) (int_div n d) }
{
    if n.get() % d.get() != 0 {
        return Err(Past);
    }
    Ok(Number::new(n.get() / d.get()))
}

/// The inverse of an odd number modulo 2^128. The number is its own inverse modulo 8, and each turn
/// makes twice as many bits right.
fn inverse(odd: i128) -> i128 {
    if odd == 1 {
        return 1;
    }
    let mut inverse = odd;
    for _ in 0..6u32 {
        inverse = inverse.wrapping_mul(2i128.wrapping_sub(odd.wrapping_mul(inverse)));
    }
    inverse
}
