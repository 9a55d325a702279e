//! Numbers of at most 62 bits beside their sign. No product of two is tested, since it is in range.

ghost use Rattle.std.specs.Prelude.{◌≡◌, ◌^◌, ◌*ℤ◌, IfSome};
ghost use Rattle.pc_rows.specs.Bounds.{IsWithin};

use pc_rows::Number;
use std::marker::Model;

/// The greatest absolute value.
const MOST: i128 = 4611686018427387904;

/// A number of which the absolute value is at most `MOST`.
#[derive(Clone, Copy)]
pub struct Word {
    n: i64,
}

impl Model for Word {
    ghost use Rattle.std.specs.Prelude.{ℤ, ◌^◌};
    ghost use Rattle.pc_rows.specs.Bounds.{IsWithin};

    ghost Value = { ℤ };

    ghost view = { λ w. w.n };

    ghost invariant = { λ w. IsWithin (2 ^ 62) w.n };

    ghost inverse = { λ z. record { n = z } };
}

impl Word {
    /// The same number, where it is small enough.
    pub fn of(n: Number) -> Option<Word>
        ensures { IfSome result (λ w. w ≡ n) }
    {
        let wide = n.get();
        if wide < -MOST || MOST < wide {
            return None;
        }
        Some(Word { n: wide as i64 })
    }

    /// The product.
    pub fn times(self, other: Word) -> i128
        ensures value { result ≡ self *ℤ other }
        ensures small { IsWithin (2 ^ 124) result }
    {
        self.n as i128 * other.n as i128
    }
}
