//! Differences of two products.

ghost use Rattle.std.specs.Prelude.{◌≡◌, ◌*ℤ◌, ◌-ℤ◌, OkIff};
ghost use Rattle.pc_rows.specs.Linear.{InRange};

use crate::word::Word;
use pc_rows::{Number, Past};

/// The difference of two products. Most numbers are words, and then nothing is to be tested.
pub fn difference(a: Number, x: Number, b: Number, y: Number) -> Result<Number, Past>
    ensures { OkIff result (InRange (a *ℤ x) × InRange (b *ℤ y) × InRange (a *ℤ x -ℤ b *ℤ y)) (a *ℤ x -ℤ b *ℤ y) }
{
    match (Word::of(a), Word::of(x), Word::of(b), Word::of(y)) {
        (Some(a), Some(x), Some(b), Some(y)) => Ok(word_difference(a, x, b, y)),
        _ => wide_difference(a, x, b, y),
    }
}

fn word_difference(a: Word, x: Word, b: Word, y: Word) -> Number
    ensures value { result ≡ a *ℤ x -ℤ b *ℤ y }
    ensures range { InRange (a *ℤ x) × InRange (b *ℤ y) × InRange (a *ℤ x -ℤ b *ℤ y) }
{
    Number::new(a.times(x) - b.times(y))
}

fn wide_difference(a: Number, x: Number, b: Number, y: Number) -> Result<Number, Past>
    ensures { OkIff result (InRange (a *ℤ x) × InRange (b *ℤ y) × InRange (a *ℤ x -ℤ b *ℤ y)) (a *ℤ x -ℤ b *ℤ y) }
{
    a.times(x)?.minus(b.times(y)?)
}
