//! How many loops a word tells.

ghost use Rattle.std.specs.Prelude.{◌≡◌, ℕ, pos, MatchOption};
ghost use Rattle.pc_text.specs.Numerals.{numeral};
ghost use Rattle.pc_gen.specs.Made.{IsLoops};

use pc_gen::in_range;
use pc_text::count_of;

/// The number of loops of a made source that a word is the numeral of.
pub(crate) fn loops_of(word: &str) -> Option<u32>
    ensures { MatchOption result ((n : ℕ) → IsLoops n → word.now ≡ numeral (pos n) → ⊥) (λ n. IsLoops n × (word.now ≡ numeral (pos n))) }
{
    match count_of(word.as_bytes()) {
        Some(loops) if in_range(loops) => Some(loops),
        _ => None,
    }
}
