//! Words that are numerals, and what they say.

ghost use Rattle.std.specs.Prelude.{◌≡◌};
ghost use Rattle.std.specs.List.{list_all};
ghost use Rattle.pc_text.specs.Lexemes.{in_number};
ghost use Rattle.pc_text.specs.Words as spec;

use crate::number::read_number;

/// What a word says as a numeral.
#[derive(Clone, Copy, Debug)]
pub enum Word {
    /// It is no canonical numeral.
    Other,
    /// It is one whose number is more than [`LARGEST`](crate::LARGEST) from 0.
    Past,
    /// It is one with this number.
    Number(i128),
}

impl Word {
    /// What a word says. A numeral is `0`, or an optional `-`, a digit from 1 to 9 and further digits.
    pub fn of(word: &[u8]) -> Word
        ensures value { result ≡ spec.word_of word.now }
        ensures in_range { spec.IsFit result }
    {
        match read_number(word, 0) {
            Some((number, end)) if end == word.len() => Word::Number(number),
            Some(_) => Word::Other,
            None if is_numeral(word) => Word::Past,
            None => Word::Other,
        }
    }
}

/// The number of a numeral without a sign, or the greatest of the type where that is less; nothing
/// where the word is none.
pub fn count_of(word: &[u8]) -> Option<u32>
    ensures { result ≡ spec.count_of word.now }
{
    if let [b'-', ..] = word {
        return None;
    }
    match Word::of(word) {
        Word::Other => None,
        Word::Past => Some(u32::MAX),
        Word::Number(number) => Some(number.min(u32::MAX as i128) as u32),
    }
}

/// Whether a word is a canonical numeral.
pub fn is_numeral(word: &[u8]) -> bool
    ensures { result ≡ spec.is_numeral word.now }
{
    match word {
        [b'-', digits @ ..] => is_positive(digits),
        _ => is_count(word),
    }
}

/// Whether a word is a canonical numeral without a sign.
pub fn is_count(word: &[u8]) -> bool
    ensures { result ≡ spec.is_count word.now }
{
    match word {
        [b'0', rest @ ..] => rest.is_empty(),
        _ => is_positive(word),
    }
}

fn is_positive(word: &[u8]) -> bool
    ensures { result ≡ spec.is_positive word.now }
{
    match word {
        [] => false,
        [first, rest @ ..] => b'1' <= *first && *first <= b'9' && are_digits(rest),
    }
}

fn are_digits(bytes: &[u8]) -> bool
    ensures { result ≡ list_all in_number bytes.now }
{
    bytes.iter().all(|byte| is_digit(*byte))
}

#[tactic(auto, unfolding(crate::specs::Lexemes::class))]
fn is_digit(byte: u8) -> bool
    ensures { result ≡ in_number byte }
{
    matches!(byte, b'0'..=b'9')
}
