//! Numbers as texts of digits.

ghost use Rattle.std.specs.Prelude.{◌≡◌, ◌≤◌, ◌<◌, ◌+◌, ◌++◌, ℤ, length, drop, IfSome, MatchOption, Some, unsigned_abs};
ghost use Rattle.pc_text.specs.Bytes.{Bytes};
ghost use Rattle.pc_text.specs.Digits.{natural_of};
ghost use Rattle.pc_text.specs.Numerals as spec;

use crate::lexeme::{ByteSet, run};
use crate::token::LARGEST;

/// The number that digits stand for, nothing where it is over [`LARGEST`].
pub fn natural_of(digits: &[u8]) -> Option<u128>
    ensures { MatchOption result (LARGEST < natural_of digits.now) (λ n. (n ≡ natural_of digits.now) × (n ≤ LARGEST)) }
{
    let mut number: u128 = 0;
    for byte in digits {
        let digit = u128::from(byte.saturating_sub(b'0'));
        if number > (LARGEST - digit) / 10 {
            return None;
        }
        number = 10 * number + digit;
    }
    Some(number)
}

/// The number at `at`, and the offset behind it: that of the longest canonical numeral that begins
/// there, which is `0`, or an optional `-`, a digit from 1 to 9 and further digits.
///
/// It is `None` where no canonical numeral begins there, and where the number is more than
/// [`LARGEST`] from 0.
pub fn read_number(src: &[u8], at: usize) -> Option<(i128, usize)>
    requires { at ≤ length src.now }
    ensures reads { spec.Reads src.now at result }
    ensures back { (n : ℤ) (rest : Bytes) → drop at src.now ≡ spec.numeral n ++ rest → spec.NoDigitNext rest → spec.IsInRange n
        → result ≡ Some (n, at + length (spec.numeral n)) }
    ensures computed { result ≡ spec.read_at src.now at }
    ensures within { IfSome result (λ x. (at < x.1) × (x.1 ≤ length src.now)) }
{
    read_at(src, at)
}

fn read_at(src: &[u8], at: usize) -> Option<(i128, usize)>
    requires { at ≤ length src.now }
    ensures computed { result ≡ spec.read_at src.now at }
    ensures within { IfSome result (λ x. (at < x.1) × (x.1 ≤ length src.now)) }
{
    let rest = &src[at..];
    let length = numeral_len(rest);
    if length == 0 {
        return None;
    }
    let number = integer_of(&rest[..length])?;
    Some((number, at + length))
}

/// The number of a numeral, nothing where it is more than [`LARGEST`] from 0.
fn integer_of(numeral: &[u8]) -> Option<i128>
    ensures { MatchOption result (LARGEST < unsigned_abs (spec.integer_of numeral.now))
        (λ n. (n ≡ spec.integer_of numeral.now) × spec.IsInRange n) }
{
    match numeral {
        [b'-', digits @ ..] => {
            let number = natural_of(digits)?;
            Some(-(number as i128))
        }
        digits => {
            let number = natural_of(digits)?;
            Some(number as i128)
        }
    }
}

/// How long the longest numeral at the front is, 0 where none is there.
fn numeral_len(src: &[u8]) -> usize
    ensures value { result ≡ spec.numeral_len src.now }
    ensures within { result ≤ length src.now }
{
    match src {
        [] => 0,
        [b'0', ..] => 1,
        [b'-', rest @ ..] => {
            let length = positive_len(rest);
            if length == 0 { 0 } else { length + 1 }
        }
        _ => positive_len(src),
    }
}

fn positive_len(src: &[u8]) -> usize
    ensures value { result ≡ spec.positive_len src.now }
    ensures within { result ≤ length src.now }
{
    match src {
        [b'1'..=b'9', rest @ ..] => 1 + run(ByteSet::Number, rest),
        _ => 0,
    }
}
