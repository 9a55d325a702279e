//! The longest lexeme at the front of a text.

ghost use Rattle.std.specs.Prelude.{◌≡◌, ◌≤◌, ◌<◌, length, IfSome};
ghost use Rattle.std.specs.Bool.{OnTrue};
ghost use Rattle.pc_text.specs.Lexemes as spec;
ghost use Rattle.pc_text.specs.Longest.{longest, run, begins_with};
ghost use Rattle.pc_text.specs.ByteSets.{contains};

/// What a byte can do: each byte is of one class.
#[derive(Clone, Copy)]
pub enum Class {
    /// A separator.
    Blank,
    /// `/`, which begins a comment where another follows.
    Slash,
    /// A letter or `_`.
    Letter,
    Digit,
    /// A sign by itself.
    Alone,
    /// A sign by itself, and with `=` behind it.
    MayEqual,
    /// `!`, a sign with `=` behind it.
    Bang,
    /// `&`, a sign with another behind it.
    Ampersand,
    /// A byte that stands in comments alone.
    Other,
}

/// What stands at one place of a text.
#[derive(Clone, Copy)]
pub enum Form {
    Blank,
    Comment,
    /// A name or a keyword.
    Word,
    Number,
    Sign,
}

/// A set of bytes.
#[derive(Clone, Copy)]
pub enum ByteSet {
    /// All but the line feed: what a line holds, and a comment behind its two slashes.
    Line,
    /// Letters, digits and `_`: what a word holds behind its first byte.
    Word,
    /// Digits.
    Number,
}

#[tactic(auto, unfolding(crate::specs::Lexemes::class))]
fn class_of(byte: u8) -> Class
    ensures { result ≡ spec.class byte }
{
    match byte {
        b' ' | b'\t' | b'\r' | b'\n' => Class::Blank,
        b'/' => Class::Slash,
        b'a'..=b'z' | b'A'..=b'Z' | b'_' => Class::Letter,
        b'0'..=b'9' => Class::Digit,
        b'(' | b')' | b'{' | b'}' | b'[' | b']' | b',' | b';' | b'+' | b'-' | b'*' => Class::Alone,
        b'=' | b'<' | b'>' => Class::MayEqual,
        b'!' => Class::Bang,
        b'&' => Class::Ampersand,
        _ => Class::Other,
    }
}

fn contains(set: ByteSet, byte: u8) -> bool
    ensures { result ≡ contains set byte }
{
    match set {
        ByteSet::Line => byte != b'\n',
        ByteSet::Word => matches!(class_of(byte), Class::Letter | Class::Digit),
        ByteSet::Number => matches!(class_of(byte), Class::Digit),
    }
}

/// How many bytes from the front on are in the set.
pub fn run(set: ByteSet, src: &[u8]) -> usize
    ensures value { result ≡ run (contains set) src.now }
    ensures within { result ≤ length src.now }
{
    for (i, byte) in src.iter().enumerate() {
        if !contains(set, *byte) {
            return i;
        }
    }
    src.len()
}

/// The form and the length of the longest lexeme at the front, nothing where none stands there.
pub fn longest(src: &[u8]) -> Option<(Form, usize)>
    ensures value { result ≡ longest src.now }
    ensures within { IfSome result (λ x. (0 < x.1) × (x.1 ≤ length src.now)) }
{
    match src {
        [] => None,
        [byte, rest @ ..] => match class_of(*byte) {
            Class::Blank => Some((Form::Blank, 1)),
            Class::Slash => match rest {
                [next, text @ ..] if is_slash(*next) => Some((
                    Form::Comment,
                    2 + run(ByteSet::Line, text),
                )),
                _ => None,
            },
            Class::Letter => Some((Form::Word, 1 + run(ByteSet::Word, rest))),
            Class::Digit => Some((Form::Number, 1 + run(ByteSet::Number, rest))),
            Class::Alone => Some((Form::Sign, 1)),
            Class::MayEqual => {
                if begins_with(rest, b'=') {
                    Some((Form::Sign, 2))
                } else {
                    Some((Form::Sign, 1))
                }
            }
            Class::Bang => {
                if begins_with(rest, b'=') {
                    Some((Form::Sign, 2))
                } else {
                    None
                }
            }
            Class::Ampersand => {
                if begins_with(rest, b'&') {
                    Some((Form::Sign, 2))
                } else {
                    None
                }
            }
            Class::Other => None,
        },
    }
}

fn is_slash(byte: u8) -> bool
    ensures { result ≡ spec.is_slash (spec.class byte) }
{
    matches!(class_of(byte), Class::Slash)
}

fn begins_with(src: &[u8], byte: u8) -> bool
    ensures value { result ≡ begins_with src.now byte }
    ensures some { OnTrue result (0 < length src.now) }
{
    match src {
        [] => false,
        [first, ..] => *first == byte,
    }
}
