//! The lines of a text, one after another.

ghost use Rattle.std.specs.Prelude.{◌≡◌, ◌<◌, ◌+◌, ◌-◌, ◌^◌, [], length, MatchOption, IfSome};
ghost use Rattle.pc_text.specs.Lines.{IsLine};

use crate::lexeme::{ByteSet, run};
use std::marker::Model;

/// The lines of a text that were not read yet: contracts see the bytes that are left and the number
/// of the next line, counted from 1.
#[derive(Drop)]
pub struct Lines<'a> {
    rest: &'a [u8],
    number: u32,
}

impl<'a> Model for Lines<'a> {
    ghost use Rattle.std.specs.Prelude.{◌<◌, ◌+◌, ◌^◌, length};
    ghost use Rattle.pc_text.specs.Lines.{Left};

    ghost Value = { Left };

    ghost view = { λ l. record { rest = l.rest.now; number = l.number } };

    ghost invariant = { λ l. l.number + length l.rest.now < 2 ^ 32 };
}

impl<'a> Lines<'a> {
    /// The lines of a text, from line 1 on.
    pub fn new(src: &'a [u8]) -> Lines<'a>
        requires { length src.now < 2 ^ 32 - 1 }
        ensures { result ≡ record { rest = src.now; number = 1 } }
    {
        Lines {
            rest: src,
            number: 1,
        }
    }

    /// The next line: its number, its bytes without the line feed, and whether a line feed ended it.
    /// It is `None` exactly where no byte is left.
    pub fn next(&mut self) -> Option<(u32, &'a [u8], bool)>
        ensures none { MatchOption result ((self.old.rest ≡ []) × (self.new ≡ self.old)) (λ _. 0 < length self.old.rest) }
        ensures number { IfSome result (λ x. (x.0 ≡ self.old.number) × (self.new.number ≡ self.old.number + 1)) }
        ensures line { IfSome result (λ x. IsLine self.old.rest x.1.now x.2 self.new.rest) }
    {
        let text = self.rest;
        if text.is_empty() {
            return None;
        }
        let number = self.number;
        let (line, ended, rest) = first_line(text);
        self.rest = rest;
        self.number = number + 1;
        Some((number, line, ended))
    }
}

/// The first line, whether a line feed ended it, and what follows.
fn first_line(text: &[u8]) -> (&[u8], bool, &[u8])
    ensures line { IsLine text.now result.0.now result.1 result.2.now }
    ensures shorter { 0 < length text.now → length result.2.now < length text.now }
{
    let length = run(ByteSet::Line, text);
    if length < text.len() {
        (&text[..length], true, &text[length + 1..])
    } else {
        (text, false, &text[length..])
    }
}
