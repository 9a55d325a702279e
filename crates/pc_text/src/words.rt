//! The words of a line, one after another.

ghost use Rattle.std.specs.Prelude.{◌≡◌, ◌∷◌, [], MatchOption};
ghost use Rattle.std.specs.List.{position};
ghost use Rattle.pc_text.specs.Words as spec;

use std::marker::Model;

/// The words of a line that were not read yet: each space parts two of them, so that a word may be
/// empty.
#[derive(Drop)]
pub struct Words<'a> {
    rest: Option<&'a [u8]>,
}

impl<'a> Model for Words<'a> {
    ghost use Rattle.pc_text.specs.Words as spec;

    ghost Value = { spec.Words };

    ghost view = { λ w. spec.words_left w.rest };
}

impl<'a> Words<'a> {
    /// The words of a line.
    pub fn new(line: &'a [u8]) -> Words<'a>
        ensures { result ≡ spec.words line.now }
    {
        Words { rest: Some(line) }
    }

    /// The words behind the name of a line, which is its first word; nothing where it has another.
    pub fn behind(line: &'a [u8], name: &[u8]) -> Option<Words<'a>>
        ensures { result ≡ spec.behind name.now (spec.words line.now) }
    {
        let mut words = Words::new(line);
        let word = words.next()?;
        if word == name { Some(words) } else { None }
    }

    /// The same words once more.
    pub fn copy(&self) -> Words<'a>
        ensures { result ≡ self.now }
    {
        Words { rest: self.rest }
    }

    /// The next word, if there is one.
    pub fn next(&mut self) -> Option<&'a [u8]>
        ensures { MatchOption result ((self.old ≡ []) × (self.new ≡ [])) (λ word. self.old ≡ word.now ∷ self.new) }
    {
        let text = self.rest?;
        let (word, rest) = first_word(text);
        self.rest = rest;
        Some(word)
    }

    /// Whether no word is left.
    pub fn is_empty(&self) -> bool
        ensures { result ≡ spec.is_empty self.now }
    {
        self.rest.is_none()
    }
}

/// The first word, and what follows the space behind it, if there is one.
fn first_word(text: &[u8]) -> (&[u8], Option<&[u8]>)
    ensures { spec.words text.now ≡ result.0.now ∷ spec.words_left result.1 }
{
    match space_at(text) {
        Some(at) => (&text[..at], Some(&text[at + 1..])),
        None => (text, None),
    }
}

fn space_at(text: &[u8]) -> Option<usize>
    ensures { result ≡ position spec.is_space text.now }
{
    text.iter().position(|byte| *byte == b' ')
}
