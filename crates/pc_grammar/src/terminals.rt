//! From tokens to symbols.

ghost use Rattle.std.specs.Prelude.{◌≡◌, ◌<◌, ◌≤◌, ◌-◌, ◌^◌, length, IfOk};
ghost use Rattle.pc_text.specs.Lexemes.{AreSpans};
ghost use Rattle.pc_text.specs.Places.{place_of};
ghost use Rattle.pc_grammar.specs.Symbols as spec;

use crate::symbol::Symbol;
use pc_language::Terminal;
use pc_text::{Kind, NoMemory, Place, Token, place_from};
use sqlite_items::Items;
use std::alloc::Global;

/// The terminal of a keyword's text.
#[tactic(auto, unfolding(crate::specs::Symbols::keyword_of))]
fn keyword_of(text: &[u8]) -> Terminal
    ensures { result ≡ spec.keyword_of text.now }
{
    if text == b"entry".as_slice() {
        Terminal::Entry
    } else if text == b"var".as_slice() {
        Terminal::Var
    } else if text == b"if".as_slice() {
        Terminal::If
    } else if text == b"else".as_slice() {
        Terminal::Else
    } else if text == b"while".as_slice() {
        Terminal::While
    } else if text == b"try".as_slice() {
        Terminal::Try
    } else if text == b"assert".as_slice() {
        Terminal::Assert
    } else {
        Terminal::Assume
    }
}

/// The terminal of a sign of one byte.
#[tactic(auto, unfolding(crate::specs::Symbols::byte_sign))]
fn byte_sign(byte: u8) -> Terminal
    ensures { result ≡ spec.byte_sign byte }
{
    match byte {
        b'(' => Terminal::OpenParen,
        b')' => Terminal::CloseParen,
        b'{' => Terminal::OpenBrace,
        b'}' => Terminal::CloseBrace,
        b'[' => Terminal::OpenBracket,
        b']' => Terminal::CloseBracket,
        b',' => Terminal::Comma,
        b';' => Terminal::Semicolon,
        b'=' => Terminal::Assign,
        b'<' => Terminal::Less,
        b'>' => Terminal::Greater,
        b'+' => Terminal::Plus,
        b'-' => Terminal::Minus,
        _ => Terminal::Star,
    }
}

/// The terminal of a sign of two bytes.
#[tactic(auto, unfolding(crate::specs::Symbols::pair_sign))]
fn pair_sign(text: &[u8]) -> Terminal
    ensures { result ≡ spec.pair_sign text.now }
{
    if text == b"==".as_slice() {
        Terminal::Equal
    } else if text == b"!=".as_slice() {
        Terminal::Unequal
    } else if text == b"<=".as_slice() {
        Terminal::AtMost
    } else if text == b">=".as_slice() {
        Terminal::AtLeast
    } else {
        Terminal::And
    }
}

/// The terminal of a sign.
fn sign_of(text: &[u8]) -> Terminal
    ensures { result ≡ spec.sign_of text.now }
{
    match text {
        [byte] => byte_sign(*byte),
        _ => pair_sign(text),
    }
}

/// The terminal of a token with this text.
fn terminal_of(kind: Kind, text: &[u8]) -> Terminal
    ensures { result ≡ spec.terminal_of kind text.now }
{
    match kind {
        Kind::Keyword => keyword_of(text),
        Kind::Name => Terminal::Name,
        Kind::Number(_) => Terminal::Number,
        Kind::Sign => sign_of(text),
    }
}

/// The value of a number, and 0 of every other token.
fn value_of(kind: Kind) -> i128
    ensures { result ≡ spec.value_of kind }
{
    match kind {
        Kind::Number(number) => number,
        _ => 0,
    }
}

/// The symbol of a token with its place.
fn symbol_at(src: &[u8], token: Token, place: Place) -> Symbol
    requires ordered { token.«from» ≤ token.to }
    requires within { token.to ≤ length src.now }
    requires here { place ≡ place_of src.now token.«from» }
    ensures { result ≡ spec.symbol_of src.now token }
{
    Symbol {
        terminal: terminal_of(token.kind, &src[token.from..token.to]),
        number: value_of(token.kind),
        from: token.from,
        to: token.to,
        place,
    }
}

/// The symbols of the tokens of a text, in order: one sweep over the text finds all their places.
/// The tokens lie in order within the text, as those of [`pc_text::tokens`] do. `NoMemory` comes
/// only for want of memory.
pub fn symbols(alloc: Global, src: &[u8], tokens: &[Token]) -> Result<Items<Symbol>, NoMemory>
    requires small { length src.now < 2 ^ 32 - 1 }
    requires spans { AreSpans 0 (length src.now) tokens.now }
    ensures { IfOk result (λ found. found ≡ spec.symbols_of src.now tokens.now) }
{
    let mut found = Items::new(alloc);
    let mut at = 0;
    let mut place = Place { line: 1, column: 1 };
    for token in tokens {
        place = place_from(src, at, place, token.from);
        at = token.from;
        match found.push(symbol_at(src, *token, place)) {
            Ok(()) => {}
            Err(_) => return Err(NoMemory),
        }
    }
    Ok(found)
}
