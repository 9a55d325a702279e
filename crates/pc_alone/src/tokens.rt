//! Tokens.

use crate::fault::Fault;
use crate::numbers::{push_line, push_number};
use crate::texts::bytes_in;
use pc_ports::Files;
use pc_text::{Kind, LexFault, Text, Token};
use std::alloc::Global;

/// The tokens of the text `source`, one a line: what each is, and the bytes that it is made of.
pub fn tokens(alloc: Global, texts: &Files, text: &mut Text) -> Result<(), Fault> {
    match pc_text::tokens(alloc, bytes_in(texts, "source")?) {
        Ok(found) => push_tokens(text, found.as_slice()),
        Err(LexFault::NoMemory) => Err(Fault::Memory),
        Err(_) => Err(Fault::Textless),
    }
}

/// Adds a line for each token.
fn push_tokens(text: &mut Text, tokens: &[Token]) -> Result<(), Fault> {
    for token in tokens {
        text.push_number(token.from as i128)?;
        text.push_all(b"..")?;
        text.push_number(token.to as i128)?;
        push_kind(text, token.kind)?;
    }
    Ok(())
}

/// Adds what a token is, in words.
fn push_kind(text: &mut Text, kind: Kind) -> Result<(), Fault> {
    match kind {
        Kind::Keyword => push_line(text, " keyword"),
        Kind::Name => push_line(text, " name"),
        Kind::Sign => push_line(text, " sign"),
        Kind::Number(number) => push_numeral(text, number),
    }
}

/// Adds that a token is a number, and which.
fn push_numeral(text: &mut Text, number: i128) -> Result<(), Fault> {
    text.push_all(b" number")?;
    push_number(text, number)?;
    Ok(text.push(b'\n')?)
}
