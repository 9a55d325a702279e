//! The texts that a call by itself is about, under their names.

ghost use Rattle.std.specs.Prelude.{◌<◌, ◌-◌, ◌^◌, length, IfOk};
ghost use Rattle.pc_rows.specs.declared.row.TheConstants.{VARIABLES};

use crate::fault::Fault;
use crate::numbers::{number_of, row_of, rows_of, variable_of};
use pc_ports::Files;
use pc_rows::{Number, Row, Rows};
use std::alloc::Global;
use std::str;

/// The most bytes of a text.
const TEXT_BYTES: usize = 1_048_576;

/// The bytes of the text of this name.
pub fn bytes_in<'a>(texts: &'a Files, name: &str) -> Result<&'a [u8], Fault>
    ensures { IfOk result (λ bytes. length bytes.now < 2 ^ 32 - 1) }
{
    for i in 0..texts.len() {
        let text = texts.at(i);
        if text.0.as_str() == name {
            return within(text.1.as_slice());
        }
    }
    Err(Fault::Unreadable)
}

/// The bytes, where there are not too many.
fn within(bytes: &[u8]) -> Result<&[u8], Fault>
    ensures { IfOk result (λ bytes. length bytes.now < 2 ^ 32 - 1) }
{
    if bytes.len() <= TEXT_BYTES {
        Ok(bytes)
    } else {
        Err(Fault::Unreadable)
    }
}

/// The characters of the text of this name.
pub fn text_in<'a>(texts: &'a Files, name: &str) -> Result<&'a str, Fault> {
    match str::from_utf8(bytes_in(texts, name)?) {
        Ok(text) => Ok(text),
        Err(_) => Err(Fault::Textless),
    }
}

/// The text of this name without its last line feed.
pub fn line_in<'a>(texts: &'a Files, name: &str) -> Result<&'a str, Fault> {
    match text_in(texts, name)?.strip_suffix("\n") {
        Some(line) => Ok(line),
        None => Err(Fault::Textless),
    }
}

/// The variable whose number is on the one line of the text.
pub fn variable_in(texts: &Files, name: &str) -> Result<u32, Fault>
    ensures { IfOk result (λ v. v < VARIABLES) }
{
    variable_of(line_in(texts, name)?)
}

/// The number on the one line of the text.
pub fn number_in(texts: &Files, name: &str) -> Result<Number, Fault> {
    number_of(line_in(texts, name)?)
}

/// The row on the one line of the text.
pub fn row_in(alloc: Global, texts: &Files, name: &str) -> Result<Row, Fault> {
    row_of(alloc, line_in(texts, name)?)
}

/// The rows on the lines of the text.
pub fn rows_in(alloc: Global, texts: &Files, name: &str) -> Result<Rows, Fault> {
    rows_of(alloc, text_in(texts, name)?)
}
