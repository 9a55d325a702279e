//! The lines of a condition: a word such as `suffices: `, and what is said.

ghost use Rattle.std.specs.Prelude.{◌≡◌, ◌++◌, length, All, OnOk};
ghost use Rattle.pc_condition.specs.Conditions.{rows_text, line_text};
ghost use Rattle.pc_rows.specs.Linear.{IsOver};

use crate::list::RowList;
use crate::rows::text_of;
use pc_text::{Names, NoMemory, Text};
use std::alloc::Global;

/// Appends a line: a word, which ends with its own space, and what is said.
pub fn push_what(text: &mut Text, word: &[u8], what: &[u8]) -> Result<(), NoMemory>
    ensures { OnOk result (text.new ≡ text.old ++ line_text word.now what.now) }
{
    text.push_all(word)?;
    text.push_all(what)?;
    text.push_all(b"\n")
}

/// Appends the line of rows that are to hold together, behind a word.
pub fn push_line<L: RowList>(
    alloc: Global,
    text: &mut Text,
    word: &[u8],
    rows: &L,
    names: &Names,
) -> Result<(), NoMemory>
    requires { All (IsOver (length names.now.names)) (L.listed rows.now) }
    ensures { OnOk result (text.new ≡ text.old ++ line_text word.now (rows_text names.now.names (L.listed rows.now))) }
{
    let rows = text_of(alloc, rows, names)?;
    push_what(text, word, rows.bytes())
}
