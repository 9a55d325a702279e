//! The texts of rows that are to hold together.

ghost use Rattle.std.specs.Prelude.{◌≡◌, ◌<◌, ◌++◌, length, All, IfOk, OnOk, OnErr};
ghost use Rattle.pc_condition.specs.Conditions.{rows_text};
ghost use Rattle.pc_rows.specs.Linear.{IsOver};

use crate::list::RowList;
use crate::row::push_row;
use pc_text::{Names, NoMemory, Text};
use std::alloc::Global;

/// The texts of some rows, at least one, joined by ` && `.
fn text_of_some<L: RowList>(alloc: Global, rows: &L, names: &Names) -> Result<Text, NoMemory>
    requires some { 0 < length (L.listed rows.now) }
    requires within { All (IsOver (length names.now.names)) (L.listed rows.now) }
    ensures { IfOk result (λ text. text ≡ rows_text names.now.names (L.listed rows.now)) }
{
    let mut text = Text::new(alloc);
    push_row(alloc, &mut text, rows.row(0), names)?;
    for i in 1..rows.count() {
        text.push_all(b" && ")?;
        push_row(alloc, &mut text, rows.row(i), names)?;
    }
    Ok(text)
}

/// The texts of rows, apart from other texts.
pub(crate) fn text_of<L: RowList>(alloc: Global, rows: &L, names: &Names) -> Result<Text, NoMemory>
    requires { All (IsOver (length names.now.names)) (L.listed rows.now) }
    ensures { IfOk result (λ text. text ≡ rows_text names.now.names (L.listed rows.now)) }
{
    if 0 < rows.count() {
        return text_of_some(alloc, rows, names);
    }
    let mut text = Text::new(alloc);
    text.push_all(b"true")?;
    Ok(text)
}

/// Appends the texts of rows, joined by ` && `, or `true` where there are none. Where memory is
/// wanting, the text stays as it was.
pub fn push_rows<L: RowList>(
    alloc: Global,
    text: &mut Text,
    rows: &L,
    names: &Names,
) -> Result<(), NoMemory>
    requires { All (IsOver (length names.now.names)) (L.listed rows.now) }
    ensures added { OnOk result (text.new ≡ text.old ++ rows_text names.now.names (L.listed rows.now)) }
    ensures unchanged { OnErr result (text.new ≡ text.old) }
{
    let rows = text_of(alloc, rows, names)?;
    text.push_all(rows.bytes())
}
