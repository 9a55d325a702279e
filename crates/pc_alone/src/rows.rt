//! Rows and lists of rows.

use crate::fault::Fault;
use crate::numbers::{push_line, push_number, push_row, push_rows};
use crate::texts::{number_in, row_in, rows_in, variable_in};
use pc_ports::Files;
use pc_rows::{Past, Row, RowsFault};
use pc_text::Text;
use std::alloc::Global;

/// The sum of two rows.
pub fn sum(alloc: Global, texts: &Files, text: &mut Text) -> Result<(), Fault> {
    let row = row_in(alloc, texts, "row")?;
    let other = row_in(alloc, texts, "other")?;
    push_made(text, row.sum(&other))
}

/// The difference of two rows.
pub fn minus(alloc: Global, texts: &Files, text: &mut Text) -> Result<(), Fault> {
    let row = row_in(alloc, texts, "row")?;
    let other = row_in(alloc, texts, "other")?;
    push_made(text, row.minus(&other))
}

/// A multiple of a row.
pub fn scaled(alloc: Global, texts: &Files, text: &mut Text) -> Result<(), Fault> {
    let number = number_in(texts, "number")?;
    let row = row_in(alloc, texts, "row")?;
    push_made(text, row.scaled(number.get()))
}

/// The negation of a row.
pub fn negated(alloc: Global, texts: &Files, text: &mut Text) -> Result<(), Fault> {
    let row = row_in(alloc, texts, "row")?;
    push_made(text, row.negated())
}

/// Adds a row that was made, or `past`.
pub fn push_made(text: &mut Text, made: Result<Row, Past>) -> Result<(), Fault> {
    match made {
        Ok(row) => push_row(text, &row),
        Err(Past) => push_line(text, "past"),
    }
}

/// A row with another coefficient at one variable.
pub fn with(alloc: Global, texts: &Files, text: &mut Text) -> Result<(), Fault> {
    let variable = variable_in(texts, "variable")?;
    let coefficient = number_in(texts, "number")?;
    let row = row_in(alloc, texts, "row")?;
    push_row(text, &row.with(variable, coefficient.get()))
}

/// The terms of a row, one a line: the variable and its coefficient.
pub fn terms(alloc: Global, texts: &Files, text: &mut Text) -> Result<(), Fault> {
    let row = row_in(alloc, texts, "row")?;
    push_terms(text, &row)
}

/// Adds the terms of a row.
fn push_terms(text: &mut Text, row: &Row) -> Result<(), Fault> {
    for k in 0..row.terms() {
        let (variable, coefficient) = row.term(k);
        text.push_number(variable as i128)?;
        push_number(text, coefficient)?;
        text.push(b'\n')?;
    }
    Ok(())
}

/// Whether a row is covered by rows.
pub fn covered(alloc: Global, texts: &Files, text: &mut Text) -> Result<(), Fault> {
    let row = row_in(alloc, texts, "row")?;
    let rows = rows_in(alloc, texts, "rows")?;
    push_word(text, pc_rows::covered(&row, &rows))
}

/// Adds an answer of yes or no.
pub fn push_word(text: &mut Text, yes: bool) -> Result<(), Fault> {
    push_line(text, if yes { "yes" } else { "no" })
}

/// Two lists of rows in one, or `full`.
pub fn join(alloc: Global, texts: &Files, text: &mut Text) -> Result<(), Fault> {
    let rows = rows_in(alloc, texts, "rows")?;
    let others = rows_in(alloc, texts, "others")?;
    match pc_rows::join(&rows, &others) {
        Ok(both) => push_rows(text, &both),
        Err(RowsFault::Full) => push_line(text, "full"),
        Err(RowsFault::NoMemory) => Err(Fault::Memory),
    }
}
