//! Numbers and rows, read from lines and written to them. A row stands on a line of its own: its
//! constant, and its coefficients from the first variable on.

ghost use Rattle.std.specs.Prelude.{◌<◌, ◌≤◌, IfOk};
ghost use Rattle.pc_rows.specs.declared.row.TheConstants.{VARIABLES};

use crate::fault::Fault;
use pc_rows::{Number, PREMISES, Row, Rows, System, VARIABLES};
use pc_text::Text;
use std::alloc::Global;

/// The number that the text is.
pub fn number_of(text: &str) -> Result<Number, Fault> {
    match Number::checked(text.parse()?) {
        Some(number) => Ok(number),
        None => Err(Fault::Number),
    }
}

/// The variable whose number the text is.
pub fn variable_of(text: &str) -> Result<u32, Fault>
    ensures { IfOk result (λ v. v < VARIABLES) }
{
    let variable: u32 = text.parse()?;
    if (variable as usize) < VARIABLES {
        Ok(variable)
    } else {
        Err(Fault::Number)
    }
}

/// The row on a line.
pub fn row_of(alloc: Global, line: &str) -> Result<Row, Fault> {
    let mut numerals = line.split(' ');
    let Some(constant) = numerals.next() else {
        return Err(Fault::Number);
    };
    let mut row = Row::of_constant(alloc, number_of(constant)?.get());
    let mut variable: u32 = 0;
    for numeral in numerals {
        if VARIABLES <= variable as usize {
            return Err(Fault::Number);
        }
        row = row.with(variable, number_of(numeral)?.get());
        variable = variable.saturating_add(1);
    }
    Ok(row)
}

/// The rows on the lines of a text.
pub fn rows_of(alloc: Global, text: &str) -> Result<Rows, Fault> {
    let mut rows = Rows::new(alloc);
    for line in text.split('\n') {
        if line != "" {
            rows.push(row_of(alloc, line)?)?;
        }
    }
    Ok(rows)
}

/// The question whether the rows on the lines of a text, which may be more than a list has, show a goal.
pub fn system_of(alloc: Global, text: &str, goal: Row) -> Result<System, Fault> {
    let mut system = System::new(alloc, goal);
    for line in text.split('\n') {
        if line != "" {
            if PREMISES <= system.len() {
                return Err(Fault::Number);
            }
            system.push(row_of(alloc, line)?)?;
        }
    }
    Ok(system)
}

/// Adds a line.
pub fn push_line(text: &mut Text, line: &str) -> Result<(), Fault> {
    text.push_all(line.as_bytes())?;
    Ok(text.push(b'\n')?)
}

/// Adds a number behind a space.
pub fn push_number(text: &mut Text, number: i128) -> Result<(), Fault> {
    text.push(b' ')?;
    Ok(text.push_number(number)?)
}

/// Adds a row as a line, up to its last coefficient that is not 0.
pub fn push_row(text: &mut Text, row: &Row) -> Result<(), Fault> {
    text.push_number(row.constant())?;
    for variable in 0..width(row) {
        push_number(text, row.coefficient(variable))?;
    }
    Ok(text.push(b'\n')?)
}

/// Adds each row as a line.
pub fn push_rows(text: &mut Text, rows: &Rows) -> Result<(), Fault> {
    for i in 0..rows.len() {
        push_row(text, rows.at(i))?;
    }
    Ok(())
}

/// One more than the last variable of a row, and 0 where it has none.
fn width(row: &Row) -> u32
    ensures { result ≤ VARIABLES }
{
    match row.terms() {
        0 => 0,
        terms => row.term(terms - 1).0 + 1,
    }
}
