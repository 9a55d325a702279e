//! The text of a row: its terms, its constant, and ` >= 0`.

ghost use Rattle.std.specs.Prelude.{◌≡◌, ◌<◌, ◌++◌, not, length, IfOk, OnOk, OnErr};
ghost use Rattle.pc_rows.specs.Linear.{is_zero, coefficient, IsOver};
ghost use Rattle.pc_condition.specs.Conditions.{sign, part_text, term, terms, is_empty, sum_text, constant_text, row_text};

use pc_rows::{Row, VARIABLES};
use pc_text::{Names, NoMemory, Text};
use std::alloc::Global;

/// Appends the sign of a part, which the first one lacks where it is not negative.
fn push_sign(text: &mut Text, is_first: bool, is_negative: bool) -> Result<(), NoMemory>
    ensures { OnOk result (text.new ≡ text.old ++ sign is_first is_negative) }
{
    match (is_first, is_negative) {
        (true, true) => text.push_all(b"-"),
        (true, false) => Ok(()),
        (false, true) => text.push_all(b" - "),
        (false, false) => text.push_all(b" + "),
    }
}

/// Whether the variable has a term: its coefficient is not 0.
fn has_term(r: &Row, v: u32) -> bool
    requires { v < VARIABLES }
    ensures value { result ≡ not (is_zero (coefficient r.now v)) }
    ensures wide { length r.now.coefficients ≡ VARIABLES }
{
    r.coefficient(v) != 0
}

/// Appends the term of variable `v`, behind its sign.
fn push_term(text: &mut Text, is_first: bool, r: &Row, v: u32, name: &[u8]) -> Result<(), NoMemory>
    requires { v < VARIABLES }
    ensures { OnOk result (text.new ≡ text.old ++ part_text is_first (term name.now (coefficient r.now v))) }
{
    let c = r.coefficient(v);
    push_sign(text, is_first, c < 0)?;
    let n = c.abs();
    if n != 1 {
        text.push_number(n)?;
        text.push_all(b"*")?;
    }
    text.push_all(name)
}

/// Appends the terms of the row, and answers whether there are none.
fn push_terms(text: &mut Text, r: &Row, names: &Names) -> Result<bool, NoMemory>
    requires { IsOver (length names.now.names) r.now }
    ensures { IfOk result (λ none. (none ≡ is_empty (terms names.now.names r.now.coefficients))
        × (text.new ≡ text.old ++ sum_text (terms names.now.names r.now.coefficients))) }
{
    let mut is_first = true;
    for v in 0..VARIABLES as u32 {
        if has_term(r, v) {
            push_term(text, is_first, r, v, names.at(v))?;
            is_first = false;
        }
    }
    Ok(is_first)
}

/// Appends the constant of the row where it is not 0 or is the first part.
fn push_constant(text: &mut Text, is_first: bool, r: &Row) -> Result<(), NoMemory>
    ensures { OnOk result (text.new ≡ text.old ++ constant_text is_first r.now.constant) }
{
    let c = r.constant();
    if c == 0 && !is_first {
        return Ok(());
    }
    push_sign(text, is_first, c < 0)?;
    text.push_number(c.abs())
}

/// The text of the row, apart from other texts.
fn text_of(alloc: Global, r: &Row, names: &Names) -> Result<Text, NoMemory>
    requires { IsOver (length names.now.names) r.now }
    ensures { IfOk result (λ text. text ≡ row_text names.now.names r.now) }
{
    let mut text = Text::new(alloc);
    let is_first = push_terms(&mut text, r, names)?;
    push_constant(&mut text, is_first, r)?;
    text.push_all(b" >= 0")?;
    Ok(text)
}

/// Appends the text of a row, such as `3*x - y + 5 >= 0`.
///
/// The terms stand in the order of the variables: the number and `*` before the name, or the name
/// alone for 1 and -1; variables with the coefficient 0 have none. The constant follows where it is
/// not 0 or there is no term. Where memory is wanting, the text stays as it was.
pub fn push_row(alloc: Global, text: &mut Text, r: &Row, names: &Names) -> Result<(), NoMemory>
    requires { IsOver (length names.now.names) r.now }
    ensures added { OnOk result (text.new ≡ text.old ++ row_text names.now.names r.now) }
    ensures unchanged { OnErr result (text.new ≡ text.old) }
{
    // The row is built apart, so that a push that fails half way leaves `text` alone.
    let row = text_of(alloc, r, names)?;
    text.push_all(row.bytes())
}
