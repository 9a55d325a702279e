//! Rows before assignments.

ghost use Rattle.std.specs.Prelude.{◌≡◌, ◌<◌, true, IfOk};
ghost use Rattle.pc_rows.specs.Substitution.{IsEnd, AreOrdered};

use crate::fault::Fault;
use crate::numbers::number_of;
use crate::rows::push_made;
use crate::texts::{line_in, row_in, variable_in};
use pc_ports::Files;
use pc_text::Text;
use std::alloc::Global;

/// The row before an assignment of a form, with the ends of a choice.
pub fn substitute(alloc: Global, texts: &Files, text: &mut Text) -> Result<(), Fault> {
    let variable = variable_in(texts, "variable")?;
    let (low, high) = ends_in(texts)?;
    let row = row_in(alloc, texts, "row")?;
    let form = row_in(alloc, texts, "form")?;
    push_made(text, pc_rows::substitute(&row, variable, &form, low, high))
}

/// The ends of a choice, which are in order.
fn ends_in(texts: &Files) -> Result<(Option<i128>, Option<i128>), Fault>
    ensures { IfOk result (λ ends. IsEnd ends.0 × IsEnd ends.1 × AreOrdered ends.0 ends.1) }
{
    let low = end_of(line_in(texts, "low")?)?;
    let high = end_of(line_in(texts, "high")?)?;
    if are_ordered(low, high) {
        Ok((low, high))
    } else {
        Err(Fault::Number)
    }
}

/// An end of a choice; a star is an open one.
fn end_of(text: &str) -> Result<Option<i128>, Fault>
    ensures { IfOk result IsEnd }
{
    match text {
        "*" => Ok(None),
        _ => Ok(Some(number_of(text)?.get())),
    }
}

/// Whether the ends are in order.
fn are_ordered(low: Option<i128>, high: Option<i128>) -> bool
    ensures { result ≡ true → AreOrdered low high }
{
    match (low, high) {
        (Some(low), Some(high)) => low <= high,
        _ => true,
    }
}
