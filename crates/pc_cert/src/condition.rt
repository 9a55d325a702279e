//! The text of the condition that a certificate tells.

ghost use Rattle.std.specs.Prelude.{◌≡◌, ◌++◌, length, IfOk, OnOk};
ghost use Rattle.std.specs.List.{flat_map, AllByRecursion};
ghost use Rattle.pc_condition.specs.Conditions.{rows_text, line_text, suffices, condition_text};
ghost use Rattle.pc_certificate.specs.Certificate.{entry_rows, condition_of, SaysOf};

use pc_certificate::{Annotated, Certificate};
use pc_condition::{push_line, push_what};
use pc_text::{Names, NoMemory, Text};
use std::alloc::Global;

/// Appends the line of an alternative.
fn push_alternative(
    alloc: Global,
    text: &mut Text,
    a: &Annotated,
    names: &Names,
) -> Result<(), NoMemory>
    requires { SaysOf (length names.now.names) a.now }
    ensures { OnOk result (text.new ≡ text.old ++ line_text suffices (rows_text names.now.names (entry_rows a.now.rows))) }
{
    push_line(alloc, text, b"suffices: ", &a.rows.as_slice()[0], names)
}

/// The lines of alternatives, apart from other texts.
fn lines(alloc: Global, alternatives: &[Annotated], names: &Names) -> Result<Text, NoMemory>
    requires { AllByRecursion (SaysOf (length names.now.names)) alternatives.now }
    ensures { IfOk result (λ text. text ≡ flat_map (λ a. line_text suffices (rows_text names.now.names (entry_rows a.rows))) alternatives.now) }
{
    let mut text = Text::new(alloc);
    for a in alternatives {
        push_alternative(alloc, &mut text, a, names)?;
    }
    Ok(text)
}

/// The text of what a certificate says of the entry: that the rows of point 0 of one of its
/// alternatives suffice.
///
/// It has a line for each alternative, `suffices: ` and its rows, or the one line `suffices: false`
/// where there is no alternative. Each alternative has a list for point 0, over the names.
pub fn show_condition(alloc: Global, c: &Certificate, names: &Names) -> Result<Text, NoMemory>
    requires { AllByRecursion (SaysOf (length names.now.names)) c.now.alternatives }
    ensures { IfOk result (λ text. text ≡ condition_text names.now.names (condition_of c.now)) }
{
    if 0 < c.alternatives.len() {
        return lines(alloc, c.alternatives.as_slice(), names);
    }
    let mut text = Text::new(alloc);
    push_what(&mut text, b"suffices: ", b"false")?;
    Ok(text)
}
