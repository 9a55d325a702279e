//! The text of a script.

ghost use Rattle.std.specs.Prelude.{◌≡◌, ◌++◌, ◌∷◌, [], IfOk, OnOk};
ghost use Rattle.pc_breach.specs.Scripts.{values_text, choice_line, choices_text, script_text};

use pc_text::{NoMemory, Text};
use std::alloc::Global;

/// The text of a script with this entry and these choices: the line `entry` with the values, and a line `choose` for each
/// choice.
pub fn script_text(alloc: Global, entry: &[i128], choices: &[i128]) -> Result<Text, NoMemory>
    ensures { IfOk result (λ text. text ≡ script_text entry.now choices.now) }
{
    let mut text = Text::new(alloc);
    text.push_all(b"entry")?;
    push_values(&mut text, entry)?;
    text.push(b'\n')?;
    push_choices(&mut text, choices)?;
    Ok(text)
}

/// Adds a line for each choice.
fn push_choices(text: &mut Text, choices: &[i128]) -> Result<(), NoMemory>
    ensures { OnOk result (text.new ≡ text.old ++ choices_text choices.now) }
{
    for c in choices {
        push_choice(text, *c)?;
    }
    Ok(())
}

/// Adds the line of a choice.
fn push_choice(text: &mut Text, choice: i128) -> Result<(), NoMemory>
    ensures { OnOk result (text.new ≡ text.old ++ (choice_line choice ++ (10 ∷ []))) }
{
    text.push_all(b"choose")?;
    push_value(text, choice)?;
    text.push(b'\n')
}

/// Adds each value behind a space.
fn push_values(text: &mut Text, values: &[i128]) -> Result<(), NoMemory>
    ensures { OnOk result (text.new ≡ text.old ++ values_text values.now) }
{
    for v in values {
        push_value(text, *v)?;
    }
    Ok(())
}

/// Adds a value behind a space.
fn push_value(text: &mut Text, value: i128) -> Result<(), NoMemory>
    ensures { OnOk result (text.new ≡ text.old ++ values_text (value ∷ [])) }
{
    text.push(b' ')?;
    text.push_number(value)
}
