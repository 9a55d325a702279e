//! The line that tells the verdict on a run.

ghost use Rattle.std.specs.Prelude.{◌≡◌, ◌++◌, ◌<◌, OnOk, IfOk, codes, pos};
ghost use Rattle.pc_text.specs.Numerals.{numeral};
ghost use Rattle.pc_app.specs.Run.{step_text, step_at, values_text, told, verdict_status, verdict_text};

use crate::answer::Answer;
use crate::refusal::push_place;
use crate::status::{DONE, FAILED, PAST};
use pc_runner::Verdict;
use pc_text::{Names, NoMemory, Place, Text};
use std::alloc::Global;

/// The answer of a verdict on a run over so many choices.
pub(crate) fn answer_of_verdict(
    alloc: Global,
    names: &Names,
    choices: usize,
    verdict: &Verdict,
) -> Result<Answer, NoMemory>
    ensures { IfOk result (λ a. (a.status ≡ verdict_status verdict.now) × (a.text ≡ verdict_text names.now.names choices verdict.now)) }
{
    let mut text = Text::new(alloc);
    push_verdict(&mut text, names, choices, verdict)?;
    text.push(b'\n')?;
    Ok(Answer {
        status: status_of(verdict),
        text,
    })
}

/// The status of a verdict.
fn status_of(verdict: &Verdict) -> u8
    ensures { result ≡ verdict_status verdict.now }
{
    match verdict {
        Verdict::Violated { .. } => FAILED,
        Verdict::Past { .. } => PAST,
        Verdict::Blocked { .. } | Verdict::Ended { .. } | Verdict::Going { .. } => DONE,
    }
}

/// Adds what a verdict tells.
fn push_verdict(
    text: &mut Text,
    names: &Names,
    choices: usize,
    verdict: &Verdict,
) -> Result<(), NoMemory>
    ensures { OnOk result (text.new ≡ text.old ++ told names.now.names choices verdict.now) }
{
    match verdict {
        Verdict::Violated { step, place } => push_step_at(text, b"violated ", *step, *place),
        Verdict::Blocked { step, place } => push_step_at(text, b"blocked ", *step, *place),
        Verdict::Ended { step } => push_step(text, b"ended ", *step),
        Verdict::Going { state } => push_going(text, names, choices, state.as_slice()),
        Verdict::Past { step, place } => push_step_at(text, b"past ", *step, *place),
    }
}

/// Adds how a step came out, and its number.
fn push_step(text: &mut Text, how: &[u8], step: u32) -> Result<(), NoMemory>
    ensures { OnOk result (text.new ≡ text.old ++ (how.now ++ step_text step)) }
{
    text.push_all(how)?;
    text.push_all(b"step ")?;
    text.push_number(i128::from(step))
}

/// The same with the place where it did.
fn push_step_at(text: &mut Text, how: &[u8], step: u32, place: Place) -> Result<(), NoMemory>
    ensures { OnOk result (text.new ≡ text.old ++ (how.now ++ step_at step place)) }
{
    push_step(text, how, step)?;
    text.push_all(b" at ")?;
    push_place(text, place)
}

/// Adds the number of choices and the value of each variable.
fn push_going(
    text: &mut Text,
    names: &Names,
    choices: usize,
    state: &[i128],
) -> Result<(), NoMemory>
    ensures { OnOk result (text.new ≡ text.old ++ (codes "going after " ++ numeral (pos choices) ++ values_text names.now.names state.now)) }
{
    text.push_all(b"going after ")?;
    text.push_number(i128::from(choices as u64))?;
    push_values(text, names, state)
}

/// Adds the name and the value of each variable.
fn push_values(text: &mut Text, names: &Names, state: &[i128]) -> Result<(), NoMemory>
    ensures { OnOk result (text.new ≡ text.old ++ values_text names.now.names state.now) }
{
    for i in 0..names.len() {
        let Some(value) = state.get(i as usize) else {
            return Ok(());
        };
        push_value(text, names.at(i), *value)?;
    }
    Ok(())
}

/// Adds a name and a value.
fn push_value(text: &mut Text, name: &[u8], value: i128) -> Result<(), NoMemory>
    ensures { OnOk result (text.new ≡ text.old ++ (codes " " ++ name.now ++ codes "=" ++ numeral value)) }
{
    text.push(b' ')?;
    text.push_all(name)?;
    text.push(b'=')?;
    text.push_number(value)
}
