//! The text that tells a ruling on a certificate.

ghost use Rattle.std.specs.Prelude.{◌≡◌, ◌++◌, length, OnOk, IfOk};
ghost use Rattle.std.specs.List.{AllByRecursion};
ghost use Rattle.pc_certificate.specs.Certificate.{condition_of, SaysOf};
ghost use Rattle.pc_app.specs.Replay.{numbered, at_edge, at_row, refusal_text, ruling_status, ruling_text};

use crate::answer::Answer;
use crate::status::{DONE, FAILED};
use pc_cert::show_condition;
use pc_certificate::Certificate;
use pc_replay::Ruling;
use pc_text::{Names, NoMemory, Text};
use std::alloc::Global;

/// The answer of a ruling on a certificate, over the names of its program.
pub(crate) fn answer_of_ruling(
    alloc: Global,
    certificate: &Certificate,
    names: &Names,
    ruling: Ruling,
) -> Result<Answer, NoMemory>
    requires { ruling ≡ Ruling.Accepted → AllByRecursion (SaysOf (length names.now.names)) certificate.now.alternatives }
    ensures { IfOk result (λ a. (a.status ≡ ruling_status ruling) × (a.text ≡ ruling_text names.now.names (condition_of certificate.now) ruling)) }
{
    if let Ruling::Accepted = ruling {
        return accepted(alloc, certificate, names);
    }
    let mut text = Text::new(alloc);
    text.push_all(b"refused: ")?;
    push_refusal(&mut text, ruling)?;
    text.push(b'\n')?;
    Ok(Answer {
        status: FAILED,
        text,
    })
}

/// The answer to a certificate that is accepted: so much, and what it says of the entry.
fn accepted(alloc: Global, certificate: &Certificate, names: &Names) -> Result<Answer, NoMemory>
    requires { AllByRecursion (SaysOf (length names.now.names)) certificate.now.alternatives }
    ensures { IfOk result (λ a. (a.status ≡ DONE) × (a.text ≡ ruling_text names.now.names (condition_of certificate.now) Ruling.Accepted)) }
{
    let condition = show_condition(alloc, certificate, names)?;
    let mut text = Text::new(alloc);
    text.push_all(b"accepted\n")?;
    text.push_all(condition.bytes())?;
    Ok(Answer { status: DONE, text })
}

/// Adds what is told of a refusal.
fn push_refusal(text: &mut Text, ruling: Ruling) -> Result<(), NoMemory>
    ensures { OnOk result (text.new ≡ text.old ++ refusal_text ruling) }
{
    match ruling {
        Ruling::Accepted => Ok(()),
        Ruling::Shape => text.push_all(b"shape"),
        Ruling::Entry { alternative, row } => push_entry(text, alternative, row),
        Ruling::Count { alternative, edge } => push_at_edge(text, b"count", alternative, edge),
        Ruling::Negative {
            alternative,
            edge,
            row,
        } => push_at_row(text, b"negative", alternative, edge, row),
        Ruling::Index {
            alternative,
            edge,
            row,
        } => push_at_row(text, b"index", alternative, edge, row),
        Ruling::Past {
            alternative,
            edge,
            row,
        } => push_at_row(text, b"past", alternative, edge, row),
        Ruling::NotBelow {
            alternative,
            edge,
            row,
        } => push_at_row(text, b"not-below", alternative, edge, row),
        Ruling::Left {
            alternative,
            edge,
            row,
            variable,
        } => push_left(text, alternative, edge, row, variable),
    }
}

/// Adds a word and a number, each behind a space.
fn push_numbered(text: &mut Text, word: &[u8], number: u32) -> Result<(), NoMemory>
    ensures { OnOk result (text.new ≡ text.old ++ numbered word.now number) }
{
    text.push(b' ')?;
    text.push_all(word)?;
    text.push(b' ')?;
    text.push_number(i128::from(number))
}

/// Adds which row of the entry is over a local.
fn push_entry(text: &mut Text, alternative: u32, row: u32) -> Result<(), NoMemory>
    ensures { OnOk result (text.new ≡ text.old ++ refusal_text (Ruling.Entry alternative row)) }
{
    text.push_all(b"entry")?;
    push_numbered(text, b"alternative", alternative)?;
    push_numbered(text, b"row", row)
}

/// Adds a word, and at which edge it is told.
fn push_at_edge(text: &mut Text, word: &[u8], alternative: u32, edge: u32) -> Result<(), NoMemory>
    ensures { OnOk result (text.new ≡ text.old ++ (word.now ++ at_edge alternative edge)) }
{
    text.push_all(word)?;
    push_numbered(text, b"alternative", alternative)?;
    push_numbered(text, b"edge", edge)
}

/// Adds a word, and at which row that an edge owes it is told.
fn push_at_row(
    text: &mut Text,
    word: &[u8],
    alternative: u32,
    edge: u32,
    row: u32,
) -> Result<(), NoMemory>
    ensures { OnOk result (text.new ≡ text.old ++ (word.now ++ at_row alternative edge row)) }
{
    push_at_edge(text, word, alternative, edge)?;
    push_numbered(text, b"row", row)
}

/// Adds which variable is left by the proof of a row.
fn push_left(
    text: &mut Text,
    alternative: u32,
    edge: u32,
    row: u32,
    variable: u32,
) -> Result<(), NoMemory>
    ensures { OnOk result (text.new ≡ text.old ++ refusal_text (Ruling.Left alternative edge row variable)) }
{
    push_at_row(text, b"left", alternative, edge, row)?;
    push_numbered(text, b"variable", variable)
}
