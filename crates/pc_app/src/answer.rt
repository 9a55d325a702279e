//! What words are answered: a status and the whole text.

ghost use Rattle.std.specs.Prelude.{◌≡◌, ℕ, List, map, string_bytes, IfOk};
ghost use Rattle.std.specs.List.{AllByRecursion};
ghost use Rattle.pc_gen.specs.Made.{IsLoops};
ghost use Rattle.pc_words.specs.Words.{Order, IsOrder, IsPlain, inputs_of, loops_in, ordered};
ghost use Rattle.pc_app.specs.Table.{task_of};
ghost use Rattle.pc_app.specs.Reading.{TaskIs, WordsAre};

use crate::breach::answer_to_breach;
use crate::facts::FactsOf;
use crate::infer::{CertificateOf, Condition};
use crate::printing::answer_to_source;
use crate::quick::QuickOf;
use crate::replay::answer_to_replay;
use crate::run::answer_to_run;
use crate::show::Canonical;
use crate::status::USAGE;
use crate::trial::answer_to_trial;
use pc_ports::Store;
use pc_text::{NoMemory, Text};
use pc_words::{Command, command_of, taken, usage};
use std::alloc::Global;

/// An answer: the status, and the whole text that is to be written.
#[derive(Drop)]
pub(crate) struct Answer {
    pub(crate) status: u8,
    pub(crate) text: Text,
}

/// Why a call goes no further.
#[derive(Drop)]
pub(crate) enum Stop {
    /// What a file holds is refused, and this is the answer.
    Refused(Answer),
    /// A file could not be read, or the store tells that it lacks it.
    Store,
    /// There was no memory.
    Memory,
}

impl From<NoMemory> for Stop {
    ghost use Rattle.pc_app.specs.declared.answer.Stop.TheVariants.{Memory};

    ghost from_gives = { λ _ e. e ≡ Memory };

    fn from(_: NoMemory) -> Stop {
        Stop::Memory
    }
}

/// The answer to the words.
pub(crate) fn answer_to_words<S: Store>(
    alloc: Global,
    words: &[String],
    store: &mut S,
) -> Result<Answer, Stop>
    ensures answered { WordsAre (map string_bytes words.now) (S.holding store.old) (S.faults store.old) (S.faults store.new) result }
    ensures kept { (name : List ℕ) → S.holding store.new name ≡ S.holding store.old name }
{
    match command_of(words) {
        Some(command) => answer_to_command(alloc, command, store),
        None => answer_to_others(alloc, words, store),
    }
}

/// The answer to words in no plain form: that of the plain form that `clap` takes them as, or how
/// the program is used.
fn answer_to_others<S: Store>(
    alloc: Global,
    words: &[String],
    store: &mut S,
) -> Result<Answer, Stop>
    requires { IsPlain (map string_bytes words.now) → ⊥ }
    ensures answered { WordsAre (map string_bytes words.now) (S.holding store.old) (S.faults store.old) (S.faults store.new) result }
    ensures kept { (name : List ℕ) → S.holding store.new name ≡ S.holding store.old name }
{
    match taken(alloc, words)? {
        Some(list) => answer_to_taken(alloc, list.as_slice(), store),
        None => Ok(Answer {
            status: USAGE,
            text: usage(alloc, words)?,
        }),
    }
}

/// The answer to a list of words that others are taken as.
fn answer_to_taken<S: Store>(alloc: Global, list: &[String], store: &mut S) -> Result<Answer, Stop>
    requires { IsPlain (map string_bytes list.now) }
    ensures answered { (order : Order) → IsOrder (map string_bytes list.now) order → TaskIs (S.holding store.old) (S.faults store.old) (S.faults store.new) (task_of order) result }
    ensures kept { (name : List ℕ) → S.holding store.new name ≡ S.holding store.old name }
{
    match command_of(list) {
        Some(command) => answer_to_command(alloc, command, store),
        None => unreachable!(),
    }
}

/// The answer to a command.
fn answer_to_command<S: Store>(
    alloc: Global,
    command: Command<'_>,
    store: &mut S,
) -> Result<Answer, Stop>
    requires { AllByRecursion IsLoops (loops_in (inputs_of (ordered command))) }
    ensures answered { TaskIs (S.holding store.old) (S.faults store.old) (S.faults store.new) (task_of (ordered command.entry)) result }
    ensures kept { (name : List ℕ) → S.holding store.new name ≡ S.holding store.old name }
{
    match command {
        Command::Infer { source } => answer_to_source(alloc, &Condition, source, store),
        Command::Certify { source } => answer_to_source(alloc, &CertificateOf, source, store),
        Command::Replay {
            source,
            certificate,
        } => answer_to_replay(alloc, source, certificate, store),
        Command::Run { source, script } => answer_to_run(alloc, source, script, store),
        Command::Breach { source, script } => answer_to_breach(alloc, source, script, store),
        Command::Facts { domain, source } => {
            answer_to_source(alloc, &FactsOf { domain }, source, store)
        }
        Command::Quick { domain, source } => {
            answer_to_source(alloc, &QuickOf { domain }, source, store)
        }
        Command::Show { source } => answer_to_source(alloc, &Canonical, source, store),
        Command::Trial { loops } => answer_to_trial(alloc, loops, store),
    }
}

/// The answer that is this text.
pub(crate) fn one_line(alloc: Global, status: u8, line: &[u8]) -> Result<Answer, NoMemory>
    ensures { IfOk result (λ a. (a.status ≡ status) × (a.text ≡ line.now)) }
{
    let mut text = Text::new(alloc);
    text.push_all(line)?;
    Ok(Answer { status, text })
}
