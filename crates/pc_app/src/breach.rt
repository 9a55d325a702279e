//! What the words `breach` are answered: choices that break an assertion.

ghost use Rattle.std.specs.Prelude.{◌≡◌, ◌≤◌, ◌++◌, ℕ, List, length, None, IfOk, OnOk};
ghost use Rattle.pc_graph.specs.Lowering.{graph};
ghost use Rattle.pc_app.specs.Breach.{BreachSays, IsAnswer, breach, straight_kind, unfit_of, unfit_text};
ghost use Rattle.pc_app.specs.Kinds.{script_kind};
ghost use Rattle.pc_app.specs.Reading.{FileIs, RestIs, TaskIs};
ghost use Rattle.pc_app.specs.Texts.{refused};

use crate::answer::{Answer, Stop, one_line};
use crate::files::{script_in, source_in};
use crate::refusal::push_at;
use crate::status::{DONE, FAILED, PAST, REFUSED};
use pc_breach::{Breach, breach, first_bend, first_open_end, script_text};
use pc_graph::lower;
use pc_ports::Store;
use pc_program::Program;
use pc_runner::Script;
use pc_text::{NoMemory, Place, Text};
use std::alloc::Global;

/// Why no choices are sought in a program.
#[derive(Clone, Copy)]
pub(crate) enum Unfit {
    /// It has a loop, an assumption or a test other than `*` here.
    NotStraight(Place),
    /// It is straight, and has an open end here.
    OpenEnd(Place),
}

/// The answer to `breach`.
pub(crate) fn answer_to_breach<S: Store>(
    alloc: Global,
    source: &str,
    script: &str,
    store: &mut S,
) -> Result<Answer, Stop>
    ensures answered { TaskIs (S.holding store.old) (S.faults store.old) (S.faults store.new) (breach source.now script.now) result }
    ensures kept { (name : List ℕ) → S.holding store.new name ≡ S.holding store.old name }
{
    let program = straight_in(alloc, source, store)?;
    breach_program(alloc, &program, script, store)
}

/// The program that a file spells, which is straight and without open ends.
fn straight_in<S: Store>(alloc: Global, name: &str, store: &mut S) -> Result<Program, Stop>
    ensures answered { FileIs straight_kind (S.holding store.old name.now) (S.faults store.old) (S.faults store.new) result }
    ensures fit { IfOk result (λ p. unfit_of p ≡ None) }
    ensures counted { S.faults store.old ≤ S.faults store.new }
    ensures kept { (n : List ℕ) → S.holding store.new n ≡ S.holding store.old n }
{
    let program = source_in(alloc, name, store)?;
    match unfit_of(&program) {
        None => Ok(program),
        Some(unfit) => Err(Stop::Refused(Answer {
            status: REFUSED,
            text: unfit_line(alloc, unfit)?,
        })),
    }
}

/// Why no choices are sought in the program, if that is so.
fn unfit_of(p: &Program) -> Option<Unfit>
    ensures { result ≡ unfit_of p.now }
{
    match first_bend(p) {
        Some(place) => Some(Unfit::NotStraight(place)),
        None => match first_open_end(p) {
            Some(place) => Some(Unfit::OpenEnd(place)),
            None => None,
        },
    }
}

/// The line of a source in which no choices are sought.
fn unfit_line(alloc: Global, unfit: Unfit) -> Result<Text, NoMemory>
    ensures { IfOk result (λ t. t ≡ refused (unfit_text unfit)) }
{
    let mut text = Text::new(alloc);
    text.push_all(b"source: ")?;
    push_unfit(&mut text, unfit)?;
    text.push(b'\n')?;
    Ok(text)
}

/// Adds why no choices are sought, and where.
fn push_unfit(text: &mut Text, unfit: Unfit) -> Result<(), NoMemory>
    ensures { OnOk result (text.new ≡ text.old ++ unfit_text unfit) }
{
    match unfit {
        Unfit::NotStraight(place) => push_at(text, b"not-straight ", place),
        Unfit::OpenEnd(place) => push_at(text, b"open-end ", place),
    }
}

/// The answer to `breach` on a straight program without open ends.
fn breach_program<S: Store>(
    alloc: Global,
    program: &Program,
    script: &str,
    store: &mut S,
) -> Result<Answer, Stop>
    requires { unfit_of program.now ≡ None }
    ensures answered { RestIs (script_kind program.now.names.params) (BreachSays program.now) (S.holding store.old script.now) (S.faults store.old) (S.faults store.new) result }
    ensures counted { S.faults store.old ≤ S.faults store.new }
    ensures kept { (name : List ℕ) → S.holding store.new name ≡ S.holding store.old name }
{
    let script = script_in(alloc, script, program.names.params(), store)?;
    Ok(sought(alloc, program, &script)?)
}

/// The answer to `breach` on a program and a script for it.
fn sought(alloc: Global, program: &Program, script: &Script) -> Result<Answer, NoMemory>
    requires fit { unfit_of program.now ≡ None }
    requires values { length script.now.entry ≡ program.now.names.params }
    ensures { IfOk result (λ a. IsAnswer (graph program.now) script.now.entry a.status a.text) }
{
    let g = lower(alloc, program)?;
    match breach(alloc, &g, script.entry.as_slice()) {
        Ok(Breach::Past) => one_line(alloc, PAST, b"unsettled\n"),
        Ok(Breach::Safe) => one_line(alloc, DONE, b"safe\n"),
        Ok(Breach::Choices(choices)) => Ok(Answer {
            status: FAILED,
            text: script_text(alloc, script.entry.as_slice(), choices.as_slice())?,
        }),
        Err(pc_rows::NoMemory) => Err(NoMemory),
    }
}
