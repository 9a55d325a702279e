//! What the words `trial` are answered: how large a made source is, and its condition.

ghost use Rattle.std.specs.Prelude.{◌≡◌, ◌≤◌, ℕ, List, length, IfOk};
ghost use Rattle.pc_gen.specs.Made.{IsLoops, made};
ghost use Rattle.pc_gen.specs.declared.made.TheConstants.{MADE_BYTES};
ghost use Rattle.pc_syntax.specs.Spelling.{Spells};
ghost use Rattle.pc_syntax.specs.declared.fault.SourceFault.TheVariants.{NoMemory as OfMemory};
ghost use Rattle.pc_app.specs.Trial.{TrialPrints, IsSize, trial};
ghost use Rattle.pc_app.specs.Reading.{TaskIs};

use crate::answer::{Answer, Stop};
use crate::infer::certificate_of;
use crate::status::DONE;
use pc_cert::show_condition;
use pc_certificate::Certificate;
use pc_flow::Graph;
use pc_gen::{Summary, make, push_summary};
use pc_graph::lower;
use pc_ports::Store;
use pc_program::Program;
use pc_syntax::{SourceFault, read};
use pc_text::{NoMemory, Text};
use std::alloc::Global;

/// The answer to `trial`.
pub(crate) fn answer_to_trial<S: Store>(
    alloc: Global,
    loops: u32,
    store: &mut S,
) -> Result<Answer, Stop>
    requires { IsLoops loops }
    ensures answered { TaskIs (S.holding store.old) (S.faults store.old) (S.faults store.new) (trial loops) result }
    ensures kept { (name : List ℕ) → S.holding store.new name ≡ S.holding store.old name }
{
    Ok(Answer {
        status: DONE,
        text: trial_text(alloc, loops)?,
    })
}

/// What is told of the made source with so many loops.
fn trial_text(alloc: Global, loops: u32) -> Result<Text, NoMemory>
    requires { IsLoops loops }
    ensures { IfOk result (TrialPrints loops) }
{
    let source = make(alloc, loops)?;
    let program = program_of(alloc, source.bytes(), loops)?;
    told(alloc, loops, source.bytes(), &program)
}

/// The program that a made source spells. Each of them spells one, so memory alone may be wanting.
fn program_of(alloc: Global, source: &[u8], loops: u32) -> Result<Program, NoMemory>
    requires loops { IsLoops loops }
    requires made { source.now ≡ made loops }
    requires short { length source.now ≤ MADE_BYTES }
    ensures { IfOk result (Spells source.now) }
{
    match read(alloc, source) {
        Ok(program) => Ok(program),
        Err(fault) => Err(wanting(fault)),
    }
}

/// The want of memory that a fault is.
fn wanting(_fault: SourceFault) -> NoMemory
    requires { _fault ≡ OfMemory }
{
    NoMemory
}

/// What is told of a made source and its program.
fn told(alloc: Global, loops: u32, source: &[u8], program: &Program) -> Result<Text, NoMemory>
    requires loops { IsLoops loops }
    requires made { source.now ≡ made loops }
    requires spelled { Spells source.now program.now }
    ensures { IfOk result (TrialPrints loops) }
{
    let graph = lower(alloc, program)?;
    let certificate = certificate_of(alloc, &graph)?;
    let mut text = Text::new(alloc);
    push_summary(
        alloc,
        &mut text,
        summary_of(loops, source, &graph, &certificate),
    )?;
    text.push_all(show_condition(alloc, &certificate, &program.names)?.bytes())?;
    Ok(text)
}

/// How large a made source, its graph and its condition are.
fn summary_of(loops: u32, source: &[u8], g: &Graph, certificate: &Certificate) -> Summary
    ensures { IsSize loops source.now g.now (length certificate.now.alternatives) result }
{
    Summary {
        loops,
        bytes: source.len(),
        points: g.points(),
        edges: g.edges(),
        alternatives: certificate.alternatives.len(),
    }
}
