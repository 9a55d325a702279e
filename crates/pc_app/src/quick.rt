//! What the words `quick` are answered: the condition that a domain finds going back.

ghost use Rattle.std.specs.Prelude.{◌≤◌, length, IfOk};
ghost use Rattle.pc_back.specs.contracts.member.NeedBackward.TheImpl.{ghosts as needs};
ghost use Rattle.pc_box.specs.contracts.backward.Box16Backward.TheImpl.{ghosts as boxes};
ghost use Rattle.pc_facts.specs.Quick.{IsQuick};
ghost use Rattle.pc_app.specs.Subjects.{of_program};
ghost use Rattle.pc_app.specs.Quick.{QuickPrints};

use crate::printing::Prints;
use pc_back::Need;
use pc_box::Box16;
use pc_facts::show_quick;
use pc_flow::Graph;
use pc_graph::lower;
use pc_program::Program;
use pc_text::{Names, NoMemory, Text};
use pc_words::QuickDomain;
use std::alloc::Global;

/// `quick F --domain=D`.
#[derive(Drop)]
pub(crate) struct QuickOf {
    pub(crate) domain: QuickDomain,
}

impl Prints for QuickOf {
    ghost prints = { λ command p. QuickPrints command.domain (of_program p) };

    fn text(&self, alloc: Global, program: &Program) -> Result<Text, NoMemory> {
        condition_of(alloc, self.domain, program)
    }
}

/// The condition that a domain finds for a program.
fn condition_of(alloc: Global, domain: QuickDomain, program: &Program) -> Result<Text, NoMemory>
    ensures { IfOk result (QuickPrints domain (of_program program.now)) }
{
    let graph = lower(alloc, program)?;
    match domain {
        QuickDomain::Rows => by_rows(alloc, &graph, &program.names),
        QuickDomain::Boxes => by_boxes(alloc, &graph, &program.names),
    }
}

/// The condition that rows find for a graph.
fn by_rows(alloc: Global, g: &Graph, names: &Names) -> Result<Text, NoMemory>
    requires { g.now.params ≤ length names.now.names }
    ensures { IfOk result (IsQuick needs g.now names.now.names) }
{
    show_quick::<Need>(alloc, g, names)
}

/// The condition that boxes find for a graph.
fn by_boxes(alloc: Global, g: &Graph, names: &Names) -> Result<Text, NoMemory>
    requires { g.now.params ≤ length names.now.names }
    ensures { IfOk result (IsQuick boxes g.now names.now.names) }
{
    show_quick::<Box16>(alloc, g, names)
}
