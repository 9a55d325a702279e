//! What the words `facts` are answered: what a domain knows at each point.

ghost use Rattle.std.specs.Prelude.{IfOk};
ghost use Rattle.pc_box.specs.contracts.member.Box16Forward.TheImpl.{ghosts as boxes};
ghost use Rattle.pc_poly.specs.contracts.member.PolyForward.TheImpl.{ghosts as polyhedra};
ghost use Rattle.pc_facts.specs.Facts.{IsFacts};
ghost use Rattle.pc_app.specs.Subjects.{of_program};
ghost use Rattle.pc_app.specs.Facts.{FactsPrints};

use crate::printing::Prints;
use pc_box::Box16;
use pc_facts::show_facts;
use pc_flow::Graph;
use pc_graph::lower;
use pc_poly::Poly;
use pc_program::Program;
use pc_text::{Names, NoMemory, Text};
use pc_words::FactsDomain;
use std::alloc::Global;

/// `facts F --domain=D`.
#[derive(Drop)]
pub(crate) struct FactsOf {
    pub(crate) domain: FactsDomain,
}

impl Prints for FactsOf {
    ghost prints = { λ command p. FactsPrints command.domain (of_program p) };

    fn text(&self, alloc: Global, program: &Program) -> Result<Text, NoMemory> {
        facts_of(alloc, self.domain, program)
    }
}

/// What a domain knows at each point of a program.
fn facts_of(alloc: Global, domain: FactsDomain, program: &Program) -> Result<Text, NoMemory>
    ensures { IfOk result (FactsPrints domain (of_program program.now)) }
{
    let graph = lower(alloc, program)?;
    match domain {
        FactsDomain::Boxes => boxes_of(alloc, &graph, &program.names),
        FactsDomain::Polyhedra => polyhedra_of(alloc, &graph, &program.names),
    }
}

/// What boxes know at each point of a graph.
fn boxes_of(alloc: Global, g: &Graph, names: &Names) -> Result<Text, NoMemory>
    ensures { IfOk result (IsFacts boxes g.now names.now.names) }
{
    show_facts::<Box16>(alloc, g, names)
}

/// What polyhedra know at each point of a graph.
fn polyhedra_of(alloc: Global, g: &Graph, names: &Names) -> Result<Text, NoMemory>
    ensures { IfOk result (IsFacts polyhedra g.now names.now.names) }
{
    show_facts::<Poly>(alloc, g, names)
}
