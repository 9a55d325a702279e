//! What is known, and what is needed, at the heads of a graph.

ghost use Rattle.std.specs.Prelude.{IfOk, IfSome};
ghost use Rattle.pc_certify.specs.Candidates.{AreHeads};

use crate::heads::{Listed, heads_of};
use pc_back::Need;
use pc_fixpoint::{backward, forward};
use pc_flow::{Annotation, Graph};
use pc_poly::Poly;
use pc_rows::{NoMemory, Rows};
use std::alloc::Global;

impl Listed for Poly {
    fn listed(&self, alloc: Global) -> Result<Rows, NoMemory> {
        told(self.list(alloc))
    }
}

impl Listed for Need {
    fn listed(&self, alloc: Global) -> Result<Rows, NoMemory> {
        told(self.list(alloc))
    }
}

/// The same, where a domain tells that there is no memory.
fn told(rows: Result<Rows, pc_domain::NoMemory>) -> Result<Rows, NoMemory> {
    match rows {
        Ok(rows) => Ok(rows),
        Err(pc_domain::NoMemory) => Err(NoMemory),
    }
}

/// Rows that each state meets which some walk brings to a head. Nothing where one of them has a
/// variable that the graph lacks.
pub fn facts(alloc: Global, g: &Graph) -> Result<Option<Annotation>, NoMemory>
    ensures { IfOk result (λ o. IfSome o (AreHeads g.now)) }
{
    match forward::<Poly>(alloc, g) {
        Ok(values) => heads_of(alloc, g, values.as_slice()),
        Err(pc_domain::NoMemory) => Err(NoMemory),
    }
}

/// Rows of the heads from which no walk violates an assertion, as far as they are found. Nothing
/// where one of them has a variable that the graph lacks.
pub fn needed(alloc: Global, g: &Graph) -> Result<Option<Annotation>, NoMemory>
    ensures { IfOk result (λ o. IfSome o (AreHeads g.now)) }
{
    match backward::<Need>(alloc, g) {
        Ok(values) => heads_of(alloc, g, values.as_slice()),
        Err(pc_domain::NoMemory) => Err(NoMemory),
    }
}
