//! The alternative of a candidate.

ghost use Rattle.std.specs.Prelude.{IfSome};
ghost use Rattle.pc_flow.specs.Shape.{NoHeads};
ghost use Rattle.pc_lower.specs.Laws.{IsComplete};
ghost use Rattle.pc_lower.specs.Tame.{IsTame};
ghost use Rattle.pc_lower.specs.TameCourse.{IsTameFor};
ghost use Rattle.pc_certify.specs.Candidates.{of_need, of_mode, of_heads, AreHeads};
ghost use Rattle.pc_certify.specs.Claims.{IsProved};
ghost use Rattle.pc_certify.specs.Entries.{PossibleIs};
ghost use Rattle.pc_certify.specs.Inferring.{ChosenIs, ChoiceIs, FoundIs, ChosenOf};

use crate::annotation::annotated;
use crate::entry::{entry_edge, reduced};
use pc_certificate::Annotated;
use pc_entail::contradictory;
use pc_flow::{Annotation, Graph, rows_at};
use pc_lower::{CandidateFault, Mode, candidate, complete, no_rows};
use pc_rows::NoMemory;
use std::alloc::Global;

/// The candidate of a mode; nothing where it is not computed.
pub fn of_mode(alloc: Global, g: &Graph, m: Mode) -> Result<Option<Annotation>, NoMemory>
    ensures { FoundIs g.now (of_mode g.now m) (IsTameFor g.now m) result }
{
    match candidate(alloc, g, m) {
        Ok(a) => Ok(Some(a)),
        Err(CandidateFault::Past) => Ok(None),
        Err(CandidateFault::Full) => Ok(None),
        Err(CandidateFault::NoMemory) => Err(NoMemory),
    }
}

/// The candidate of rows at the heads; nothing where it is not computed.
pub fn of_heads(
    alloc: Global,
    g: &Graph,
    heads: &Annotation,
) -> Result<Option<Annotation>, NoMemory>
    requires { AreHeads g.now heads.now }
    ensures { FoundIs g.now (of_heads g.now heads.now) (NoHeads g.now.points × IsTame g.now) result }
{
    match complete(alloc, g, heads) {
        Ok(a) => Ok(Some(a)),
        Err(CandidateFault::Past) => Ok(None),
        Err(CandidateFault::Full) => Ok(None),
        Err(CandidateFault::NoMemory) => Err(NoMemory),
    }
}

/// The alternative of what each point of a graph without loops needs, or nothing, as below.
pub fn choice_of_need(alloc: Global, g: &Graph) -> Result<Option<Annotated>, NoMemory>
    requires { NoHeads g.now.points }
    ensures { ChoiceIs g.now (of_need g.now) (IsTame g.now) result }
{
    let heads = no_rows(alloc, g)?;
    let found = of_heads(alloc, g, &heads)?;
    choice_of(alloc, g, found)
}

/// The alternative of a candidate; nothing where it is not there, not proved in range, or found to
/// contradict itself at the entry.
pub fn choice_of(
    alloc: Global,
    g: &Graph,
    found: Option<Annotation>,
) -> Result<Option<Annotated>, NoMemory>
    requires { IfSome found (IsComplete g.now) }
    ensures { ChosenOf g.now found result }
{
    match found {
        Some(a) => chosen(alloc, g, a),
        None => Ok(None),
    }
}

/// The annotation with its proofs and with the rows of its entry reduced, unless they are found to
/// contradict each other.
fn chosen(alloc: Global, g: &Graph, annotation: Annotation) -> Result<Option<Annotated>, NoMemory>
    requires { IsComplete g.now annotation }
    ensures { ChosenIs g.now annotation result }
{
    match annotated(alloc, g, annotation)? {
        Some(a) => possible(alloc, g, reduced(alloc, g, a)?),
        None => Ok(None),
    }
}

/// The alternative, unless the rows of its entry are found to contradict each other.
fn possible(alloc: Global, g: &Graph, a: Annotated) -> Result<Option<Annotated>, NoMemory>
    requires { IsProved g.now a }
    ensures { PossibleIs a result }
{
    let _start = entry_edge(g);
    let rows = rows_at(&a.rows, 0);
    let _most = rows.len();
    if contradictory(alloc, rows)? {
        Ok(None)
    } else {
        Ok(Some(a))
    }
}
