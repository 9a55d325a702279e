//! The alternatives of a graph with loops.

ghost use Rattle.std.specs.Prelude.{◌≡◌, ◌≤◌, ◌+◌, ◌++◌, [], length, IfOk, OnOk, IfSome};
ghost use Rattle.std.specs.List.{AllByRecursion as Each};
ghost use Rattle.pc_flow.specs.Shape.{NoHeads};
ghost use Rattle.pc_lower.specs.Laws.{IsComplete};
ghost use Rattle.pc_certify.specs.Candidates.{AreHeads};
ghost use Rattle.pc_certify.specs.Lists.{as_list};
ghost use Rattle.pc_certify.specs.Selecting.{HasEntry};
ghost use Rattle.pc_certify.specs.Inferring.{Takes, TakesHeads, TakesFound, TakesEach, modes, AreAlternatives};

use crate::choice::{choice_of, of_heads, of_mode};
use crate::domains::{facts, needed};
use crate::entry::entry_edge;
use crate::heads::with_rows;
use crate::lists::push;
use crate::selection::select;
use pc_certificate::Annotated;
use pc_flow::{Annotation, Graph};
use pc_lower::Mode;
use pc_rows::NoMemory;
use sqlite_items::Items;
use std::alloc::Global;

/// The alternatives of a graph with loops: those that are kept after the candidates of all modes,
/// of three modes with facts, and of what is needed.
pub fn of_loops(alloc: Global, g: &Graph) -> Result<Items<Annotated>, NoMemory>
    requires { NoHeads g.now.points → ⊥ }
    ensures { IfOk result (AreAlternatives g.now) }
{
    let mut later = Items::new(alloc);
    let kept = of_modes(alloc, g, &mut later)?;
    add(&mut later, needed(alloc, g)?)?;
    with_all(alloc, g, later, kept)
}

/// The alternatives that are kept after the candidates of all modes. The heads of three of them
/// with facts are listed, to be tried later.
fn of_modes(
    alloc: Global,
    g: &Graph,
    later: &mut Items<Annotation>,
) -> Result<Items<Annotated>, NoMemory>
    requires { later.old ≡ [] }
    ensures takes { IfOk result (TakesEach (Takes g.now) modes []) }
    ensures entries { IfOk result (Each HasEntry) }
    ensures long { OnOk result (length later.new ≤ 3) }
    ensures later { OnOk result (Each (AreHeads g.now) later.new) }
{
    let facts = facts(alloc, g)?;
    let hint = with_mode(alloc, g, Mode::Hint, Items::new(alloc))?;
    let plain = with_facts(alloc, g, Mode::Plain, &facts, hint, later)?;
    let tilt1 = with_facts(alloc, g, Mode::Tilt1, &facts, plain, later)?;
    let tilt2 = with_facts(alloc, g, Mode::Tilt2, &facts, tilt1, later)?;
    with_mode(alloc, g, Mode::Escape, tilt2)
}

/// The alternatives that are kept after the candidate of a mode.
fn with_mode(
    alloc: Global,
    g: &Graph,
    m: Mode,
    kept: Items<Annotated>,
) -> Result<Items<Annotated>, NoMemory>
    requires { Each HasEntry kept }
    ensures takes { IfOk result (Takes g.now m kept) }
    ensures entries { IfOk result (Each HasEntry) }
{
    let found = of_mode(alloc, g, m)?;
    with_found(alloc, g, found, kept)
}

/// The same. The heads of the candidate with facts are listed, to be tried later.
fn with_facts(
    alloc: Global,
    g: &Graph,
    m: Mode,
    facts: &Option<Annotation>,
    kept: Items<Annotated>,
    later: &mut Items<Annotation>,
) -> Result<Items<Annotated>, NoMemory>
    requires entries { Each HasEntry kept }
    requires facts { IfSome facts.now (AreHeads g.now) }
    ensures takes { IfOk result (Takes g.now m kept) }
    ensures entries { IfOk result (Each HasEntry) }
    ensures long { OnOk result (length later.new ≤ length later.old + 1) }
    ensures later { OnOk result (Each (AreHeads g.now) later.old → Each (AreHeads g.now) later.new) }
{
    let found = of_mode(alloc, g, m)?;
    add(later, heads_with_facts(alloc, g, &found, facts)?)?;
    with_found(alloc, g, found, kept)
}

/// The rows of a candidate at the heads with facts. Nothing where one of the two is not there, or a
/// head would have a row too many.
fn heads_with_facts(
    alloc: Global,
    g: &Graph,
    found: &Option<Annotation>,
    facts: &Option<Annotation>,
) -> Result<Option<Annotation>, NoMemory>
    requires complete { IfSome found.now (IsComplete g.now) }
    requires facts { IfSome facts.now (AreHeads g.now) }
    ensures { IfOk result (λ o. IfSome o (AreHeads g.now)) }
{
    match (found, facts) {
        (Some(a), Some(facts)) => with_rows(alloc, g, a, facts),
        _ => Ok(None),
    }
}

/// Lists heads, where there are some.
fn add(later: &mut Items<Annotation>, heads: Option<Annotation>) -> Result<(), NoMemory>
    ensures { OnOk result (later.new ≡ later.old ++ as_list heads) }
{
    match heads {
        Some(heads) => push(later, heads),
        None => Ok(()),
    }
}

/// The alternatives that are kept after rows at the heads, one annotation after the other.
fn with_all(
    alloc: Global,
    g: &Graph,
    mut later: Items<Annotation>,
    mut kept: Items<Annotated>,
) -> Result<Items<Annotated>, NoMemory>
    requires heads { Each (AreHeads g.now) later }
    requires entries { Each HasEntry kept }
    ensures { IfOk result (TakesEach (TakesHeads g.now) later kept) }
{
    'rest: while 0 < later.len() {
        let heads = later.remove(0);
        kept = with_heads(alloc, g, &heads, kept)?;
    }
    Ok(kept)
}

/// The alternatives that are kept after rows at the heads.
fn with_heads(
    alloc: Global,
    g: &Graph,
    heads: &Annotation,
    kept: Items<Annotated>,
) -> Result<Items<Annotated>, NoMemory>
    requires heads { AreHeads g.now heads.now }
    requires entries { Each HasEntry kept }
    ensures takes { IfOk result (TakesHeads g.now heads.now kept) }
    ensures entries { IfOk result (Each HasEntry) }
{
    let found = of_heads(alloc, g, heads)?;
    with_found(alloc, g, found, kept)
}

/// The alternatives that are kept after a candidate.
fn with_found(
    alloc: Global,
    g: &Graph,
    found: Option<Annotation>,
    kept: Items<Annotated>,
) -> Result<Items<Annotated>, NoMemory>
    requires complete { IfSome found (IsComplete g.now) }
    requires entries { Each HasEntry kept }
    ensures takes { IfOk result (TakesFound g.now found kept) }
    ensures entries { IfOk result (Each HasEntry) }
{
    let _start = entry_edge(g);
    match choice_of(alloc, g, found)? {
        Some(a) => select(alloc, kept, a),
        None => Ok(kept),
    }
}
