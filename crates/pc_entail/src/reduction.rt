//! Lists of rows without those that the others show.

ghost use Rattle.std.specs.Prelude.{◌≡◌, ◌<◌, ◌+◌, ◌++◌, ◌↔◌, [], ◌∷◌, length, drop, IfOk};
ghost use Rattle.pc_rows.specs.Linear.{State, MeetsAll};
ghost use Rattle.pc_entail.specs.Reduction.{Reduced, Thinned, RemovesShown, AreModest};
ghost use Rattle.pc_entail.specs.Found.{Gives};
ghost use Rattle.pc_entail.specs.Removal.{Goes, AreLeft, TakesStep};
ghost use Rattle.pc_entail.specs.Steps.{rows_of, GoesIs, WithIs, StepIs};

use crate::entailment::{asked, found};
use crate::renewal::{Removed, put, renewed};
use pc_rows::{NoMemory, Proof, ROWS, Row, Rows};
use sqlite_items::Items;
use std::alloc::Global;

/// The rows without those that the others show. The rows are gone through from the first to the
/// last, and a row is removed where it, and every row removed before, is found to be shown by the
/// rows that would stay: what is shown at integer states alone need not be shown any more where
/// another row goes. Where a question is not settled the row stays, which comes only where that
/// question is not modest.
pub fn reduce(alloc: Global, a: &Rows) -> Result<Rows, NoMemory>
    ensures left { IfOk result (AreLeft a.now) }
    ensures states { IfOk result (λ rows. (s : State) → MeetsAll s a.now ↔ MeetsAll s rows) }
    ensures removed { IfOk result (λ rows. RemovesShown a.now rows) }
    ensures kept { IfOk result (λ rows. Thinned a.now rows) }
    ensures exact { IfOk result (λ rows. AreModest a.now → Reduced a.now rows) }
{
    let mut kept = Rows::new(alloc);
    let mut removed = Items::new(alloc);
    for i in 0..a.len() {
        let later = from(alloc, a, i + 1)?;
        step(alloc, &mut kept, &mut removed, a.at(i), &later)?;
    }
    Ok(kept)
}

/// The rows from row `start` on.
fn from(alloc: Global, a: &Rows, start: usize) -> Result<Rows, NoMemory>
    ensures { IfOk result (λ rows. rows ≡ drop start a.now) }
{
    let mut rows = Rows::new(alloc);
    for i in start..a.len() {
        push(&mut rows, a.at(i))?;
    }
    Ok(rows)
}

/// Puts the row to those that are kept, or to those that are removed, which have new proofs then.
fn step(
    alloc: Global,
    kept: &mut Rows,
    removed: &mut Items<Removed>,
    r: &Row,
    later: &Rows,
) -> Result<(), NoMemory>
    requires { length kept.old + length later.now < ROWS }
    ensures exact { TakesStep kept.old removed.old r.now later.now result kept.new removed.new }
    ensures evidence { StepIs kept.old removed.old r.now later.now result kept.new removed.new }
{
    match without(alloc, kept, removed.as_slice(), r, later)? {
        Some(all) => {
            *removed = all;
            Ok(())
        }
        None => push(kept, r),
    }
}

/// The removed rows and then the row itself, with proofs by which the others show them. None where
/// one of them is not found to be shown.
fn without(
    alloc: Global,
    kept: &Rows,
    removed: &[Removed],
    r: &Row,
    later: &Rows,
) -> Result<Option<Items<Removed>>, NoMemory>
    requires { length kept.now + length later.now < ROWS }
    ensures exact { Gives (Goes kept.now removed.now r.now later.now) result }
    ensures evidence { GoesIs (kept.now ++ later.now) (rows_of removed.now ++ r.now ∷ []) result }
{
    let mut system = asked(alloc, kept, later, r)?;
    match found(alloc, &system)? {
        Some(gone) => with(
            renewed(alloc, &mut system, kept.len(), removed, &gone)?,
            r,
            gone,
        ),
        None => Ok(None),
    }
}

/// The rows, if there are any, and then the row itself with its proof.
fn with(
    all: Option<Items<Removed>>,
    r: &Row,
    gone: Proof,
) -> Result<Option<Items<Removed>>, NoMemory>
    ensures { WithIs all r.now gone result }
{
    match all {
        Some(mut all) => {
            put(&mut all, r, gone)?;
            Ok(Some(all))
        }
        None => Ok(None),
    }
}

/// Puts a copy of the row at the end.
fn push(rows: &mut Rows, r: &Row) -> Result<(), NoMemory>
    requires { length rows.old < ROWS }
    ensures { IfOk result (λ _. rows.new ≡ rows.old ++ r.now ∷ []) }
{
    match rows.push(r.copy()) {
        Ok(()) => Ok(()),
        Err(_) => Err(NoMemory),
    }
}
