//! Rows that others are found to show.

ghost use Rattle.std.specs.Prelude.{◌≡◌, ◌⊎◌, ◌<◌, ◌≤◌, true, length, IfOk, OnOk, MatchOption};
ghost use Rattle.pc_rows.specs.declared.rows.TheConstants.{ROWS};
ghost use Rattle.pc_rows.specs.Linear.{State, Meets, MeetsAll};
ghost use Rattle.pc_poly.specs.declared.limits.TheConstants.{KEEPING_ROUND};
ghost use Rattle.pc_poly.specs.Rows.{KeepsShown, IsKept};

use crate::adding::{gather, push};
use crate::limits::KEEPING_ROUND;
use pc_domain::NoMemory;
use pc_entail::{Answer, entails};
use pc_rows::{Row, Rows};
use std::alloc::Global;

/// The rows of either list that the other one is found to show, those of the first before those of the second.
pub(crate) fn hull(alloc: Global, a: &Rows, b: &Rows) -> Result<Rows, NoMemory>
    ensures { IfOk result (λ out. (s : State) → MeetsAll s a.now ⊎ MeetsAll s b.now → MeetsAll s out) }
{
    hull_from(alloc, &shown(alloc, a, b)?, a, b)
}

/// The old rows widened by newer ones: None where the newer ones are found to show each of them. Else these are the hull,
/// and from `KEEPING_ROUND` on the old rows that the newer ones are found to show.
pub(crate) fn widened(
    alloc: Global,
    old: &Rows,
    newer: &Rows,
    round: u32,
) -> Result<Option<Rows>, NoMemory>
    ensures states { IfOk result (λ o. MatchOption o ((s : State) → MeetsAll s newer.now → MeetsAll s old.now) (λ rows. (s : State) → MeetsAll s old.now ⊎ MeetsAll s newer.now → MeetsAll s rows)) }
    ensures fewer { IfOk result (λ o. MatchOption o (Unit {0}) (λ rows. KEEPING_ROUND ≤ round → length rows < length old.now)) }
{
    let kept = shown(alloc, old, newer)?;
    if kept.len() == old.len() {
        return Ok(None);
    }
    if round < KEEPING_ROUND {
        return Ok(Some(hull_from(alloc, &kept, old, newer)?));
    }
    Ok(Some(kept))
}

/// The hull of two lists, where the rows of the first that the second shows are found.
fn hull_from(alloc: Global, kept: &Rows, a: &Rows, b: &Rows) -> Result<Rows, NoMemory>
    requires { IsKept a.now b.now kept.now }
    ensures { IfOk result (λ out. (s : State) → MeetsAll s a.now ⊎ MeetsAll s b.now → MeetsAll s out) }
{
    let mut out = Rows::new(alloc);
    gather(&mut out, kept)?;
    gather(&mut out, &shown(alloc, b, a)?)?;
    Ok(out)
}

/// The rows of a list that another one is found to show.
fn shown(alloc: Global, rows: &Rows, other: &Rows) -> Result<Rows, NoMemory>
    ensures { IfOk result (λ kept. IsKept rows.now other.now kept) }
{
    let mut kept = Rows::new(alloc);
    for i in 0..rows.len() {
        keep_shown(alloc, &mut kept, other, rows.at(i))?;
    }
    Ok(kept)
}

/// Puts the row at the end, if the others are found to show it.
fn keep_shown(alloc: Global, kept: &mut Rows, other: &Rows, r: &Row) -> Result<(), NoMemory>
    requires { length kept.old < ROWS }
    ensures { OnOk result (KeepsShown other.now r.now kept.old kept.new) }
{
    if is_shown(alloc, other, r)? {
        return push(kept, r.copy());
    }
    Ok(())
}

/// Whether the rows are found to show the row.
fn is_shown(alloc: Global, rows: &Rows, r: &Row) -> Result<bool, NoMemory>
    ensures { IfOk result (λ yes. yes ≡ true → (s : State) → MeetsAll s rows.now → Meets s r.now) }
{
    let _few = rows.len();
    match entails(alloc, rows, &Rows::new(alloc), r) {
        Ok(Answer::Shown(_)) => Ok(true),
        Ok(Answer::Point(_)) => Ok(false),
        Ok(Answer::Unsettled) => Ok(false),
        Err(_) => Err(NoMemory),
    }
}
