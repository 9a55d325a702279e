//! Rows that are narrowed by newer ones.

ghost use Rattle.std.specs.Prelude.{◌≡◌, ◌≤◌, ◌↔◌, Some, None, true, false, IfOk, IsTrue, MatchOption};
ghost use Rattle.pc_rows.specs.Linear.{State, MeetsAll};
ghost use Rattle.pc_rows.specs.Substitution.{never_row};
ghost use Rattle.pc_entail.specs.Showing.{AllShown};
ghost use Rattle.pc_lower.specs.Narrowing.{nothing};
ghost use Rattle.pc_back.specs.declared.limits.TheConstants.{LAST_ROUND};
ghost use Rattle.pc_back.specs.Needs.{HasNeed, list_of};

use crate::limits::LAST_ROUND;
use crate::need::Need;
use pc_domain::NoMemory;
use pc_entail::shows_all;
use pc_lower::narrow;
use pc_rows::{Row, Rows};
use std::alloc::Global;

/// The old rows narrowed by a newer value, or None where they are found to show each row of it.
pub fn narrowed(
    alloc: Global,
    old: &Rows,
    newer: &Need,
    round: u32,
) -> Result<Option<Need>, NoMemory>
    ensures states { IfOk result (λ o. MatchOption o ((s : State) → MeetsAll s old.now → HasNeed newer.now s) (λ v. (s : State) → HasNeed v s → MeetsAll s old.now × HasNeed newer.now s)) }
    ensures last { IfOk result (λ o. MatchOption o (Unit {0}) (λ v. LAST_ROUND ≤ round → v ≡ None)) }
{
    if are_shown(alloc, old, newer)? {
        return Ok(None);
    }
    Ok(Some(Need {
        rows: below(alloc, old, newer, round)?,
    }))
}

/// Whether the old rows are found to show each row of a newer value.
fn are_shown(alloc: Global, old: &Rows, newer: &Need) -> Result<bool, NoMemory>
    ensures { IfOk result (λ b. IsTrue b → AllShown old.now (list_of newer.now)) }
{
    let list = newer.list(alloc)?;
    match shows_all(alloc, old, &list) {
        Ok(shown) => Ok(shown),
        Err(_) => Err(NoMemory),
    }
}

/// Rows whose states are in both values, or None: from round `LAST_ROUND` on always, and before it where there are no newer
/// rows.
fn below(alloc: Global, old: &Rows, newer: &Need, round: u32) -> Result<Option<Rows>, NoMemory>
    ensures states { IfOk result (λ v. (s : State) → HasNeed v s → MeetsAll s old.now × HasNeed newer.now s) }
    ensures last { LAST_ROUND ≤ round → IfOk result (λ v. v ≡ None) }
{
    match &newer.rows {
        Some(rows) if round < LAST_ROUND => joined(alloc, old, rows, round),
        _ => Ok(None),
    }
}

/// What the lower widening gives in a round, where the row -1 alone stands for None.
fn joined(alloc: Global, old: &Rows, newer: &Rows, round: u32) -> Result<Option<Rows>, NoMemory>
    ensures { IfOk result (λ v. (s : State) → HasNeed v s → MeetsAll s old.now × MeetsAll s newer.now) }
{
    match narrow(alloc, old, newer, round) {
        Ok(rows) => Ok(unless_nothing(alloc, rows)),
        Err(_) => Err(NoMemory),
    }
}

/// The rows, or None where they are the row -1 alone.
fn unless_nothing(alloc: Global, rows: Rows) -> Option<Rows>
    ensures { MatchOption result (rows ≡ nothing) (λ kept. kept ≡ rows) }
{
    if is_nothing(alloc, &rows) {
        None
    } else {
        Some(rows)
    }
}

/// Whether the rows are the row -1 alone.
fn is_nothing(alloc: Global, rows: &Rows) -> bool
    ensures { IsTrue result ↔ (rows.now ≡ nothing) }
{
    rows.len() == 1 && is_never(alloc, rows.at(0))
}

/// Whether the row is the row -1.
fn is_never(alloc: Global, r: &Row) -> bool
    ensures { IsTrue result ↔ (r.now ≡ never_row) }
{
    are_same(r, &Row::of_constant(alloc, -1))
}

/// Whether two rows are the same.
fn are_same(a: &Row, b: &Row) -> bool
    ensures { IsTrue result ↔ (a.now ≡ b.now) }
{
    if a.is_at_most(b) {
        b.is_at_most(a)
    } else {
        false
    }
}
