//! The lower widening.

ghost use Rattle.std.specs.Prelude.{◌≡◌, ◌<◌, ◌≤◌, IfOk};
ghost use Rattle.pc_lower.specs.Narrowing.{nothing, IsJoined, IsKept, AreBelow};

use crate::steady::single;
use pc_entail::{reduce, shows_all};
use pc_rows::{NoMemory, Row, Rows, RowsFault, join};
use std::alloc::Global;

/// How many rounds join newer rows to the old ones. From the round of this number on, the first being round 0, old rows
/// stay only where they show the newer ones, so that rounds come to an end.
pub const JOINING_ROUNDS: u32 = 8;

/// Rows whose every state meets the old rows and the newer ones: the two joined, without what the other rows show; and from
/// round `JOINING_ROUNDS` on the old rows, where they are found to show each newer one. Where the join has too many rows, or
/// old rows do not stay, it is the one row -1, which no state meets.
pub fn narrow(alloc: Global, old: &Rows, newer: &Rows, round: u32) -> Result<Rows, NoMemory>
    ensures states { IfOk result (AreBelow old.now newer.now) }
    ensures early { round < JOINING_ROUNDS → IfOk result (IsJoined old.now newer.now) }
    ensures late { JOINING_ROUNDS ≤ round → IfOk result (IsKept old.now newer.now) }
{
    if round < JOINING_ROUNDS {
        reduced_join(alloc, old, newer)
    } else {
        kept(alloc, old, newer)
    }
}

/// The two lists joined, without the rows that the others show, or nothing where there are too many.
fn reduced_join(alloc: Global, old: &Rows, newer: &Rows) -> Result<Rows, NoMemory>
    ensures { IfOk result (IsJoined old.now newer.now) }
{
    match join(old, newer) {
        Ok(both) => reduce(alloc, &both),
        Err(RowsFault::Full) => nothing(alloc),
        Err(RowsFault::NoMemory) => Err(NoMemory),
    }
}

/// The old rows where they show each newer one, and else nothing.
fn kept(alloc: Global, old: &Rows, newer: &Rows) -> Result<Rows, NoMemory>
    ensures { IfOk result (IsKept old.now newer.now) }
{
    if shows_all(alloc, old, newer)? {
        old.copy()
    } else {
        nothing(alloc)
    }
}

/// The row -1 alone, which no state meets.
pub fn nothing(alloc: Global) -> Result<Rows, NoMemory>
    ensures { IfOk result (λ rows. rows ≡ nothing) }
{
    single(alloc, Row::of_constant(alloc, -1))
}
