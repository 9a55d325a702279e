//! All variables are eliminated in order, and a point is taken back over them.
//!
//! Going back over a variable needs the rows that were there before it was eliminated. These are
//! made anew from the start instead of kept, since all of them together would take hundreds of
//! megabytes: no more than two lists of rows are held at a time.

ghost use Rattle.std.specs.Prelude.{◌≡◌, ◌<◌, ◌≤◌, IfOk, length};
ghost use Rattle.pc_elim.specs.declared.made.TheConstants.{LIMIT};
ghost use Rattle.pc_elim.specs.Elimination.{eliminated, level};
ghost use Rattle.pc_elim.specs.Places.{has_variable};
ghost use Rattle.pc_elim.specs.Placing.{placed};
ghost use Rattle.pc_elim.specs.Settling.{contradiction_of, taken_back, settle};
ghost use Rattle.pc_elim.specs.Fits.{EliminationFits, LevelFits, PlacedFits, BackFits};
ghost use Rattle.pc_elim.specs.Steps.{SettleFits, SettleIs};

use crate::bound::placed;
use crate::contradiction::{contradiction, last_contradiction};
use crate::made::{Fault, Made, PARTS};
use crate::pairs::eliminated;
use pc_rows::{Number, Past, Point, VARIABLES};
use sqlite_items::Items;
use std::alloc::Global;

/// How rows are settled.
#[derive(Drop)]
pub enum Found {
    /// By multipliers that make a contradiction of the rows at the start.
    Shown([Number; PARTS]),
    /// By a point that meets all rows.
    At(Point),
}

/// Settles the rows. `Full` and `Past` come exactly where an elimination would make more than `LIMIT`
/// rows or a number that this takes is not in range.
pub fn settle(alloc: Global, rows: &[Made]) -> Result<Found, Fault>
    requires { length rows.now ≤ LIMIT }
    ensures { SettleIs (settle VARIABLES rows.now) (SettleFits VARIABLES rows.now) result }
{
    match last(alloc, VARIABLES as u32, rows)? {
        Some(multipliers) => Ok(Found::Shown(multipliers)),
        None => {
            let p = taken_back(alloc, VARIABLES as u32, rows, Point::origin())?;
            Ok(Found::At(p))
        }
    }
}

/// The multipliers of the first contradiction among the rows without the first `k` variables. Of
/// the last of these variables that occurs the combinations are looked at one by one.
fn last(alloc: Global, k: u32, start: &[Made]) -> Result<Option<[Number; PARTS]>, Fault>
    requires variable { k ≤ VARIABLES }
    requires most { length start.now ≤ LIMIT }
    ensures { SettleIs (contradiction_of (level k start.now)) (LevelFits k start.now) result }
{
    if k == 0 {
        return Ok(contradiction(start));
    }
    if !has_variable(k - 1, start) {
        return last(alloc, k - 1, start);
    }
    let rows = level(alloc, k - 1, start)?;
    last_contradiction(alloc, k - 1, rows.as_slice())
}

/// Takes a point that meets the rows without the first `k` variables back over these, from the last
/// of them to the first.
fn taken_back(alloc: Global, k: u32, start: &[Made], p: Point) -> Result<Point, Fault>
    requires variable { k ≤ VARIABLES }
    requires most { length start.now ≤ LIMIT }
    requires levels { LevelFits k start.now }
    ensures { SettleIs (taken_back k start.now p) (BackFits k start.now p) result }
{
    if k == 0 {
        return Ok(p);
    }
    let earlier = taken_over(alloc, k - 1, start, p)?;
    taken_back(alloc, k - 1, start, earlier)
}

/// Takes a point that meets the rows without the first `k + 1` variables back over variable `k`. A
/// variable that the rows at the start lack keeps its place, since no later row has it.
fn taken_over(alloc: Global, k: u32, start: &[Made], p: Point) -> Result<Point, Fault>
    requires variable { k < VARIABLES }
    requires most { length start.now ≤ LIMIT }
    requires levels { LevelFits k start.now }
    ensures { SettleIs (placed k (level k start.now) p) (PlacedFits k (level k start.now) p) result }
{
    if !has_variable(k, start) {
        return Ok(p);
    }
    let rows = level(alloc, k, start)?;
    match placed(k, rows.as_slice(), p) {
        Ok(p) => Ok(p),
        Err(Past) => Err(Fault::Past),
    }
}

/// The rows without the first `k` variables.
fn level(alloc: Global, k: u32, start: &[Made]) -> Result<Items<Made>, Fault>
    requires variable { k ≤ VARIABLES }
    requires most { length start.now ≤ LIMIT }
    ensures value { SettleIs (level k start.now) (LevelFits k start.now) result }
    ensures most { IfOk result (λ rows. length rows ≤ LIMIT) }
{
    let mut rows = copies(alloc, start)?;
    for j in 0..k {
        rows = next(alloc, j, rows)?;
    }
    Ok(rows)
}

/// The rows without variable `j`. Where no row has it they are the same rows.
fn next(alloc: Global, j: u32, rows: Items<Made>) -> Result<Items<Made>, Fault>
    requires variable { j < VARIABLES }
    requires most { length rows ≤ LIMIT }
    ensures value { SettleIs (eliminated j rows) (EliminationFits j rows) result }
    ensures most { IfOk result (λ made. length made ≤ LIMIT) }
{
    if !has_variable(j, rows.as_slice()) {
        return Ok(rows);
    }
    eliminated(alloc, j, rows.as_slice())
}

fn copies(alloc: Global, rows: &[Made]) -> Result<Items<Made>, Fault>
    ensures { SettleIs rows.now (Unit {0}) result }
{
    let mut all = Items::new(alloc);
    for r in rows {
        match all.push(r.copy()) {
            Ok(()) => {}
            Err(_) => return Err(Fault::NoMemory),
        }
    }
    Ok(all)
}

fn has_variable(k: u32, rows: &[Made]) -> bool
    requires { k < VARIABLES }
    ensures { result ≡ has_variable k rows.now }
{
    rows.iter().any(|r| !r.factor(k).is_zero())
}
