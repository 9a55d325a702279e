//! Which rows have a variable, and how many rows its elimination makes.

ghost use Rattle.std.specs.Prelude.{◌≡◌, ◌<◌, ◌≤◌, length, count_by};
ghost use Rattle.pc_rows.specs.Linear.{is_zero};
ghost use Rattle.pc_elim.specs.declared.made.TheConstants.{LIMIT};
ghost use Rattle.pc_elim.specs.Elimination.{factor, is_positive};
ghost use Rattle.pc_elim.specs.Places.{place_of, places_below};
ghost use Rattle.pc_elim.specs.Steps.{PlacesAdded, CountIs, SettleIs};

use crate::made::{Fault, LIMIT, Made, is_positive};
use pc_rows::VARIABLES;
use sqlite_items::Items;
use std::alloc::Global;

/// How many rows the elimination makes, where so many rows have the variable with a negative
/// coefficient. `Full` exactly where it would make more than `LIMIT`.
pub fn made_count(k: u32, rows: &[Made], below: usize) -> Result<usize, Fault>
    requires variable { k < VARIABLES }
    requires most { length rows.now ≤ LIMIT }
    requires places { below ≡ length (places_below k 0 rows.now) }
    ensures { CountIs k rows.now result }
{
    let count = free_count(k, rows) + above_count(k, rows) * below;
    if LIMIT < count {
        return Err(Fault::Full);
    }
    Ok(count)
}

/// How many rows do not have the variable.
fn free_count(k: u32, rows: &[Made]) -> usize
    requires { k < VARIABLES }
    ensures { result ≡ count_by (λ r. is_zero (factor r k)) rows.now }
{
    rows.iter().filter(|r| r.factor(k).is_zero()).count()
}

/// How many rows have the variable with a positive coefficient.
fn above_count(k: u32, rows: &[Made]) -> usize
    requires { k < VARIABLES }
    ensures { result ≡ count_by (λ r. is_positive (factor r k)) rows.now }
{
    rows.iter().filter(|r| is_positive(r.factor(k))).count()
}

/// The places of the rows that have the variable with a negative coefficient.
pub fn places_below(alloc: Global, k: u32, rows: &[Made]) -> Result<Items<usize>, Fault>
    requires { k < VARIABLES }
    ensures { SettleIs (places_below k 0 rows.now) (Unit {0}) result }
{
    let mut places = Items::new(alloc);
    for (i, r) in rows.iter().enumerate() {
        note(k, i, r, &mut places)?;
    }
    Ok(places)
}

fn note(k: u32, i: usize, r: &Made, places: &mut Items<usize>) -> Result<(), Fault>
    requires { k < VARIABLES }
    ensures { PlacesAdded (place_of k i r.now) places.old result places.new }
{
    if !is_positive(r.factor(k).negated()) {
        return Ok(());
    }
    match places.push(i) {
        Ok(()) => Ok(()),
        Err(_) => Err(Fault::NoMemory),
    }
}
