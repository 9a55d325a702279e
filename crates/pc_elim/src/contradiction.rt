//! The first contradiction among rows without variables.
//!
//! Where numbers are small the last variable is not eliminated row by row: of a combination without
//! variables only the constant is computed, and its multipliers where it is a contradiction. No
//! number leaves the range there, so that the answer is the same.

ghost use Rattle.std.specs.Prelude.{◌≡◌, ◌<◌, ◌≤◌, Some, ◌+ℤ◌, ◌*ℤ◌, OkIff, [], ◌∷◌, length};
ghost use Rattle.std.specs.List.{AllByRecursion};
ghost use Rattle.pc_elim.specs.declared.made.TheConstants.{LIMIT};
ghost use Rattle.pc_elim.specs.Elimination.{combine, factor, flat, with_each, kept_of, combined_of, eliminated};
ghost use Rattle.pc_elim.specs.Places.{places_below};
ghost use Rattle.pc_elim.specs.Settling.{contradiction_of};
ghost use Rattle.pc_elim.specs.Fits.{CombineFits, PairFits, AllPairsFit, EliminationFits};
ghost use Rattle.pc_elim.specs.Steps.{ConstantFits, SettleIs, Unless};

use crate::made::{Fault, LIMIT, Made, PARTS, is_positive};
use crate::pairs::{combined, eliminated};
use crate::places::{made_count, places_below};
use crate::small::are_small;
use pc_rows::{Number, Past, VARIABLES};
use std::alloc::Global;

/// The multipliers of the first contradiction.
pub fn contradiction(rows: &[Made]) -> Option<[Number; PARTS]>
    ensures { result ≡ contradiction_of rows.now }
{
    for r in rows {
        if r.is_contradiction() {
            return Some(*r.multipliers());
        }
    }
    None
}

/// The multipliers of the first contradiction among the rows without variable `k`, where no row has
/// a later variable.
pub fn last_contradiction(
    alloc: Global,
    k: u32,
    rows: &[Made],
) -> Result<Option<[Number; PARTS]>, Fault>
    requires variable { k < VARIABLES }
    requires most { length rows.now ≤ LIMIT }
    ensures { SettleIs (contradiction_of (eliminated k rows.now)) (EliminationFits k rows.now) result }
{
    if !are_small(rows) {
        let made = eliminated(alloc, k, rows)?;
        return Ok(contradiction(made.as_slice()));
    }
    let below = places_below(alloc, k, rows)?;
    let _count = made_count(k, rows, below.len())?;
    match kept(k, rows) {
        Some(multipliers) => Ok(Some(multipliers)),
        None => each(k, rows, below.as_slice()),
    }
}

/// The first contradiction among the rows that do not have the variable.
fn kept(k: u32, rows: &[Made]) -> Option<[Number; PARTS]>
    requires { k < VARIABLES }
    ensures { result ≡ contradiction_of (flat (kept_of k) rows.now) }
{
    for r in rows {
        if r.factor(k).is_zero() && r.is_contradiction() {
            return Some(*r.multipliers());
        }
    }
    None
}

/// The first contradiction among the combinations. The rows with a negative coefficient are those
/// at the places `below`.
fn each(k: u32, all: &[Made], below: &[usize]) -> Result<Option<[Number; PARTS]>, Fault>
    requires variable { k < VARIABLES }
    requires most { length all.now ≤ LIMIT }
    requires places { below.now ≡ places_below k 0 all.now }
    ensures { Unless (contradiction_of (flat (combined_of k all.now) all.now)) (AllByRecursion (AllPairsFit k all.now) all.now) result }
{
    for r in all {
        match one(k, r, all, below)? {
            Some(multipliers) => return Ok(Some(multipliers)),
            None => {}
        }
    }
    Ok(None)
}

fn one(k: u32, r: &Made, all: &[Made], below: &[usize]) -> Result<Option<[Number; PARTS]>, Fault>
    requires variable { k < VARIABLES }
    requires most { length all.now ≤ LIMIT }
    requires places { below.now ≡ places_below k 0 all.now }
    ensures { Unless (contradiction_of (combined_of k all.now r.now)) (AllPairsFit k all.now r.now) result }
{
    if is_positive(r.factor(k)) {
        pairs(k, r, all, below)
    } else {
        Ok(None)
    }
}

fn pairs(k: u32, p: &Made, all: &[Made], below: &[usize]) -> Result<Option<[Number; PARTS]>, Fault>
    requires variable { k < VARIABLES }
    requires most { length all.now ≤ LIMIT }
    requires places { below.now ≡ places_below k 0 all.now }
    ensures { Unless (contradiction_of (with_each k p.now all.now)) (AllByRecursion (PairFits k p.now) all.now) result }
{
    for i in below {
        match pair(k, p, &all[*i])? {
            Some(multipliers) => return Ok(Some(multipliers)),
            None => {}
        }
    }
    Ok(None)
}

/// The multipliers of the combination of the two rows, where it is a contradiction.
fn pair(k: u32, p: &Made, n: &Made) -> Result<Option<[Number; PARTS]>, Fault>
    requires { k < VARIABLES }
    ensures { Unless (contradiction_of (combine k p.now n.now ∷ [])) (CombineFits k p.now n.now) result }
{
    match constant(n.factor(k).negated(), p, p.factor(k), n) {
        Ok(constant) => {
            if constant.is_at_least_zero() {
                return Ok(None);
            }
            multipliers(k, p, n)
        }
        Err(Past) => Err(Fault::Past),
    }
}

/// The constant of `b` times the first row plus `a` times the second.
fn constant(b: Number, p: &Made, a: Number, n: &Made) -> Result<Number, Past>
    ensures { OkIff result (ConstantFits b p.now.row.constant a n.now.row.constant) (b *ℤ p.now.row.constant +ℤ a *ℤ n.now.row.constant) }
{
    let first = b.times(Number::new(p.row().constant()))?;
    first.plus_product(a, Number::new(n.row().constant()))
}

fn multipliers(k: u32, p: &Made, n: &Made) -> Result<Option<[Number; PARTS]>, Fault>
    requires { k < VARIABLES }
    ensures { Unless (Some (combine k p.now n.now).multipliers) (CombineFits k p.now n.now) result }
{
    match combined(k, p, n) {
        Ok(made) => Ok(Some(*made.multipliers())),
        Err(Past) => Err(Fault::Past),
    }
}
