//! Elimination of one variable.

ghost use Rattle.std.specs.Prelude.{◌≡◌, ◌<◌, ◌≤◌, OkIff, IfOk, [], ◌∷◌, length};
ghost use Rattle.std.specs.List.{AllByRecursion};
ghost use Rattle.pc_rows.specs.Linear.{sum_of, scaled_by};
ghost use Rattle.pc_elim.specs.declared.made.TheConstants.{LIMIT};
ghost use Rattle.pc_elim.specs.Elimination.{combine, weigh, flat, with_each, kept_of, combined_of, eliminated};
ghost use Rattle.pc_elim.specs.Places.{places_below};
ghost use Rattle.pc_elim.specs.Fits.{RowFits, WeighFits, CombineFits, PairFits, AllPairsFit, EliminationFits};
ghost use Rattle.pc_elim.specs.Steps.{Adds, SettleIs};

use crate::made::{Fault, LIMIT, Made, PARTS, is_positive};
use crate::places::{made_count, places_below};
use pc_rows::{Number, Past, Row, VARIABLES, products, sums};
use sqlite_items::Items;
use std::alloc::Global;

/// The rows without variable `k`: those that do not have it, and then for each that has it with a
/// positive coefficient its combinations with those that have it with a negative one. Nothing is
/// combined where these would be too many.
pub fn eliminated(alloc: Global, k: u32, rows: &[Made]) -> Result<Items<Made>, Fault>
    requires variable { k < VARIABLES }
    requires most { length rows.now ≤ LIMIT }
    ensures value { SettleIs (eliminated k rows.now) (EliminationFits k rows.now) result }
    ensures most { IfOk result (λ made. length made ≤ LIMIT) }
{
    let below = places_below(alloc, k, rows)?;
    let count = made_count(k, rows, below.len())?;
    let mut out = with_room(alloc, count)?;
    keep(k, rows, &mut out)?;
    combine_each(k, rows, below.as_slice(), &mut out)?;
    Ok(out)
}

/// No rows, with room for `count`: the room is taken at once, so that no list is copied as it
/// grows.
fn with_room(alloc: Global, count: usize) -> Result<Items<Made>, Fault>
    ensures { SettleIs [] (Unit {0}) result }
{
    match Vec::with_capacity(alloc, count) {
        Ok(rows) => Ok(Items::from_vec(rows)),
        Err(_) => Err(Fault::NoMemory),
    }
}

/// Adds the rows that do not have the variable.
fn keep(k: u32, rows: &[Made], out: &mut Items<Made>) -> Result<(), Fault>
    requires { k < VARIABLES }
    ensures { Adds (flat (kept_of k) rows.now) (Unit {0}) out.old result out.new }
{
    for r in rows {
        keep_one(k, r, out)?;
    }
    Ok(())
}

fn keep_one(k: u32, r: &Made, out: &mut Items<Made>) -> Result<(), Fault>
    requires { k < VARIABLES }
    ensures { Adds (kept_of k r.now) (Unit {0}) out.old result out.new }
{
    if r.factor(k).is_zero() {
        add(out, r.copy())
    } else {
        Ok(())
    }
}

/// Adds the combinations. The rows with a negative coefficient are those at the places `below`.
fn combine_each(k: u32, all: &[Made], below: &[usize], out: &mut Items<Made>) -> Result<(), Fault>
    requires variable { k < VARIABLES }
    requires most { length all.now ≤ LIMIT }
    requires places { below.now ≡ places_below k 0 all.now }
    ensures { Adds (flat (combined_of k all.now) all.now) (AllByRecursion (AllPairsFit k all.now) all.now) out.old result out.new }
{
    for r in all {
        combine_one(k, r, all, below, out)?;
    }
    Ok(())
}

fn combine_one(
    k: u32,
    r: &Made,
    all: &[Made],
    below: &[usize],
    out: &mut Items<Made>,
) -> Result<(), Fault>
    requires variable { k < VARIABLES }
    requires most { length all.now ≤ LIMIT }
    requires places { below.now ≡ places_below k 0 all.now }
    ensures { Adds (combined_of k all.now r.now) (AllPairsFit k all.now r.now) out.old result out.new }
{
    if is_positive(r.factor(k)) {
        pairs(k, r, all, below, out)
    } else {
        Ok(())
    }
}

fn pairs(
    k: u32,
    p: &Made,
    all: &[Made],
    below: &[usize],
    out: &mut Items<Made>,
) -> Result<(), Fault>
    requires variable { k < VARIABLES }
    requires most { length all.now ≤ LIMIT }
    requires places { below.now ≡ places_below k 0 all.now }
    ensures { Adds (with_each k p.now all.now) (AllByRecursion (PairFits k p.now) all.now) out.old result out.new }
{
    for i in below {
        pair(k, p, &all[*i], out)?;
    }
    Ok(())
}

fn pair(k: u32, p: &Made, n: &Made, out: &mut Items<Made>) -> Result<(), Fault>
    requires { k < VARIABLES }
    ensures { Adds (combine k p.now n.now ∷ []) (CombineFits k p.now n.now) out.old result out.new }
{
    match combined(k, p, n) {
        Ok(made) => add(out, made),
        Err(_) => Err(Fault::Past),
    }
}

fn add(out: &mut Items<Made>, made: Made) -> Result<(), Fault>
    ensures { Adds (made ∷ []) (Unit {0}) out.old result out.new }
{
    match out.push(made) {
        Ok(()) => Ok(()),
        Err(_) => Err(Fault::NoMemory),
    }
}

/// The combination of the rows in which the variable is gone.
pub fn combined(k: u32, p: &Made, n: &Made) -> Result<Made, Past>
    requires { k < VARIABLES }
    ensures { OkIff result (CombineFits k p.now n.now) (combine k p.now n.now) }
{
    let b = n.factor(k).negated();
    let a = p.factor(k);
    let row = combined_row(b, p.row(), a, n.row())?;
    let multipliers = weighed(b, p.multipliers(), a, n.multipliers())?;
    Ok(Made::new(row, multipliers))
}

fn combined_row(b: Number, p: &Row, a: Number, n: &Row) -> Result<Row, Past>
    ensures { OkIff result (RowFits b p.now a n.now) (sum_of (scaled_by b p.now) (scaled_by a n.now)) }
{
    p.times(b)?.sum(&n.times(a)?)
}

fn weighed(
    b: Number,
    p: &[Number; PARTS],
    a: Number,
    n: &[Number; PARTS],
) -> Result<[Number; PARTS], Past>
    ensures { OkIff result (WeighFits b p.now a n.now) (weigh b p.now a n.now) }
{
    sums(&products(b, p)?, &products(a, n)?)
}
