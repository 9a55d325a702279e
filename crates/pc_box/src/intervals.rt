//! Lists of intervals, one for each variable in order; the variables behind them are free.

ghost use Rattle.std.specs.Prelude.{◌≡◌, ◌+◌, ◌<◌, ◌≤◌, ◌++◌, ◌∷◌, [], max, min, length, IfOk, OnOk};
ghost use Rattle.pc_rows.specs.declared.row.TheConstants.{VARIABLES};
ghost use Rattle.pc_box.specs.Boxes.{interval_at, exchanged, put, entered_at, entered, hulls, steadies, are_within, least_rows, greatest_rows, rows_below};

use crate::interval::Interval;
use pc_domain::NoMemory;
use pc_rows::{Number, Row};
use sqlite_items::Items;
use std::alloc::Global;

pub(crate) type Intervals = Items<Interval>;

/// The interval of a variable.
pub(crate) fn interval_at(intervals: &Intervals, v: usize) -> Interval
    ensures { result ≡ interval_at intervals.now v }
{
    match intervals.get(v) {
        Some(interval) => *interval,
        None => Interval::free(),
    }
}

/// The same intervals.
pub(crate) fn copied(alloc: Global, intervals: &Intervals) -> Result<Intervals, NoMemory>
    ensures { IfOk result (λ list. list ≡ intervals.now) }
{
    Ok(Items::from_slice(alloc, intervals.as_slice())?)
}

/// The intervals with another one for variable `x`.
pub(crate) fn put(
    alloc: Global,
    intervals: &Intervals,
    x: usize,
    interval: &Interval,
) -> Result<Intervals, NoMemory>
    requires { x < VARIABLES }
    ensures value { IfOk result (λ list. list ≡ put intervals.now x interval.now) }
    ensures long { IfOk result (λ list. length list ≡ max (x + 1) (length intervals.now)) }
{
    let mut list = Items::new(alloc);
    for v in 0..intervals.len().max(x + 1) {
        push(&mut list, exchanged(intervals, x, interval, v))?;
    }
    Ok(list)
}

fn exchanged(intervals: &Intervals, x: usize, interval: &Interval, v: usize) -> Interval
    ensures { result ≡ exchanged intervals.now x interval.now v }
{
    if v == x {
        *interval
    } else {
        interval_at(intervals, v)
    }
}

/// The variables from number `params` on are 0, those below `hint`; the other ones from there on are free.
pub(crate) fn entered(
    alloc: Global,
    intervals: &Intervals,
    params: usize,
    hint: usize,
) -> Result<Intervals, NoMemory>
    ensures value { IfOk result (λ list. list ≡ entered params hint intervals.now) }
    ensures long { IfOk result (λ list. length list ≡ max params hint) }
{
    let mut list = Items::new(alloc);
    for v in 0..params.max(hint) {
        push(&mut list, entered_at(intervals, params, v))?;
    }
    Ok(list)
}

fn entered_at(intervals: &Intervals, params: usize, v: usize) -> Interval
    ensures { result ≡ entered_at params intervals.now v }
{
    if v < params {
        interval_at(intervals, v)
    } else {
        Interval::only_zero()
    }
}

/// The hull of two lists.
pub(crate) fn hulls(alloc: Global, a: &Intervals, b: &Intervals) -> Result<Intervals, NoMemory>
    ensures value { IfOk result (λ list. list ≡ hulls a.now b.now) }
    ensures long { IfOk result (λ list. length list ≡ min (length a.now) (length b.now)) }
{
    let mut list = Items::new(alloc);
    for v in 0..a.len().min(b.len()) {
        push(&mut list, interval_at(a, v).hull(interval_at(b, v)))?;
    }
    Ok(list)
}

/// The hull in which each end that moved is absent.
pub(crate) fn steadies(
    alloc: Global,
    old: &Intervals,
    newer: &Intervals,
) -> Result<Intervals, NoMemory>
    ensures value { IfOk result (λ list. list ≡ steadies old.now newer.now) }
    ensures long { IfOk result (λ list. length list ≡ length old.now) }
{
    let mut list = Items::new(alloc);
    for v in 0..old.len() {
        push(&mut list, interval_at(old, v).steady(interval_at(newer, v)))?;
    }
    Ok(list)
}

/// Adds an interval at the end.
pub(crate) fn push(list: &mut Intervals, interval: Interval) -> Result<(), NoMemory>
    ensures { OnOk result (list.new ≡ list.old ++ interval ∷ []) }
{
    // the proof has to see the type of the ends, and sees it only where it is written
    let least: Option<Number> = interval.least;
    list.push(Interval {
        least,
        greatest: interval.greatest,
    })?;
    Ok(())
}

/// Whether each interval of `a` lies within that of `b`.
pub(crate) fn are_within(a: &Intervals, b: &Intervals) -> bool
    ensures { result ≡ are_within a.now b.now }
{
    for v in 0..b.len() {
        if !interval_at(a, v).is_within(interval_at(b, v)) {
            return false;
        }
    }
    true
}

/// The rows of the ends, variable by variable.
pub(crate) fn rows_of(alloc: Global, intervals: &Intervals) -> Result<Items<Row>, NoMemory>
    requires { length intervals.now ≤ VARIABLES }
    ensures { IfOk result (λ rows. rows ≡ rows_below intervals.now (length intervals.now)) }
{
    let mut rows = Items::new(alloc);
    for v in 0..intervals.len() {
        push_rows(alloc, &mut rows, v as u32, interval_at(intervals, v))?;
    }
    Ok(rows)
}

/// Adds the rows of a variable's ends.
fn push_rows(
    alloc: Global,
    rows: &mut Items<Row>,
    v: u32,
    interval: Interval,
) -> Result<(), NoMemory>
    requires { v < VARIABLES }
    ensures { OnOk result (rows.new ≡ rows.old ++ (least_rows v interval.least ++ greatest_rows v interval.greatest)) }
{
    if let Some(n) = interval.least {
        rows.push(Row::of_constant(alloc, -n.get()).with(v, 1))?;
    }
    if let Some(n) = interval.greatest {
        rows.push(Row::of_constant(alloc, n.get()).with(v, -1))?;
    }
    Ok(())
}
