//! Intersections.

ghost use Rattle.std.specs.Prelude.{◌≡◌, max, length, Some, IfOk};
ghost use Rattle.pc_box.specs.Boxes.{all_below};
ghost use Rattle.pc_box.specs.Meeting.{meet_least, meet_greatest, meet, meets, is_solid_at, both_of};

use crate::bounds::Bounds;
use crate::interval::{Interval, lowered, raised};
use crate::intervals::{Intervals, interval_at, push};
use pc_domain::NoMemory;
use pc_rows::Number;
use sqlite_items::Items;
use std::alloc::Global;

/// The intersection of the two; None where it is empty.
pub(crate) fn both(alloc: Global, a: &Bounds, b: &Bounds) -> Result<Option<Bounds>, NoMemory>
    ensures { IfOk result (λ o. o ≡ both_of (Some a.now) (Some b.now)) }
{
    let intervals = meets(alloc, a.intervals(), b.intervals())?;
    Ok(if are_solid(&intervals) {
        Some(a.with_intervals(intervals))
    } else {
        None
    })
}

/// The intersections, variable by variable.
fn meets(alloc: Global, a: &Intervals, b: &Intervals) -> Result<Intervals, NoMemory>
    ensures value { IfOk result (λ list. list ≡ meets a.now b.now) }
    ensures long { IfOk result (λ list. length list ≡ max (length a.now) (length b.now)) }
{
    let mut list = Items::new(alloc);
    for v in 0..a.len().max(b.len()) {
        push(&mut list, meet(interval_at(a, v), interval_at(b, v)))?;
    }
    Ok(list)
}

/// The intersection of two intervals.
fn meet(i: Interval, j: Interval) -> Interval
    ensures { result ≡ meet i j }
{
    Interval {
        least: meet_least(i.least, j.least),
        greatest: meet_greatest(i.greatest, j.greatest),
    }
}

fn meet_least(m: Option<Number>, n: Option<Number>) -> Option<Number>
    ensures { result ≡ meet_least m n }
{
    match n {
        Some(n) => Some(raised(m, n)),
        None => m,
    }
}

fn meet_greatest(m: Option<Number>, n: Option<Number>) -> Option<Number>
    ensures { result ≡ meet_greatest m n }
{
    match n {
        Some(n) => Some(lowered(m, n)),
        None => m,
    }
}

/// Whether no interval is empty.
fn are_solid(intervals: &Intervals) -> bool
    ensures { result ≡ all_below (is_solid_at intervals.now) (length intervals.now) }
{
    for v in 0..intervals.len() {
        if interval_at(intervals, v).is_hollow() {
            return false;
        }
    }
    true
}
