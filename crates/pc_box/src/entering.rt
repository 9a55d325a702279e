//! The entry backwards.

ghost use Rattle.std.specs.Prelude.{◌≡◌, min, length, IfOk};
ghost use Rattle.pc_box.specs.Boxes.{all_below};
ghost use Rattle.pc_box.specs.Backward.{may_be_zero, firsts, before_enter};

use crate::bounds::Bounds;
use crate::interval::Interval;
use crate::intervals::{Intervals, interval_at, push};
use pc_domain::NoMemory;
use sqlite_items::Items;
use std::alloc::Global;

/// The bounds of the first `params` variables; None where 0 is not enough for one behind them.
pub(crate) fn before_enter(
    alloc: Global,
    bounds: &Bounds,
    params: u32,
) -> Result<Option<Bounds>, NoMemory>
    ensures { IfOk result (λ o. o ≡ before_enter params bounds.now) }
{
    if all_may_be_zero(bounds.intervals(), params as usize) {
        let first = firsts(alloc, bounds.intervals(), params as usize)?;
        Ok(Some(bounds.with_intervals(first)))
    } else {
        Ok(None)
    }
}

fn all_may_be_zero(intervals: &Intervals, params: usize) -> bool
    ensures { result ≡ all_below (may_be_zero params intervals.now) (length intervals.now) }
{
    for v in 0..intervals.len() {
        if !may_be_zero(intervals, params, v) {
            return false;
        }
    }
    true
}

/// Whether a variable is a parameter, or may be 0.
fn may_be_zero(intervals: &Intervals, params: usize, v: usize) -> bool
    ensures { result ≡ may_be_zero params intervals.now v }
{
    v < params || Interval::only_zero().is_within(interval_at(intervals, v))
}

fn firsts(alloc: Global, intervals: &Intervals, params: usize) -> Result<Intervals, NoMemory>
    ensures value { IfOk result (λ list. list ≡ firsts params intervals.now) }
    ensures long { IfOk result (λ list. length list ≡ min params (length intervals.now)) }
{
    let mut list = Items::new(alloc);
    for v in 0..params.min(intervals.len()) {
        push(&mut list, interval_at(intervals, v))?;
    }
    Ok(list)
}
