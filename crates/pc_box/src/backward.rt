//! Boxes as a backward domain.

ghost use Rattle.std.specs.Prelude.{◌≡◌, Some, IfOk};
ghost use Rattle.pc_flow.specs.declared.what.What.TheVariants.{Enter};
ghost use Rattle.pc_box.specs.declared.limits.TheConstants.{NARROWING_ROUND};
ghost use Rattle.pc_box.specs.Boxes.{HasBox, rows_of};
ghost use Rattle.pc_box.specs.Meeting.{both_of, is_box_within};
ghost use Rattle.pc_box.specs.Backward.{before_of, narrower, box_back_says};
ghost use Rattle.pc_box.specs.Views.{view_of};

use crate::assigning::before_set;
use crate::bounds::Bounds;
use crate::claiming::claimed_rows;
use crate::entering::before_enter;
use crate::limits::NARROWING_ROUND;
use crate::meeting::both;
use crate::member::Box16;
use pc_domain::{Backward, NoMemory};
use pc_flow::{Edge, What};
use pc_rows::Row;
use sqlite_items::Items;
use std::alloc::Global;

/// What an edge asks for a box at its target.
fn before_edge(alloc: Global, b: &Box16, edge: &Edge) -> Result<Box16, NoMemory>
    ensures { IfOk result (λ v. v ≡ before_of edge.now.what b.now) }
{
    match b.bounds() {
        Some(bounds) => Ok(Box16::of(bounds_before(alloc, bounds, edge)?)),
        None => Ok(Box16::of(None)),
    }
}

/// What an edge asks for bounds at its target; None is the empty box.
fn bounds_before(alloc: Global, bounds: &Bounds, edge: &Edge) -> Result<Option<Bounds>, NoMemory>
    ensures { IfOk result (λ b. b ≡ before_of edge.now.what (Some bounds.now)) }
{
    match &edge.what {
        What::Enter { params } => before_enter(alloc, bounds, *params),
        What::Test(_) => Ok(Some(bounds.copy(alloc)?)),
        What::Set { var, form, lo, hi } => before_set(alloc, bounds, *var, form, *lo, *hi),
        What::Check(rows) => claimed_rows(alloc, bounds, rows),
    }
}

/// The intersection of the two.
fn both_boxes(alloc: Global, a: &Box16, b: &Box16) -> Result<Box16, NoMemory>
    ensures { IfOk result (λ v. v ≡ both_of a.now b.now) }
{
    match (a.bounds(), b.bounds()) {
        (Some(a), Some(b)) => Ok(Box16::of(both(alloc, a, b)?)),
        _ => Ok(Box16::of(None)),
    }
}

/// Whether the one box lies within the other.
fn is_box_within(a: &Box16, b: &Box16) -> bool
    ensures { result ≡ is_box_within a.now b.now }
{
    match (a.bounds(), b.bounds()) {
        (None, _) => true,
        (Some(_), None) => false,
        (Some(a), Some(b)) => a.is_within(b),
    }
}

/// The old box narrowed by a newer one, or None where it lies within that.
fn narrower(
    alloc: Global,
    old: &Box16,
    newer: &Box16,
    round: u32,
) -> Result<Option<Box16>, NoMemory>
    ensures { IfOk result (λ o. o ≡ narrower old.now newer.now round) }
{
    if is_box_within(old, newer) {
        Ok(None)
    } else if round < NARROWING_ROUND {
        Ok(Some(both_boxes(alloc, old, newer)?))
    } else {
        Ok(Some(Box16::of(None)))
    }
}

/// The box before the edge of the entry.
fn before_entry(alloc: Global, b: &Box16, params: u32) -> Result<Box16, NoMemory>
    ensures { IfOk result (λ v. v ≡ before_of (Enter params) b.now) }
{
    match b.bounds() {
        Some(bounds) => Ok(Box16::of(before_enter(alloc, bounds, params)?)),
        None => Ok(Box16::of(None)),
    }
}

impl Backward for Box16 {
    ghost has = { HasBox };

    ghost view = { view_of };

    ghost says = { box_back_says };

    ghost LAST_ROUND = { NARROWING_ROUND };

    const LAST_ROUND: u32 = NARROWING_ROUND;

    fn everything(alloc: Global, variables: u32) -> Result<Self, NoMemory> {
        Ok(Box16::of(Some(Bounds::none(alloc, variables))))
    }

    fn nothing(_alloc: Global, _variables: u32) -> Result<Self, NoMemory> {
        Ok(Box16::of(None))
    }

    fn before(&self, alloc: Global, edge: &Edge) -> Result<Self, NoMemory> {
        before_edge(alloc, self, edge)
    }

    fn both(&self, alloc: Global, other: &Self) -> Result<Self, NoMemory> {
        both_boxes(alloc, self, other)
    }

    fn narrow(&self, alloc: Global, newer: &Self, round: u32) -> Result<Option<Self>, NoMemory> {
        narrower(alloc, self, newer, round)
    }

    fn entry_rows(&self, alloc: Global, params: u32) -> Result<Items<Row>, NoMemory> {
        // it tells that there are no more intervals than a row has variables
        let _width = self.width();
        let entry = before_entry(alloc, self, params)?;
        entry.told(alloc)
    }
}
