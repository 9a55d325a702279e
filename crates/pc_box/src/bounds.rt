//! Boxes that are not empty.

ghost use Rattle.std.specs.Prelude.{◌≡◌, ◌<◌, ◌≤◌, [], length, IfOk};
ghost use Rattle.pc_language.specs.Ends.{end_of};
ghost use Rattle.pc_rows.specs.declared.row.TheConstants.{VARIABLES};
ghost use Rattle.pc_flow.specs.Arc.{BoundsFit};
ghost use Rattle.pc_box.specs.Boxes.{interval_at, put, entered, hulls, steadies, are_within, rows_below};
ghost use Rattle.pc_box.specs.Forward.{with_intervals, assigned};

use crate::form::{Side, end_of_form};
use crate::interval::Interval;
use crate::intervals::{
    Intervals, are_within, copied, entered, hulls, interval_at, put, rows_of, steadies,
};
use pc_domain::NoMemory;
use pc_language::{Bound, end_of};
use pc_rows::Row;
use sqlite_items::Items;
use std::alloc::Global;
use std::marker::Model;

/// The number of variables that the box was made for, and an interval for each variable from number 0 on. The variables
/// behind these are free.
#[derive(Drop)]
pub struct Bounds {
    hint: u32,
    intervals: Intervals,
}

impl Model for Bounds {
    ghost use Rattle.std.specs.Prelude.{◌≤◌, length};
    ghost use Rattle.pc_rows.specs.declared.row.TheConstants.{VARIABLES};
    ghost use Rattle.pc_box.specs.Boxes.{Bounded};

    ghost Value = { Bounded };

    ghost view = { λ b. record { hint = b.hint; intervals = b.intervals } };

    ghost invariant = { λ b. (b.hint ≤ VARIABLES) × (length b.intervals ≤ VARIABLES) };
}

impl Bounds {
    /// No bounds.
    pub(crate) fn none(alloc: Global, hint: u32) -> Bounds
        requires { hint ≤ VARIABLES }
        ensures { result ≡ record { hint = hint; intervals = [] } }
    {
        Bounds {
            hint,
            intervals: Items::new(alloc),
        }
    }

    /// The same bounds.
    pub(crate) fn copy(&self, alloc: Global) -> Result<Bounds, NoMemory>
        ensures { IfOk result (λ b. b ≡ self.now) }
    {
        let intervals = copied(alloc, &self.intervals)?;
        Ok(Bounds {
            hint: self.hint,
            intervals,
        })
    }

    /// The intervals of the variables, in order.
    pub(crate) fn intervals(&self) -> &Intervals
        ensures value { result.now ≡ self.now.intervals }
        ensures few { length self.now.intervals ≤ VARIABLES }
    {
        &self.intervals
    }

    /// The bounds with other intervals.
    pub(crate) fn with_intervals(&self, intervals: Intervals) -> Bounds
        requires { length intervals ≤ VARIABLES }
        ensures { result ≡ with_intervals self.now intervals }
    {
        Bounds {
            hint: self.hint,
            intervals,
        }
    }

    /// The interval of a variable.
    pub(crate) fn at(&self, v: u32) -> Interval
        ensures { result ≡ interval_at self.now.intervals v }
    {
        interval_at(&self.intervals, v as usize)
    }

    /// The bounds with another interval for a variable.
    pub(crate) fn with(
        &self,
        alloc: Global,
        x: u32,
        interval: &Interval,
    ) -> Result<Bounds, NoMemory>
        requires { x < VARIABLES }
        ensures { IfOk result (λ b. b ≡ with_intervals self.now (put self.now.intervals x interval.now)) }
    {
        let intervals = put(alloc, &self.intervals, x as usize, interval)?;
        Ok(Bounds {
            hint: self.hint,
            intervals,
        })
    }

    /// The variables from number `params` on are 0, those below the hint; the other ones from there on are free.
    pub(crate) fn entered(&self, alloc: Global, params: u32) -> Result<Bounds, NoMemory>
        requires { params ≤ VARIABLES }
        ensures { IfOk result (λ b. b ≡ with_intervals self.now (entered params self.now.hint self.now.intervals)) }
    {
        let intervals = entered(alloc, &self.intervals, params as usize, self.hint as usize)?;
        Ok(Bounds {
            hint: self.hint,
            intervals,
        })
    }

    /// The variable `x` becomes the form's value plus an integer of the choice.
    pub(crate) fn assigned(
        &self,
        alloc: Global,
        x: u32,
        form: &Row,
        lo: Bound,
        hi: Bound,
    ) -> Result<Bounds, NoMemory>
        requires variable { x < VARIABLES }
        requires choice { BoundsFit lo hi }
        ensures { IfOk result (λ b. b ≡ assigned self.now x form.now (end_of lo) (end_of hi)) }
    {
        let least = end_of_form(Side::Least, &self.intervals, form, end_of(lo));
        let greatest = end_of_form(Side::Greatest, &self.intervals, form, end_of(hi));
        self.with(alloc, x, &Interval { least, greatest })
    }

    /// The hull of the two.
    pub(crate) fn hull(&self, alloc: Global, other: &Bounds) -> Result<Bounds, NoMemory>
        ensures { IfOk result (λ b. b ≡ with_intervals self.now (hulls self.now.intervals other.now.intervals)) }
    {
        let intervals = hulls(alloc, &self.intervals, &other.intervals)?;
        Ok(Bounds {
            hint: self.hint,
            intervals,
        })
    }

    /// The hull in which each bound that moved is absent.
    pub(crate) fn steady(&self, alloc: Global, newer: &Bounds) -> Result<Bounds, NoMemory>
        ensures { IfOk result (λ b. b ≡ with_intervals self.now (steadies self.now.intervals newer.now.intervals)) }
    {
        let intervals = steadies(alloc, &self.intervals, &newer.intervals)?;
        Ok(Bounds {
            hint: self.hint,
            intervals,
        })
    }

    /// Whether it lies within `other`.
    pub(crate) fn is_within(&self, other: &Bounds) -> bool
        ensures { result ≡ are_within self.now.intervals other.now.intervals }
    {
        are_within(&self.intervals, &other.intervals)
    }

    /// The rows of the bounds, variable by variable.
    pub(crate) fn rows(&self, alloc: Global) -> Result<Items<Row>, NoMemory>
        ensures rows { IfOk result (λ rows. rows ≡ rows_below self.now.intervals (length self.now.intervals)) }
        ensures few { length self.now.intervals ≤ VARIABLES }
    {
        rows_of(alloc, &self.intervals)
    }

    /// How many variables have an interval of their own.
    pub(crate) fn len(&self) -> usize
        ensures value { result ≡ length self.now.intervals }
        ensures few { result ≤ VARIABLES }
    {
        self.intervals.len()
    }
}
