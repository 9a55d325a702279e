//! Boxes as a domain.

ghost use Rattle.std.specs.Prelude.{◌≡◌, ℕ, ◌<◌, ◌≤◌, ◌⊎◌, None, MatchOption, IfOk};
ghost use Rattle.pc_rows.specs.Linear.{State};
ghost use Rattle.pc_box.specs.declared.limits.TheConstants.{WIDENING_ROUND};
ghost use Rattle.pc_box.specs.Boxes.{HasBox, IsNarrow, join_of, rows_of};
ghost use Rattle.pc_box.specs.Forward.{after_of, widened, parts_of, few_parts};
ghost use Rattle.pc_box.specs.Views.{view_of, box_says, boundless};

use crate::bounds::Bounds;
use crate::cutting::cut_rows;
use crate::limits::WIDENING_ROUND;
use pc_domain::{Forward, NoMemory};
use pc_flow::{Edge, What};
use pc_rows::Row;
use sqlite_items::Items;
use std::alloc::Global;
use std::marker::Model;

/// For each variable a least and a greatest number, either of which may be absent, or no state at all.
#[derive(Drop)]
pub struct Box16 {
    bounds: Option<Bounds>,
}

impl Model for Box16 {
    ghost use Rattle.pc_box.specs.Boxes.{Box};

    ghost Value = { Box };

    ghost view = { λ b. b.bounds };
}

impl Box16 {
    /// The box of these bounds; None is the empty box.
    pub(crate) fn of(bounds: Option<Bounds>) -> Box16
        ensures { result ≡ bounds }
    {
        Box16 { bounds }
    }

    /// Its bounds; None is the empty box.
    pub(crate) fn bounds(&self) -> &Option<Bounds>
        ensures { result.now ≡ self.now }
    {
        &self.bounds
    }

    /// The same box.
    fn copy(&self, alloc: Global) -> Result<Box16, NoMemory>
        ensures { IfOk result (λ b. b ≡ self.now) }
    {
        match &self.bounds {
            Some(bounds) => Ok(Box16 {
                bounds: Some(bounds.copy(alloc)?),
            }),
            None => Ok(Box16 { bounds: None }),
        }
    }

    /// What an edge makes of it.
    fn over(&self, alloc: Global, edge: &Edge) -> Result<Box16, NoMemory>
        ensures { IfOk result (λ b. b ≡ after_of edge.now.what self.now) }
    {
        match &self.bounds {
            Some(bounds) => Ok(Box16 {
                bounds: bounds_over(alloc, bounds, edge)?,
            }),
            None => Ok(Box16 { bounds: None }),
        }
    }

    /// The hull of the two.
    fn hull(&self, alloc: Global, other: &Box16) -> Result<Box16, NoMemory>
        ensures { IfOk result (λ b. b ≡ join_of self.now other.now) }
    {
        match (&self.bounds, &other.bounds) {
            (None, _) => other.copy(alloc),
            (_, None) => self.copy(alloc),
            (Some(a), Some(b)) => Ok(Box16 {
                bounds: Some(a.hull(alloc, b)?),
            }),
        }
    }

    /// The box widened by a newer one, or None where the newer one lies within it.
    fn widened(&self, alloc: Global, newer: &Box16, round: u32) -> Result<Option<Box16>, NoMemory>
        ensures { IfOk result (λ o. o ≡ widened self.now newer.now round) }
    {
        match (&self.bounds, &newer.bounds) {
            (_, None) => Ok(None),
            (None, Some(_)) => Ok(Some(newer.copy(alloc)?)),
            (Some(a), Some(b)) => wider(alloc, a, b, round),
        }
    }

    /// Its rows.
    pub(crate) fn told(&self, alloc: Global) -> Result<Items<Row>, NoMemory>
        ensures { IfOk result (λ rows. rows ≡ rows_of self.now) }
    {
        match &self.bounds {
            Some(bounds) => bounds.rows(alloc),
            None => no_state(alloc),
        }
    }

    /// How many of its variables have an interval of their own.
    pub(crate) fn width(&self) -> usize
        ensures { IsNarrow self.now }
    {
        match &self.bounds {
            Some(bounds) => bounds.len(),
            None => 0,
        }
    }
}

/// What an edge makes of bounds; None is the empty box.
fn bounds_over(alloc: Global, bounds: &Bounds, edge: &Edge) -> Result<Option<Bounds>, NoMemory>
    ensures { IfOk result (λ b. b ≡ after_of edge.now.what (Some bounds.now)) }
{
    match &edge.what {
        What::Enter { params } => Ok(Some(bounds.entered(alloc, *params)?)),
        What::Test(rows) => cut_rows(alloc, bounds, rows),
        What::Set { var, form, lo, hi } => {
            Ok(Some(bounds.assigned(alloc, *var, form, *lo, *hi)?))
        }
        What::Check(rows) => cut_rows(alloc, bounds, rows),
    }
}

/// The bounds widened by newer ones, or None where the newer ones lie within them.
fn wider(alloc: Global, a: &Bounds, b: &Bounds, round: u32) -> Result<Option<Box16>, NoMemory>
    ensures { IfOk result (λ o. o ≡ widened (Some a.now) (Some b.now) round) }
{
    if b.is_within(a) {
        return Ok(None);
    }
    let bounds = if round < WIDENING_ROUND {
        a.hull(alloc, b)?
    } else {
        a.steady(alloc, b)?
    };
    Ok(Some(Box16 {
        bounds: Some(bounds),
    }))
}

impl Forward for Box16 {
    ghost has = { HasBox };

    ghost parts = { parts_of };

    ghost view = { view_of };

    ghost says = { box_says };

    ghost TOP_ROUND = { WIDENING_ROUND };

    const TOP_ROUND: u32 = WIDENING_ROUND;

    fn everything(alloc: Global, variables: u32) -> Result<Self, NoMemory> {
        Ok(Box16 {
            bounds: Some(Bounds::none(alloc, variables)),
        })
    }

    fn nothing(_alloc: Global, _variables: u32) -> Result<Self, NoMemory> {
        Ok(Box16 { bounds: None })
    }

    fn after(&self, alloc: Global, edge: &Edge) -> Result<Self, NoMemory> {
        self.over(alloc, edge)
    }

    fn join(&self, alloc: Global, other: &Self) -> Result<Self, NoMemory> {
        self.hull(alloc, other)
    }

    fn widen(&self, alloc: Global, newer: &Self, round: u32) -> Result<Option<Self>, NoMemory> {
        // they tell that there are no more intervals than a row has variables
        let (_old, _new) = (self.width(), newer.width());
        self.widened(alloc, newer, round)
    }

    fn rows(&self, alloc: Global) -> Result<Items<Row>, NoMemory> {
        // it tells that there are no more intervals than a row has variables
        let _width = self.width();
        self.told(alloc)
    }

    ghost few = { few_parts };
}

/// The row that no state meets.
fn no_state(alloc: Global) -> Result<Items<Row>, NoMemory>
    ensures { IfOk result (λ rows. rows ≡ rows_of None) }
{
    let mut rows = Items::new(alloc);
    rows.push(Row::of_constant(alloc, -1))?;
    Ok(rows)
}
