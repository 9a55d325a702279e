//! Polyhedra as a domain.

ghost use Rattle.std.specs.Prelude.{◌≡◌, ◌<◌, ◌≤◌, ◌↔◌, ◌⊎◌, ℕ, Some, None, length, IfOk, MatchOption};
ghost use Rattle.pc_rows.specs.declared.rows.TheConstants.{ROWS};
ghost use Rattle.pc_rows.specs.Linear.{State, MeetsAll};
ghost use Rattle.pc_flow.specs.Carry.{HasVariable};
ghost use Rattle.pc_flow.specs.Walk.{Pass};
ghost use Rattle.pc_poly.specs.declared.limits.TheConstants.{KEEPING_ROUND};
ghost use Rattle.pc_poly.specs.Polyhedra.{HasState, rows_of, parts_of, few_parts, SaysAfter, IsJoined};
ghost use Rattle.pc_poly.specs.Views.{poly_view, poly_says};

use crate::adding::{copied, push};
use crate::edges::over;
use crate::limits::KEEPING_ROUND;
use crate::polyhedron::Polyhedron;
use crate::showing::{hull, widened};
use pc_domain::{Forward, NoMemory};
use pc_flow::Edge;
use pc_rows::{Row, Rows};
use sqlite_items::Items;
use std::alloc::Global;
use std::marker::Model;

/// The states that meet at most `ROWS` rows, or no state at all.
#[derive(Drop)]
pub struct Poly {
    polyhedron: Option<Polyhedron>,
}

impl Model for Poly {
    ghost use Rattle.pc_poly.specs.Polyhedra.{Value as Polyhedral};

    ghost Value = { Polyhedral };

    ghost view = { λ p. p.polyhedron };
}

impl Poly {
    /// The value's rows, and for nothing the row -1. A state is in the value exactly where it meets them.
    pub fn list(&self, alloc: Global) -> Result<Rows, NoMemory>
        ensures value { IfOk result (λ rows. rows ≡ rows_of self.now) }
        ensures states { IfOk result (λ rows. (s : State) → HasState self.now s ↔ MeetsAll s rows) }
    {
        match &self.polyhedron {
            Some(p) => copied(&p.rows),
            None => never(alloc),
        }
    }

    /// The same value.
    fn copy(&self) -> Result<Poly, NoMemory>
        ensures { IfOk result (λ v. v ≡ self.now) }
    {
        match &self.polyhedron {
            Some(p) => Ok(Poly {
                polyhedron: Some(p.with(copied(&p.rows)?)),
            }),
            None => Ok(Poly { polyhedron: None }),
        }
    }

    /// What an edge makes of it.
    fn over(&self, alloc: Global, edge: &Edge) -> Result<Poly, NoMemory>
        ensures states { IfOk result (λ v. (s t : State) → HasVariable edge.now.what s → HasState self.now s → Pass edge.now.what s t → HasState v t) }
        ensures view { IfOk result (λ v. SaysAfter self.now edge.now.what v) }
    {
        match &self.polyhedron {
            Some(p) => Ok(Poly {
                polyhedron: over(alloc, p, edge)?,
            }),
            None => Ok(Poly { polyhedron: None }),
        }
    }

    /// The hull of the two.
    fn hull(&self, alloc: Global, other: &Poly) -> Result<Poly, NoMemory>
        ensures states { IfOk result (λ v. (s : State) → HasState self.now s ⊎ HasState other.now s → HasState v s) }
        ensures view { IfOk result (λ v. IsJoined self.now other.now v) }
    {
        match (&self.polyhedron, &other.polyhedron) {
            (None, _) => other.copy(),
            (_, None) => self.copy(),
            (Some(a), Some(b)) => Ok(Poly {
                polyhedron: Some(a.with(hull(alloc, &a.rows, &b.rows)?)),
            }),
        }
    }

    /// The value widened by a newer one, or None where the newer one is found to be in it.
    fn widened(&self, alloc: Global, newer: &Poly, round: u32) -> Result<Option<Poly>, NoMemory>
        ensures states { IfOk result (λ o. MatchOption o ((s : State) → HasState newer.now s → HasState self.now s) (λ v. (s : State) → HasState self.now s ⊎ HasState newer.now s → HasState v s)) }
        ensures fewer { IfOk result (λ o. MatchOption o (Unit {0}) (λ v. KEEPING_ROUND ≤ round → parts_of v < parts_of self.now)) }
    {
        match (&self.polyhedron, &newer.polyhedron) {
            (_, None) => Ok(None),
            (None, Some(_)) => Ok(Some(newer.copy()?)),
            (Some(a), Some(b)) => wider(alloc, a, b, round),
        }
    }
}

/// A polyhedron widened by a newer one, or None where the newer one is found to be in it.
fn wider(
    alloc: Global,
    a: &Polyhedron,
    b: &Polyhedron,
    round: u32,
) -> Result<Option<Poly>, NoMemory>
    ensures states { IfOk result (λ o. MatchOption o ((s : State) → MeetsAll s b.now.rows → MeetsAll s a.now.rows) (λ v. (s : State) → MeetsAll s a.now.rows ⊎ MeetsAll s b.now.rows → HasState v s)) }
    ensures fewer { IfOk result (λ o. MatchOption o (Unit {0}) (λ v. KEEPING_ROUND ≤ round → parts_of v < parts_of (Some a.now))) }
{
    match widened(alloc, &a.rows, &b.rows, round)? {
        Some(rows) => Ok(Some(Poly {
            polyhedron: Some(a.with(rows)),
        })),
        None => Ok(None),
    }
}

impl Forward for Poly {
    ghost has = { HasState };

    ghost parts = { parts_of };

    ghost view = { poly_view };

    ghost says = { poly_says };

    ghost TOP_ROUND = { KEEPING_ROUND };

    const TOP_ROUND: u32 = KEEPING_ROUND;

    fn everything(alloc: Global, variables: u32) -> Result<Self, NoMemory> {
        Ok(Poly {
            polyhedron: Some(Polyhedron {
                hint: variables,
                rows: Rows::new(alloc),
            }),
        })
    }

    fn nothing(_alloc: Global, _variables: u32) -> Result<Self, NoMemory> {
        Ok(Poly { polyhedron: None })
    }

    fn after(&self, alloc: Global, edge: &Edge) -> Result<Self, NoMemory> {
        self.over(alloc, edge)
    }

    fn join(&self, alloc: Global, other: &Self) -> Result<Self, NoMemory> {
        self.hull(alloc, other)
    }

    fn widen(&self, alloc: Global, newer: &Self, round: u32) -> Result<Option<Self>, NoMemory> {
        self.widened(alloc, newer, round)
    }

    fn rows(&self, alloc: Global) -> Result<Items<Row>, NoMemory> {
        let rows = self.list(alloc)?;
        items_of(alloc, &rows)
    }

    ghost few = { few_parts };
}

/// The row that no state meets.
fn never(alloc: Global) -> Result<Rows, NoMemory>
    ensures { IfOk result (λ rows. rows ≡ rows_of None) }
{
    let mut rows = Rows::new(alloc);
    push(&mut rows, Row::of_constant(alloc, -1))?;
    Ok(rows)
}

/// The same rows as a list.
fn items_of(alloc: Global, rows: &Rows) -> Result<Items<Row>, NoMemory>
    ensures { IfOk result (λ items. items ≡ rows.now) }
{
    let mut items = Items::new(alloc);
    for i in 0..rows.len() {
        items.push(rows.at(i).copy())?;
    }
    Ok(items)
}
