//! Systems: whether premises show a goal.

ghost use Rattle.std.specs.Prelude.{◌≡◌, ◌<◌, ◌↔◌, true, [], ◌∷◌, ◌++◌, length, slice_get, Some, OnOk, OnErr, OkIff};
ghost use Rattle.std.specs.List.{AllByRecursion};
ghost use Rattle.pc_rows.specs.Evidence.{IsSystem};
ghost use Rattle.pc_rows.specs.Shows.{with_parts, total, PartsFit, TotalFits, Shows};
ghost use Rattle.pc_rows.specs.Checks.{IsContradiction};

use crate::number::Past;
use crate::proof::{Parts, Proof};
use crate::row::Row;
use crate::rows::NoMemory;
use crate::totals::Total;
use sqlite_items::Items;
use std::alloc::Global;
use std::marker::Model;

/// The most premises of a system.
pub const PREMISES: usize = 48;

/// The most rows of a modest system: its premises and the negated goal.
pub const MODEST_ROWS: usize = 12;

/// The most variables that occur in a modest system.
pub const MODEST_VARIABLES: usize = 3;

/// The greatest absolute value of a number of a modest system.
pub const MODEST_NUMBER: usize = 1023;

const _: () = prove!(PREMISES == 48);

const _: () = prove!(MODEST_ROWS == 12 && MODEST_VARIABLES == 3 && MODEST_NUMBER == 1023);

/// At most `PREMISES` premises, in order, and a goal.
#[derive(Drop)]
pub struct System {
    premises: Items<Row>,
    goal: Row,
}

impl Model for System {
    ghost use Rattle.pc_rows.specs.Evidence.{System as Asked, IsSystem};

    ghost Value = { Asked };

    ghost view = { λ s. record { premises = s.premises; goal = s.goal } };

    ghost invariant = { λ s. IsSystem (record { premises = s.premises; goal = s.goal }) };
}

impl System {
    /// The goal without premises. It needs no memory; premises are kept in memory of `alloc`.
    pub fn new(alloc: Global, goal: Row) -> System
        ensures { result ≡ record { premises = []; goal = goal } }
    {
        let _row = goal.constant();
        System {
            premises: Items::new(alloc),
            goal,
        }
    }

    /// How many premises there are.
    pub fn len(&self) -> usize
        ensures value { result ≡ length self.now.premises }
        ensures system { IsSystem self.now }
    {
        self.premises.len()
    }

    /// Premise `i`, counted from 0.
    pub fn premise(&self, i: usize) -> &Row
        requires { i < length self.now.premises }
        ensures { slice_get self.now.premises i ≡ Some result.now }
    {
        &self.premises.as_slice()[i]
    }

    /// The goal.
    pub fn goal(&self) -> &Row
        ensures { result.now ≡ self.now.goal }
    {
        &self.goal
    }

    /// Asks for another goal of the same premises.
    pub fn ask(&mut self, goal: Row)
        ensures { self.new ≡ record { premises = self.old.premises; goal = goal } }
    {
        let _row = goal.constant();
        self.goal = goal;
    }

    /// Puts a premise at the end. After a refusal the system is as before.
    pub fn push(&mut self, premise: Row) -> Result<(), NoMemory>
        requires { length self.old.premises < PREMISES }
        ensures ok { OnOk result (self.new ≡ record { premises = self.old.premises ++ premise ∷ []; goal = self.old.goal }) }
        ensures err { OnErr result (self.new ≡ self.old) }
    {
        let _row = premise.constant();
        match self.premises.push(premise) {
            Ok(()) => Ok(()),
            Err(_) => Err(NoMemory),
        }
    }
}

/// The total of a proof: the negated goal times its multiplier, and then each premise that the
/// proof names, times its multiplier, added in order. `Past` exactly where a number of the negated
/// goal, of one of these products or of one of the sums in this order is not in range.
pub fn total(s: &System, p: &Proof) -> Result<Total, Past>
    requires { AllByRecursion (λ q. q.index < length s.now.premises) p.now.parts }
    ensures { OkIff result (TotalFits s.now.premises s.now.goal p.now) (total s.now.premises s.now.goal p.now) }
{
    let start = s.goal().negated()?.times(p.goal())?;
    with_parts(s, Total::of_row(&start), p.parts())
}

/// Whether the proof shows the goal, and its total is computed in range.
pub fn shows(s: &System, p: &Proof) -> bool
    ensures { (result ≡ true) ↔ (Shows s.now.premises s.now.goal p.now × TotalFits s.now.premises s.now.goal p.now) }
{
    p.is_usable(s.len()) && is_contradiction(s, p)
}

/// Whether the total is computed in range, and has no variable and a negative constant.
fn is_contradiction(s: &System, p: &Proof) -> bool
    requires { AllByRecursion (λ q. q.index < length s.now.premises) p.now.parts }
    ensures { (result ≡ true) ↔ IsContradiction s.now.premises s.now.goal p.now }
{
    match total(s, p) {
        Ok(total) => total.is_never(),
        Err(Past) => false,
    }
}

fn with_parts(s: &System, start: Total, parts: &Parts) -> Result<Total, Past>
    requires { AllByRecursion (λ q. q.index < length s.now.premises) parts.now }
    ensures { OkIff result (PartsFit s.now.premises start parts.now) (with_parts s.now.premises start parts.now) }
{
    let mut sum = start;
    for i in 0..parts.len() {
        let part = parts.at(i);
        sum.add(part.multiplier, s.premise(part.index as usize))?;
    }
    Ok(sum)
}
