ghost use Rattle.std.specs.Prelude.{ℕ, ◌<◌, ◌≤◌, ◌⊎◌, IfOk, MatchOption};
ghost use Rattle.pc_rows.specs.Linear.{State, MeetsAll};
ghost use Rattle.pc_rows.specs.declared.row.TheConstants.{VARIABLES};
ghost use Rattle.pc_flow.specs.Carry.{HasVariable};
ghost use Rattle.pc_flow.specs.Walk.{Pass};
ghost use Rattle.pc_domain.specs.View.{View, Relations};
ghost use Rattle.pc_domain.specs.declared.limits.TheConstants.{PARTS};

use crate::limits::NoMemory;
use pc_flow::Edge;
use pc_rows::Row;
use sqlite_items::Items;
use std::alloc::Global;

/// A set of states that is carried along edges. It speaks of all variables that a row may have, so no call asks which
/// graph an edge is of, or whether two values are of one.
///
/// The clauses on views say nothing of soundness: they serve what is promised of graphs without loops.
pub trait Forward: Drop {
    /// The states of a value.
    ghost has: { Self → State → Type 0 };

    /// A number of at most `PARTS`, which bounds how often a value is widened.
    ghost parts: { Self → ℕ };

    /// What a value is, as plain data.
    ghost view: { Self → View };

    /// What the calls do to views.
    ghost says: { Relations };

    ghost TOP_ROUND: { ℕ };

    /// The round from which on each widening takes parts away.
    const TOP_ROUND: u32;

    /// All states. The number of variables is a hint of size.
    fn everything(alloc: Global, variables: u32) -> Result<Self, NoMemory>
        requires { variables ≤ VARIABLES }
        ensures states { IfOk result (λ v. (s : State) → has v s) }
        ensures view { IfOk result (λ v. says.everything variables (view v)) };

    /// No state.
    fn nothing(alloc: Global, variables: u32) -> Result<Self, NoMemory>
        requires { variables ≤ VARIABLES }
        ensures states { IfOk result (λ v. (s : State) → has v s → ⊥) }
        ensures view { IfOk result (λ v. says.nothing variables (view v)) };

    /// A state of the value that passes the edge leads to states of the answer.
    fn after(&self, alloc: Global, edge: &Edge) -> Result<Self, NoMemory>
        ensures states { IfOk result (λ v. (s t : State) → HasVariable edge.now.what s → has self.now s → Pass edge.now.what s t → has v t) }
        ensures view { IfOk result (λ v. says.after (view self.now) edge.now.what (view v)) };

    /// A state of either value is in the join.
    fn join(&self, alloc: Global, other: &Self) -> Result<Self, NoMemory>
        ensures states { IfOk result (λ v. (s : State) → has self.now s ⊎ has other.now s → has v s) }
        ensures view { IfOk result (λ v. says.join (view self.now) (view other.now) (view v)) };

    /// None only where each state of the newer value is in this one. Any other answer has the states of both.
    fn widen(&self, alloc: Global, newer: &Self, round: u32) -> Result<Option<Self>, NoMemory>
        ensures states { IfOk result (λ o. MatchOption o ((s : State) → has newer.now s → has self.now s) (λ v. (s : State) → has self.now s ⊎ has newer.now s → has v s)) }
        ensures fewer { IfOk result (λ o. MatchOption o (Unit {0}) (λ v. TOP_ROUND ≤ round → parts v < parts self.now)) };

    /// Rows that each state of the value meets.
    fn rows(&self, alloc: Global) -> Result<Items<Row>, NoMemory>
        ensures states { IfOk result (λ rows. (s : State) → has self.now s → MeetsAll s rows) }
        ensures view { IfOk result (λ rows. says.rows (view self.now) rows) };

    /// No value has more parts.
    ghost few: { (v : Self) → parts v ≤ PARTS };
}
