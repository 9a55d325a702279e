ghost use Rattle.std.specs.Prelude.{◌≡◌, ℕ, ◌≤◌, IfOk, MatchOption};
ghost use Rattle.pc_rows.specs.Linear.{State, MeetsAll, zero_from};
ghost use Rattle.pc_rows.specs.declared.row.TheConstants.{VARIABLES};
ghost use Rattle.pc_flow.specs.Carry.{HasVariable};
ghost use Rattle.pc_flow.specs.Walk.{Pass, Keeps};
ghost use Rattle.pc_domain.specs.View.{View, BackRelations};

use crate::limits::NoMemory;
use pc_flow::Edge;
use pc_rows::Row;
use sqlite_items::Items;
use std::alloc::Global;

/// A set of states that is carried back along edges, from what is wanted after them to what is enough before. It speaks of
/// all variables that a row may have.
pub trait Backward: Drop {
    /// The states of a value.
    ghost has: { Self → State → Type 0 };

    /// What a value is, as plain data.
    ghost view: { Self → View };

    /// What the calls do to views.
    ghost says: { BackRelations };

    ghost LAST_ROUND: { ℕ };

    /// The round from which on a value that has to be narrowed has no state left.
    const LAST_ROUND: u32;

    /// All states. The number of variables is a hint of size.
    fn everything(alloc: Global, variables: u32) -> Result<Self, NoMemory>
        requires { variables ≤ VARIABLES }
        ensures states { IfOk result (λ v. (s : State) → has v s) }
        ensures view { IfOk result (λ v. says.everything variables (view v)) };

    /// No state.
    fn nothing(alloc: Global, variables: u32) -> Result<Self, NoMemory>
        requires { variables ≤ VARIABLES }
        ensures states { IfOk result (λ v. (s : State) → has v s → ⊥) }
        ensures view { IfOk result (λ v. says.nothing variables (view v)) };

    /// A state of the answer keeps the edge's assertion, and each state to which the edge leads from it is in this value.
    fn before(&self, alloc: Global, edge: &Edge) -> Result<Self, NoMemory>
        ensures states { IfOk result (λ v. (s : State) → HasVariable edge.now.what s → has v s → Keeps edge.now.what s × ((t : State) → Pass edge.now.what s t → has self.now t)) }
        ensures view { IfOk result (λ v. says.before (view self.now) edge.now.what (view v)) };

    /// A state of the answer is in each of the two values.
    fn both(&self, alloc: Global, other: &Self) -> Result<Self, NoMemory>
        ensures states { IfOk result (λ v. (s : State) → has v s → has self.now s × has other.now s) }
        ensures view { IfOk result (λ v. says.both (view self.now) (view other.now) (view v)) };

    /// None only where each state of this value is in the newer one. Any other answer has states of both alone.
    fn narrow(&self, alloc: Global, newer: &Self, round: u32) -> Result<Option<Self>, NoMemory>
        ensures states { IfOk result (λ o. MatchOption o ((s : State) → has self.now s → has newer.now s) (λ v. (s : State) → has v s → has self.now s × has newer.now s)) }
        ensures last { IfOk result (λ o. MatchOption o (Unit {0}) (λ v. LAST_ROUND ≤ round → (s : State) → has v s → ⊥)) };

    /// Rows of the entry: a state whose variables from number `params` on are 0 is in the value where it meets them.
    fn entry_rows(&self, alloc: Global, params: u32) -> Result<Items<Row>, NoMemory>
        ensures states { IfOk result (λ rows. (s : State) → zero_from params s ≡ s → MeetsAll s rows → has self.now s) }
        ensures view { IfOk result (λ rows. says.rows (view self.now) params rows) };
}
