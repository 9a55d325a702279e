//! What an edge makes of a polyhedron.

ghost use Rattle.std.specs.Prelude.{◌≡◌, ◌<◌, ◌≤◌, [], true, false, pos, Some, Ok, length, slice_set, IfOk};
ghost use Rattle.pc_language.specs.Ends.{end_of};
ghost use Rattle.pc_rows.specs.declared.row.TheConstants.{VARIABLES};
ghost use Rattle.pc_rows.specs.Linear.{State, MeetsAll, zero_from};
ghost use Rattle.pc_rows.specs.Substitution.{IsEnd};
ghost use Rattle.pc_entail.specs.Showing.{ContradictoryIs};
ghost use Rattle.pc_flow.specs.Arc.{BoundsFit};
ghost use Rattle.pc_flow.specs.Carry.{HasVariable};
ghost use Rattle.pc_flow.specs.Walk.{Pass};
ghost use Rattle.pc_flow.specs.declared.what.What.TheVariants.{Set};
ghost use Rattle.pc_poly.specs.Assigning.{zeroing};
ghost use Rattle.pc_poly.specs.Polyhedra.{HasState, IsCoherent, SaysTested, SaysEntered, SaysAfter};

use crate::adding::{copied, gather};
use crate::assignment::{Assignment, assigned, bounded};
use crate::elimination::eliminated;
use crate::polyhedron::Polyhedron;
use pc_domain::NoMemory;
use pc_entail::contradictory;
use pc_flow::{Edge, What};
use pc_language::Bound;
use pc_rows::{Number, Row, Rows, VARIABLES};
use std::alloc::Global;

/// What an edge makes of a polyhedron; None is nothing.
pub(crate) fn over(
    alloc: Global,
    p: &Polyhedron,
    edge: &Edge,
) -> Result<Option<Polyhedron>, NoMemory>
    ensures states { IfOk result (λ v. (s t : State) → HasVariable edge.now.what s → MeetsAll s p.now.rows → Pass edge.now.what s t → HasState v t) }
    ensures view { IfOk result (λ v. SaysAfter (Some p.now) edge.now.what v) }
{
    match &edge.what {
        What::Enter { params } => entered(alloc, p, *params),
        What::Test(rows) => tested(alloc, p, rows),
        What::Set { var, form, lo, hi } => set(alloc, p, *var, form, *lo, *hi),
        What::Check(rows) => tested(alloc, p, rows),
    }
}

/// The variables from number `params` on become 0, those below the hint; the other ones from there on are free.
fn entered(alloc: Global, p: &Polyhedron, params: u32) -> Result<Option<Polyhedron>, NoMemory>
    requires { params ≤ VARIABLES }
    ensures states { IfOk result (λ v. (s : State) → MeetsAll s p.now.rows → HasState v (zero_from params s)) }
    ensures view { IfOk result (λ v. SaysEntered (Some p.now) params v) }
{
    let mut rows = copied(&p.rows)?;
    for v in params..VARIABLES as u32 {
        rows = entered_at(alloc, &rows, v, p.hint)?;
    }
    // it tells that no row is wider than there are variables
    let _few = rows.len();
    Ok(Some(p.with(rows)))
}

/// The variable becomes 0, or is eliminated where it is not below the hint.
fn entered_at(alloc: Global, rows: &Rows, v: u32, hint: u32) -> Result<Rows, NoMemory>
    requires { v < VARIABLES }
    ensures states { IfOk result (λ out. (s : State) → MeetsAll s rows.now → MeetsAll (slice_set s v (pos 0)) out) }
    ensures none { IfOk result (λ out. hint ≤ v → rows.now ≡ [] → out ≡ []) }
{
    if v < hint {
        bounded(alloc, rows, &to_zero(alloc, v))
    } else {
        eliminated(alloc, rows, v)
    }
}

/// The assignment of 0.
fn to_zero(alloc: Global, x: u32) -> Assignment
    requires { x < VARIABLES }
    ensures { result ≡ zeroing x }
{
    Assignment {
        x,
        form: Row::of_constant(alloc, 0),
        lo: Some(Number::new(0)),
        hi: Some(Number::new(0)),
    }
}

/// The rows of a test or an assertion are joined. None where all are found to contradict each other.
fn tested(alloc: Global, p: &Polyhedron, own: &Rows) -> Result<Option<Polyhedron>, NoMemory>
    ensures states { IfOk result (λ v. (s : State) → MeetsAll s p.now.rows → MeetsAll s own.now → HasState v s) }
    ensures view { IfOk result (λ v. SaysTested (Some p.now) own.now v) }
    ensures coherent { IfOk result IsCoherent }
{
    let mut rows = copied(&p.rows)?;
    gather(&mut rows, own)?;
    if is_contradictory(alloc, &rows)? {
        return Ok(None);
    }
    Ok(Some(p.with(rows)))
}

/// Whether the rows are found to contradict each other.
fn is_contradictory(alloc: Global, rows: &Rows) -> Result<bool, NoMemory>
    ensures states { IfOk result (λ yes. yes ≡ true → (s : State) → MeetsAll s rows.now → ⊥) }
    ensures evidence { IfOk result (λ yes. yes ≡ false → ContradictoryIs rows.now (Ok false)) }
{
    match contradictory(alloc, rows) {
        Ok(yes) => Ok(yes),
        Err(_) => Err(NoMemory),
    }
}

/// The variable `x` becomes the form's value plus an integer of the choice.
fn set(
    alloc: Global,
    p: &Polyhedron,
    x: u32,
    form: &Row,
    lo: Bound,
    hi: Bound,
) -> Result<Option<Polyhedron>, NoMemory>
    requires variable { x < VARIABLES }
    requires choice { BoundsFit lo hi }
    ensures { IfOk result (λ v. (s t : State) → x < length s → MeetsAll s p.now.rows → Pass (Set x form.now lo hi) s t → HasState v t) }
{
    let a = Assignment {
        x,
        form: form.copy(),
        lo: end(lo),
        hi: end(hi),
    };
    let rows = assigned(alloc, &p.rows, &a)?;
    Ok(Some(p.with(rows)))
}

/// The number at an end of a choice; None is an open end.
fn end(bound: Bound) -> Option<Number>
    requires { IsEnd (end_of bound) }
    ensures { result ≡ end_of bound }
{
    match bound {
        Bound::At(n) => Some(Number::new(n)),
        Bound::Open => None,
    }
}
