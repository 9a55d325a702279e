//! Whether a system's premises show its goal.

ghost use Rattle.std.specs.Prelude.{◌≡◌, ◌<◌, ◌≤◌, ◌+◌, [], ◌∷◌, ◌++◌, IfOk};
ghost use Rattle.pc_rows.specs.Linear.{IsInRange, negation};
ghost use Rattle.pc_rows.specs.Evidence.{IsSystem};
ghost use Rattle.pc_rows.specs.Modest.{refuting};
ghost use Rattle.pc_elim.specs.declared.made.TheConstants.{PARTS};
ghost use Rattle.pc_elim.specs.Elimination.{started, unit};
ghost use Rattle.pc_elim.specs.Settling.{proof_of};
ghost use Rattle.pc_elim.specs.Deciding.{DecideIs, AnswerIs, ShownIs};

use crate::made::{Fault, Made, PARTS};
use crate::settle::{Found, settle};
use pc_rows::{NoMemory, Number, Parts, Past, Point, Proof, Row, System, total};
use sqlite_items::Items;
use std::alloc::Global;

/// What is known of a system.
#[derive(Drop)]
pub enum Answer {
    /// The proof shows the goal, and its total is computed in range.
    Shown(Proof),
    /// The point meets the premises and the negated goal, so that no proof shows the goal.
    Point(Point),
    /// A number is not in range, or an elimination would make more than `LIMIT` rows. No modest
    /// system is unsettled.
    Unsettled,
}

/// Decides whether the premises show the goal. `Unsettled` comes exactly where the elimination of a
/// variable would make more than `LIMIT` rows, or a number that the answer takes is not in range.
pub fn decide(alloc: Global, s: &System) -> Result<Answer, NoMemory>
    ensures exact { AnswerIs s.now result }
    ensures evidence { DecideIs s.now result }
{
    let negated = match s.goal().negated() {
        Ok(negated) => negated,
        Err(Past) => return Ok(Answer::Unsettled),
    };
    refute(alloc, s, &negated)
}

/// The same, where the negated goal is in range.
fn refute(alloc: Global, s: &System, negated: &Row) -> Result<Answer, NoMemory>
    requires negated { negated.now ≡ negation s.now.goal }
    requires range { IsInRange (negation s.now.goal) }
    ensures exact { AnswerIs s.now result }
    ensures system { IsSystem s.now }
{
    let rows = started(alloc, s, negated)?;
    match settle(alloc, rows.as_slice()) {
        Ok(Found::Shown(multipliers)) => shown(alloc, s, &multipliers),
        Ok(Found::At(p)) => Ok(Answer::Point(p)),
        Err(Fault::NoMemory) => Err(NoMemory),
        Err(Fault::Past) => Ok(Answer::Unsettled),
        Err(Fault::Full) => Ok(Answer::Unsettled),
    }
}

/// The premises in order and then the negated goal, each made of itself.
fn started(alloc: Global, s: &System, negated: &Row) -> Result<Items<Made>, NoMemory>
    requires { negated.now ≡ negation s.now.goal }
    ensures rows { IfOk result (λ rows. rows ≡ started PARTS (refuting s.now)) }
    ensures system { IsSystem s.now }
{
    let premises = s.len();
    let mut rows = Items::new(alloc);
    for i in 0..premises {
        add(&mut rows, s.premise(i), i)?;
    }
    add(&mut rows, negated, premises)?;
    Ok(rows)
}

/// Puts row `i` of the start at the end.
fn add(rows: &mut Items<Made>, r: &Row, i: usize) -> Result<(), NoMemory>
    requires { i < PARTS }
    ensures { IfOk result (λ _. rows.new ≡ rows.old ++ (record { row = r.now; multipliers = unit PARTS i }) ∷ []) }
{
    match rows.push(Made::of_row(r, i)) {
        Ok(()) => Ok(()),
        Err(_) => Err(NoMemory),
    }
}

/// The multipliers as a proof, where its total is computed in range.
fn shown(alloc: Global, s: &System, multipliers: &[Number; PARTS]) -> Result<Answer, NoMemory>
    ensures { ShownIs s.now multipliers.now result }
{
    let proof = proof_of(alloc, s.len(), multipliers)?;
    match total(s, &proof) {
        Ok(_) => Ok(Answer::Shown(proof)),
        Err(Past) => Ok(Answer::Unsettled),
    }
}

/// The multipliers of the premises that are not 0, and that of the negated goal.
fn proof_of(
    alloc: Global,
    premises: usize,
    multipliers: &[Number; PARTS],
) -> Result<Proof, NoMemory>
    requires { premises + 1 ≤ PARTS }
    ensures { IfOk result (λ p. p ≡ proof_of premises multipliers.now) }
{
    let parts = Parts::of_multipliers(alloc, &multipliers[..premises])?;
    Ok(Proof::new(multipliers[premises], parts))
}
