//! Whether rows show rows, by the search, and by elimination where the search gives up.

ghost use Rattle.std.specs.Prelude.{◌≡◌, ◌≤◌, ◌+◌, ◌++◌, length, IfOk, Ok, true};
ghost use Rattle.pc_rows.specs.Linear.{State, MeetsAll};
ghost use Rattle.pc_elim.specs.Deciding.{DecideIs};
ghost use Rattle.pc_rows.specs.Substitution.{never_row};
ghost use Rattle.pc_entail.specs.Showing.{question, ShowIs, ShowsAllIs, ContradictoryIs};
ghost use Rattle.pc_entail.specs.Settled.{SettledIs};
ghost use Rattle.pc_entail.specs.Found.{IsProofFound, IsFound, AllFound, Tells, Gives};
ghost use Rattle.pc_entail.specs.Steps.{FoundIs};

use pc_elim::{Answer, decide};
use pc_rows::{NoMemory, PREMISES, Proof, ROWS, Row, Rows, System};
use pc_simplex::{Guess, search};
use std::alloc::Global;

const _: () = prove!(ROWS <= PREMISES);

/// Decides whether the rows of `a` and then of `b` show the row `r`, by what the search finds, and
/// by what elimination answers where the search gives up. `Unsettled` comes only where the search
/// gives up and the question is not modest.
pub fn entails(alloc: Global, a: &Rows, b: &Rows, r: &Row) -> Result<Answer, NoMemory>
    requires { length a.now + length b.now ≤ PREMISES }
    ensures exact { SettledIs (question (a.now ++ b.now) r.now) result }
    ensures evidence { DecideIs (question (a.now ++ b.now) r.now) result }
{
    let system = asked(alloc, a, b, r)?;
    settled(alloc, &system)
}

/// Whether the rows of `a` are found to show every row of `b`: whether each question is settled by a
/// proof. Where they are not, a point refutes some row of `b`, or its question is not modest.
pub fn shows_all(alloc: Global, a: &Rows, b: &Rows) -> Result<bool, NoMemory>
    ensures exact { Tells (AllFound a.now b.now) result }
    ensures evidence { ShowsAllIs a.now b.now result }
{
    let _most = a.len();
    show_all(alloc, a, &Rows::new(alloc), b)
}

/// Whether the rows are found to contradict each other: they show the row -1, so that no state
/// meets them. Where they are not, a rational point meets them, or the question is not modest.
pub fn contradictory(alloc: Global, a: &Rows) -> Result<bool, NoMemory>
    ensures exact { Tells (IsFound a.now never_row) result }
    ensures evidence { ContradictoryIs a.now result }
    ensures states { result ≡ Ok true → (s : State) → MeetsAll s a.now → ⊥ }
{
    let _most = a.len();
    show(alloc, a, &Rows::new(alloc), &Row::of_constant(alloc, -1))
}

/// Whether the rows of `a` and then of `b` are found to show each of the goals.
fn show_all(alloc: Global, a: &Rows, b: &Rows, goals: &Rows) -> Result<bool, NoMemory>
    requires { length a.now + length b.now ≤ PREMISES }
    ensures exact { Tells (AllFound (a.now ++ b.now) goals.now) result }
    ensures evidence { ShowsAllIs (a.now ++ b.now) goals.now result }
{
    for i in 0..goals.len() {
        if !show(alloc, a, b, goals.at(i))? {
            return Ok(false);
        }
    }
    Ok(true)
}

/// Whether the rows of `a` and then of `b` are found to show the goal.
#[tactic(auto, using(crate::proofs::Settling::row_found, crate::proofs::Settling::row_point, crate::proofs::Settling::row_unsettled))]
fn show(alloc: Global, a: &Rows, b: &Rows, goal: &Row) -> Result<bool, NoMemory>
    requires { length a.now + length b.now ≤ PREMISES }
    ensures exact { Tells (IsFound (a.now ++ b.now) goal.now) result }
    ensures evidence { ShowIs (a.now ++ b.now) goal.now result }
{
    match entails(alloc, a, b, goal)? {
        Answer::Shown(_) => Ok(true),
        Answer::Point(_) => Ok(false),
        Answer::Unsettled => Ok(false),
    }
}

/// The system that asks whether the rows of `a` and then of `b` show `r`.
pub(crate) fn asked(alloc: Global, a: &Rows, b: &Rows, r: &Row) -> Result<System, NoMemory>
    requires { length a.now + length b.now ≤ PREMISES }
    ensures { IfOk result (λ system. system ≡ question (a.now ++ b.now) r.now) }
{
    let mut system = System::new(alloc, r.copy());
    add(&mut system, a)?;
    add(&mut system, b)?;
    Ok(system)
}

/// Puts the rows behind the premises.
fn add(system: &mut System, rows: &Rows) -> Result<(), NoMemory>
    requires { length system.old.premises + length rows.now ≤ PREMISES }
    ensures { IfOk result (λ _. system.new ≡ question (system.old.premises ++ rows.now) system.old.goal) }
{
    for i in 0..rows.len() {
        system.push(rows.at(i).copy())?;
    }
    Ok(())
}

/// A proof that the premises show the goal. None where a point refutes it, or the question is not
/// settled.
#[tactic(auto, using(crate::proofs::Settling::found_shown, crate::proofs::Settling::point_found, crate::proofs::Settling::unsettled_found))]
pub(crate) fn found(alloc: Global, system: &System) -> Result<Option<Proof>, NoMemory>
    ensures exact { Gives (IsProofFound system.now) result }
    ensures evidence { FoundIs system.now.premises system.now.goal result }
{
    match settled(alloc, system)? {
        Answer::Shown(proof) => Ok(Some(proof)),
        Answer::Point(_) => Ok(None),
        Answer::Unsettled => Ok(None),
    }
}

/// How a system is settled, whatever it asks: by the search, and by elimination where the search
/// gives up.
fn settled(alloc: Global, system: &System) -> Result<Answer, NoMemory>
    ensures exact { SettledIs system.now result }
    ensures evidence { DecideIs system.now result }
{
    match search(alloc, system)? {
        Guess::Shown(proof) => Ok(Answer::Shown(proof)),
        Guess::Point(point) => Ok(Answer::Point(point)),
        Guess::GaveUp => decide(alloc, system),
    }
}
