//! Rows that are removed, and the proofs by which the rows that stand show them.

ghost use Rattle.std.specs.Prelude.{◌≡◌, ◌++◌, [], ◌∷◌, IfOk};
ghost use Rattle.pc_entail.specs.Found.{Gives};
ghost use Rattle.pc_entail.specs.Removal.{IsRenewed, AreRenewed, CheckedIs};
ghost use Rattle.pc_entail.specs.Steps.{FoundIs, RenewedIs};

use crate::composition::composed;
use crate::entailment::found;
use pc_rows::{NoMemory, Proof, Row, System, shows};
use sqlite_items::Items;
use std::alloc::Global;

/// A removed row, and a proof by which the rows that stand show it.
#[derive(Drop)]
pub struct Removed {
    pub row: Row,
    pub proof: Proof,
}

/// The removed rows with proofs over the premises, among which there was one more at `place`
/// before: `gone` shows that one. None where one of the rows is not found to be shown any more.
pub fn renewed(
    alloc: Global,
    system: &mut System,
    place: usize,
    removed: &[Removed],
    gone: &Proof,
) -> Result<Option<Items<Removed>>, NoMemory>
    ensures exact { Gives (AreRenewed system.old.premises place gone.now removed.now) result }
    ensures evidence { RenewedIs system.old.premises removed.now result }
{
    let mut all = Items::new(alloc);
    for old in removed {
        system.ask(old.row.copy());
        match renew(alloc, system, place, old, gone)? {
            Some(proof) => put(&mut all, &old.row, proof)?,
            None => return Ok(None),
        }
    }
    Ok(Some(all))
}

/// Puts a row with its proof at the end.
pub fn put(all: &mut Items<Removed>, r: &Row, proof: Proof) -> Result<(), NoMemory>
    ensures { IfOk result (λ _. all.new ≡ all.old ++ (record { row = r.now; proof = proof }) ∷ []) }
{
    match all.push(Removed {
        row: r.copy(),
        proof,
    }) {
        Ok(()) => Ok(()),
        Err(_) => Err(NoMemory),
    }
}

/// A proof of the removed row: the old one with `gone` in the place of the premise that goes, where
/// that shows it. It mostly does, and then nothing is looked for.
fn renew(
    alloc: Global,
    system: &System,
    place: usize,
    old: &Removed,
    gone: &Proof,
) -> Result<Option<Proof>, NoMemory>
    requires { old.now.row ≡ system.now.goal }
    ensures exact { Gives (IsRenewed system.now.premises place gone.now old.now) result }
    ensures evidence { FoundIs system.now.premises old.now.row result }
{
    match composed(alloc, &old.proof, gone, place)? {
        Some(guess) => checked(alloc, system, guess),
        None => found(alloc, system),
    }
}

/// The guess where it shows the goal, and else what is found.
fn checked(alloc: Global, system: &System, guess: Proof) -> Result<Option<Proof>, NoMemory>
    ensures exact { CheckedIs system.now guess result }
    ensures evidence { FoundIs system.now.premises system.now.goal result }
{
    if shows(system, &guess) {
        return Ok(Some(guess));
    }
    found(alloc, system)
}
