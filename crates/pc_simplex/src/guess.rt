//! Whether a system's premises show its goal, by a search that may give up.

ghost use Rattle.std.specs.Prelude.{◌≡◌, ◌<◌, ◌↔◌, true, length};
ghost use Rattle.pc_rows.specs.Linear.{negation};
ghost use Rattle.pc_simplex.specs.Found.{point_of, proof_of};
ghost use Rattle.pc_simplex.specs.Searching.{SearchIs, EvidenceIs, PointIs, ProofIs, AreTold, IsTold};

use crate::found::{point, proof};
use crate::negation::{negated_constant, negated_value};
use crate::table::Table;
use crate::turns::{End, run};
use pc_rows::{NoMemory, Number, Past, Point, Proof, Row, System, shows, sign_at};
use std::alloc::Global;

/// What a search finds.
#[derive(Drop)]
pub enum Guess {
    /// The proof shows the goal, and its total is computed in range.
    Shown(Proof),
    /// The point meets the premises and the negated goal, so that no proof shows the goal.
    Point(Point),
    /// Nothing: after `PIVOTS` pivots, or where a number is not in range or a quotient not whole, or
    /// where what was found fails its check.
    GaveUp,
}

/// Searches for a proof that the premises show the goal, or a point at which they do not.
pub fn search(alloc: Global, s: &System) -> Result<Guess, NoMemory>
    ensures exact { SearchIs s.now result }
    ensures evidence { EvidenceIs s.now result }
{
    let constant = match negated_constant(s.goal()) {
        Ok(constant) => constant,
        Err(Past) => return Ok(Guess::GaveUp),
    };
    let mut table = Table::new(alloc, s, constant)?;
    match run(&mut table) {
        End::Met => Ok(checked_point(s, constant, &table)),
        End::Stuck(r) => checked_proof(alloc, s, &table, r),
        End::GaveUp => Ok(Guess::GaveUp),
    }
}

/// The table's point, where the sign of each row there is told and not negative.
fn checked_point(s: &System, constant: Number, t: &Table) -> Guess
    requires { constant ≡ (negation s.now.goal).constant }
    ensures { PointIs s.now (point_of t.now) result }
{
    match point(t) {
        Ok(point) => if are_told(s, constant, &point) {
            Guess::Point(point)
        } else {
            Guess::GaveUp
        },
        Err(Past) => Guess::GaveUp,
    }
}

/// Whether the sign of each premise and of the negated goal is told at the point, and not negative.
fn are_told(s: &System, constant: Number, p: &Point) -> bool
    requires { constant ≡ (negation s.now.goal).constant }
    ensures { (result ≡ true) ↔ AreTold s.now p.now }
{
    for i in 0..s.len() {
        if !is_told(s.premise(i), p) {
            return false;
        }
    }
    is_negation_told(s.goal(), constant, p)
}

fn is_told(r: &Row, p: &Point) -> bool
    ensures { (result ≡ true) ↔ IsTold p.now r.now }
{
    match sign_at(r, p) {
        Some(sign) => sign,
        None => false,
    }
}

/// The same of the negation of a row, which has this constant.
fn is_negation_told(r: &Row, constant: Number, p: &Point) -> bool
    requires { constant ≡ (negation r.now).constant }
    ensures { (result ≡ true) ↔ IsTold p.now (negation r.now) }
{
    match negated_value(r, constant, p) {
        Ok(value) => value.is_at_least_zero(),
        Err(Past) => false,
    }
}

/// The multipliers of a stuck line, where they are a proof with its total computed in range.
fn checked_proof(alloc: Global, s: &System, t: &Table, r: usize) -> Result<Guess, NoMemory>
    requires { r < length t.now.lines }
    ensures { ProofIs s.now (proof_of (length s.now.premises) t.now r) result }
{
    let proof = proof(alloc, s.len(), t, r)?;
    if shows(s, &proof) {
        Ok(Guess::Shown(proof))
    } else {
        Ok(Guess::GaveUp)
    }
}
