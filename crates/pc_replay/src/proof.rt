//! Whether a proof shows a goal from the premises of an edge.

ghost use Rattle.std.specs.Prelude.{◌≡◌, ◌<◌, length, OkIff};
ghost use Rattle.std.specs.List.{AllByRecursion};
ghost use Rattle.pc_rows.specs.Shows.{with_parts, total, PartsFit, TotalFits};
ghost use Rattle.pc_flow.specs.Carry.{premises};
ghost use Rattle.pc_replay.specs.Flaws.{is_signed, names_premises, flaw};

use crate::flaw::Flaw;
use pc_flow::Edge;
use pc_rows::{Parts, Past, Proof, Row, Rows, Total};

/// Whether no multiplier is below 0.
fn is_signed(p: &Proof) -> bool
    ensures { result ≡ is_signed p.now }
{
    let parts = p.parts();
    for i in 0..parts.len() {
        if !parts.at(i).multiplier.is_at_least_zero() {
            return false;
        }
    }
    p.goal().is_at_least_zero()
}

/// Whether each part names one of so many premises.
fn names_premises(count: usize, p: &Proof) -> bool
    ensures { result ≡ names_premises count p.now }
{
    let parts = p.parts();
    for i in 0..parts.len() {
        if count <= parts.at(i).index as usize {
            return false;
        }
    }
    true
}

/// The total of a proof. `Past` exactly where a number of the negated goal, of a product or of a
/// sum so far is not in range.
fn total(e: &Edge, rows: &Rows, goal: &Row, p: &Proof) -> Result<Total, Past>
    requires { AllByRecursion (λ q. q.index < length (premises e.now.what rows.now)) p.now.parts }
    ensures { OkIff result (TotalFits (premises e.now.what rows.now) goal.now p.now) (total (premises e.now.what rows.now) goal.now p.now) }
{
    let start = goal.negated()?.times(p.goal())?;
    with_parts(e, rows, Total::of_row(&start), p.parts())
}

/// The start, and the premises that are named added to it in order, each times its multiplier.
fn with_parts(e: &Edge, rows: &Rows, start: Total, parts: &Parts) -> Result<Total, Past>
    requires { AllByRecursion (λ q. q.index < length (premises e.now.what rows.now)) parts.now }
    ensures { OkIff result (PartsFit (premises e.now.what rows.now) start parts.now) (with_parts (premises e.now.what rows.now) start parts.now) }
{
    let mut sum = start;
    for i in 0..parts.len() {
        let part = parts.at(i);
        sum.add(part.multiplier, e.premise(rows, part.index as usize))?;
    }
    Ok(sum)
}

/// The first thing that is wrong with a proof of the goal over an edge, where `rows` are those of the
/// point that it leaves.
pub fn flaw(e: &Edge, rows: &Rows, goal: &Row, p: &Proof) -> Option<Flaw>
    ensures { result ≡ flaw (premises e.now.what rows.now) goal.now p.now }
{
    if !is_signed(p) {
        return Some(Flaw::Negative);
    }
    if !names_premises(e.premises(rows), p) {
        return Some(Flaw::Index);
    }
    match total(e, rows, goal, p) {
        Ok(total) => Flaw::of_total(&total),
        Err(Past) => Some(Flaw::Past),
    }
}
