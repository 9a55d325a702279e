//! Proofs of goals that the premises cover.

ghost use Rattle.std.specs.Prelude.{◌≡◌, ◌<◌, IfSome, true};
ghost use Rattle.std.specs.List.{position_from};
ghost use Rattle.pc_rows.specs.Linear.{negation};
ghost use Rattle.pc_rows.specs.Joins.{is_at_most, is_covered};
ghost use Rattle.pc_rows.specs.declared.system.TheConstants.{PREMISES};
ghost use Rattle.pc_flow.specs.Carry.{premises};
ghost use Rattle.pc_certify.specs.Proving.{alone, ByPremise, CoveredIs};

use crate::origin::Origin;
use pc_rows::{NoMemory, Number, Part, Parts, Past, Proof, Row};
use std::alloc::Global;

/// The proof of a goal that the premises of an edge cover: the negated goal once, and once the
/// first premise with the goal's coefficients and a constant that is not greater. Where the goal has
/// no variable and a constant of at least 0, the negated goal alone. Nothing only where the sum of
/// the two constants is not in range.
pub fn covered(
    alloc: Global,
    origin: &Origin,
    goal: &Row,
    negated: &Row,
) -> Result<Option<Proof>, NoMemory>
    requires covers { is_covered goal.now (premises origin.now.edge.now.what origin.now.rows.now) ≡ true }
    requires negation { negated.now ≡ negation goal.now }
    ensures { CoveredIs (premises origin.now.edge.now.what origin.now.rows.now) goal.now result }
{
    if goal.is_always() {
        let _in_range = negated.constant();
        return Ok(Some(alone(alloc)));
    }
    match first_cover(origin, goal) {
        Some(i) => by_premise(alloc, i, origin.edge.premise(origin.rows, i), negated),
        None => unreachable!(),
    }
}

/// The index of the first premise with the coefficients of the goal and a constant that is not
/// greater.
fn first_cover(origin: &Origin, goal: &Row) -> Option<usize>
    ensures first { result ≡ position_from (λ r. is_at_most r goal.now) 0 (premises origin.now.edge.now.what origin.now.rows.now) }
    ensures few { IfSome result (λ i. i < PREMISES) }
{
    for i in 0..origin.edge.premises(origin.rows) {
        if origin.edge.premise(origin.rows, i).is_at_most(goal) {
            return Some(i);
        }
    }
    None
}

/// The negated goal alone, once.
fn alone(alloc: Global) -> Proof
    ensures { result ≡ alone }
{
    Proof::new(Number::new(1), Parts::new(alloc))
}

/// The negated goal and premise `i`, once each. Nothing exactly where the sum of their constants is
/// not in range.
fn by_premise(
    alloc: Global,
    i: usize,
    premise: &Row,
    negated: &Row,
) -> Result<Option<Proof>, NoMemory>
    requires { i < PREMISES }
    ensures { ByPremise i premise.now negated.now result }
{
    let constant = Number::new(negated.constant());
    if constant.plus(Number::new(premise.constant())) == Err(Past) {
        return Ok(None);
    }
    let mut parts = Parts::new(alloc);
    parts.push(Part {
        index: i as u32,
        multiplier: Number::new(1),
    })?;
    Ok(Some(Proof::new(Number::new(1), parts)))
}
