//! Proofs put together. Nothing is proved of what they show: whoever uses one checks it.

ghost use Rattle.std.specs.Prelude.{◌≡◌, ◌<◌, ◌^◌, map, unsigned_abs};
ghost use Rattle.std.specs.Int.{IsGcd};
ghost use Rattle.pc_rows.specs.declared.system.TheConstants.{PREMISES as MOST};
ghost use Rattle.pc_entail.specs.Composition.{multiplier_at, over, IsDivisor};
ghost use Rattle.pc_entail.specs.Composing.{ComposedIs, SumIs, PartIs, PartsAre, ProofIs};

use pc_rows::{NoMemory, Number, PREMISES, Part, Parts, Past, Proof};
use std::alloc::Global;

/// The proof `old` without the premise at `place`, in whose place stands what `gone` shows that
/// premise by: `old` as often as `gone` takes the negated premise, and `gone` as often as `old`
/// takes the premise. The later premises have their indices in a list without that premise, as
/// those of `gone` have. None exactly where a number is not in range.
pub fn composed(
    alloc: Global,
    old: &Proof,
    gone: &Proof,
    place: usize,
) -> Result<Option<Proof>, NoMemory>
    ensures { ComposedIs old.now gone.now place result }
{
    let mut premises = [Number::new(0); PREMISES];
    match compose(&mut premises, old, gone, place) {
        Ok(goal) => Ok(Some(proof_of(alloc, goal, &premises)?)),
        Err(Past) => Ok(None),
    }
}

/// Adds the multipliers of the premises, and answers that of the negated goal. Where the old proof
/// does not take the premise that goes, only the indices are others.
fn compose(
    premises: &mut [Number; PREMISES],
    old: &Proof,
    gone: &Proof,
    place: usize,
) -> Result<Number, Past>
    ensures { SumIs premises.old old.now gone.now place result premises.new }
{
    let taken = multiplier_at(old.parts(), place);
    if taken.is_zero() {
        add(premises, Number::new(1), old.parts(), place)?;
        return Ok(old.goal());
    }
    add(premises, gone.goal(), old.parts(), place)?;
    add(premises, taken, gone.parts(), PREMISES)?;
    gone.goal().times(old.goal())
}

/// The multiplier of the premise at `place`, which is 0 where no part names it.
fn multiplier_at(parts: &Parts, place: usize) -> Number
    ensures { result ≡ multiplier_at parts.now place }
{
    for i in 0..parts.len() {
        let part = parts.at(i);
        if part.index as usize == place {
            return part.multiplier;
        }
    }
    Number::new(0)
}

/// Adds the parts, `times` as often, by their indices in a list without the premise at `place`.
fn add(
    premises: &mut [Number; PREMISES],
    times: Number,
    parts: &Parts,
    place: usize,
) -> Result<(), Past>
    ensures { PartsAre times place premises.old parts.now result premises.new }
{
    for i in 0..parts.len() {
        add_part(premises, times, parts.at(i), place)?;
    }
    Ok(())
}

/// Adds a part in the same way.
fn add_part(
    premises: &mut [Number; PREMISES],
    times: Number,
    part: Part,
    place: usize,
) -> Result<(), Past>
    requires { part.index < MOST }
    ensures { PartIs times place premises.old part result premises.new }
{
    let at = part.index as usize;
    if at == place {
        return Ok(());
    }
    let i = if at < place { at } else { at - 1 };
    premises[i] = premises[i].plus_product(times, part.multiplier)?;
    Ok(())
}

/// The greatest common divisor.
fn common_divisor(goal: Number, premises: &[Number; PREMISES]) -> u128
    ensures { IsDivisor (unsigned_abs goal) premises.now result }
{
    let mut divisor = magnitude(goal);
    for i in 0..PREMISES {
        divisor = divisor_of(magnitude(premises[i]), divisor);
    }
    divisor
}

/// The greatest common divisor of the two, which is the other one where one is 0.
fn divisor_of(a: u128, b: u128) -> u128
    ensures { IsGcd a b result }
{
    let mut greater = a;
    let mut lesser = b;
    'division: while lesser != 0 {
        let rest = greater % lesser;
        greater = lesser;
        lesser = rest;
    }
    greater
}

/// The absolute value.
fn magnitude(n: Number) -> u128
    ensures value { result ≡ unsigned_abs n }
    ensures bound { result < 2 ^ 127 }
{
    n.get().unsigned_abs()
}

/// The absolute value over the divisor.
fn over(n: Number, divisor: u128) -> Number
    requires { 0 < divisor }
    ensures { result ≡ over divisor n }
{
    Number::new((magnitude(n) / divisor) as i128)
}

/// The premises whose multipliers are not 0, and the multiplier of the negated goal, all over their
/// greatest common divisor, so that they stay small.
fn proof_of(alloc: Global, goal: Number, premises: &[Number; PREMISES]) -> Result<Proof, NoMemory>
    ensures { ProofIs goal premises.now result }
{
    let divisor = common_divisor(goal, premises).max(1);
    let small = all_over(premises, divisor);
    Ok(Proof::new(over(goal, divisor), Parts::of_multipliers(alloc, &small)?))
}

/// The absolute values over the divisor.
fn all_over(premises: &[Number; PREMISES], divisor: u128) -> [Number; PREMISES]
    requires { 0 < divisor }
    ensures { result ≡ map (over divisor) premises.now }
{
    let mut small = *premises;
    for i in 0..PREMISES {
        small[i] = over(premises[i], divisor);
    }
    small
}
