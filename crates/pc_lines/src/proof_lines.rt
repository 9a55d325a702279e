//! The lines of proofs.

ghost use Rattle.std.specs.Prelude.{◌≡◌, ◌≤◌, []};
ghost use Rattle.pc_rows.specs.declared.system.TheConstants.{PREMISES};
ghost use Rattle.pc_lines.specs.Answers.{Gives, Reads};
ghost use Rattle.pc_lines.specs.LineReaders as spec;
ghost use Rattle.pc_text.specs.Words.{IsFit, words};
ghost use Rattle.pc_lines.specs.Forms.{are_pairs};

use crate::fault::{CertFault, broken};
use pc_rows::{Number, Part, Parts, Proof};
use pc_text::{Word, Words, count_of, is_count, is_numeral};
use std::alloc::Global;

/// Whether pairs of an index and a multiplier are left, and nothing else.
fn are_pairs(words: &mut Words) -> bool
    ensures { result ≡ are_pairs words.old }
{
    'pairs: while let Some(index) = words.next() {
        match words.next() {
            Some(multiplier) if is_count(index) && is_numeral(multiplier) => {}
            _ => return false,
        }
    }
    true
}

/// The part that an index and a multiplier make, which keeps the rules where the index is at least
/// `least` and names one of so many premises. Nothing where it breaks one.
fn part_of(index: u32, multiplier: Word, premises: u32, least: u32) -> Option<Part>
    requires number { IsFit multiplier }
    requires premises { premises ≤ PREMISES }
    ensures { result ≡ spec.part_of premises least index multiplier }
{
    match multiplier {
        Word::Number(multiplier) if least <= index && index < premises && !(multiplier == 0) => {
            let multiplier = Number::new(multiplier);
            Some(Part { index, multiplier })
        }
        _ => None,
    }
}

/// The next part of line `number`, if one is left. Its index is to be at least `least`.
fn next_part(
    words: &mut Words,
    premises: u32,
    least: u32,
    number: u32,
) -> Result<Option<Part>, CertFault>
    requires { premises ≤ PREMISES }
    ensures { Reads (spec.next_part premises number least words.old) result words.new }
{
    let Some(index) = words.next() else {
        return Ok(None);
    };
    let Some(multiplier) = words.next() else {
        return Err(CertFault::Form(number));
    };
    let Some(index) = count_of(index) else {
        return Err(CertFault::Form(number));
    };
    let multiplier = Word::of(multiplier);
    if let Word::Other = multiplier {
        return Err(CertFault::Form(number));
    }
    match part_of(index, multiplier, premises, least) {
        Some(part) => Ok(Some(part)),
        None => Err(broken(are_pairs(words), number)),
    }
}

/// The parts of the words that are left in line `number`.
fn parts(alloc: Global, words: &mut Words, premises: u32, number: u32) -> Result<Parts, CertFault>
    requires { premises ≤ PREMISES }
    ensures { Gives (spec.parts_from premises number 0 [] words.old) result }
{
    let mut parts = Parts::new(alloc);
    let mut least = 0;
    'parts: while let Some(part) = next_part(words, premises, least, number)? {
        least = part.index + 1;
        parts.push(part)?;
    }
    Ok(parts)
}

/// The multiplier of the goal in line `number`, behind which pairs are to stand.
fn goal(words: &mut Words, number: u32) -> Result<Number, CertFault>
    ensures { Reads (spec.goal_of number words.old) result words.new }
{
    let Some(word) = words.next() else {
        return Err(CertFault::Form(number));
    };
    match Word::of(word) {
        Word::Number(n) => Ok(Number::new(n)),
        Word::Past => Err(broken(are_pairs(words), number)),
        Word::Other => Err(CertFault::Form(number)),
    }
}

/// The proof of line `number`: the multiplier of the goal, and then pairs of an index and a
/// multiplier.
pub(crate) fn proof(
    alloc: Global,
    line: &[u8],
    premises: u32,
    number: u32,
) -> Result<Proof, CertFault>
    requires { premises ≤ PREMISES }
    ensures { Gives (spec.proof_of premises number (words line.now)) result }
{
    let mut words = Words::new(line);
    let goal = goal(&mut words, number)?;
    let parts = parts(alloc, &mut words, premises, number)?;
    Ok(Proof::new(goal, parts))
}
