//! The lines of one text, and those that tell sizes or how many lines follow.

ghost use Rattle.std.specs.Prelude.{◌≡◌, ◌≤◌, ◌<◌, ◌-◌, ◌^◌, option_map, IfOk};
ghost use Rattle.pc_lines.specs.Counts as spec;
ghost use Rattle.pc_lines.specs.Forms.{number_at};
ghost use Rattle.pc_lines.specs.Kinds as kind;
ghost use Rattle.pc_lines.specs.Readers.{line_value};
ghost use Rattle.pc_text.specs.Words.{words};

use crate::fault::CertFault;
use crate::sizes::Sizes;
use pc_text::{Words, count_of};

/// The next word as a count.
fn next_count(words: &mut Words) -> Option<u32>
    ensures { option_map (λ n. (n, words.new)) result ≡ spec.next_count words.old }
{
    count_of(words.next()?)
}

/// The counts behind the name of a line that has two of them.
fn two_counts(line: &[u8], name: &[u8]) -> Option<(u32, u32)>
    ensures { result ≡ spec.two_counts name.now (words line.now) }
{
    let mut words = Words::behind(line, name)?;
    let first = next_count(&mut words)?;
    let second = next_count(&mut words)?;
    if words.is_empty() {
        Some((first, second))
    } else {
        None
    }
}

/// The counts behind the name of a line that has three of them.
fn three_counts(line: &[u8], name: &[u8]) -> Option<(u32, u32, u32)>
    ensures { result ≡ spec.three_counts name.now (words line.now) }
{
    let mut words = Words::behind(line, name)?;
    let first = next_count(&mut words)?;
    let second = next_count(&mut words)?;
    let third = next_count(&mut words)?;
    if words.is_empty() {
        Some((first, second, third))
    } else {
        None
    }
}

/// Checks that line `number` is this text.
pub(crate) fn just(line: &[u8], text: &[u8], number: u32) -> Result<(), CertFault>
    ensures { result ≡ line_value (kind.just text.now) (λ _. tt) number (words line.now) }
{
    if line == text {
        Ok(())
    } else {
        Err(CertFault::Form(number))
    }
}

/// The sizes that line `number` names, each within its limit.
pub(crate) fn sizes(line: &[u8], most: Sizes, number: u32) -> Result<Sizes, CertFault>
    requires { kind.AreSmall most }
    ensures value { result ≡ line_value (kind.graph most) kind.sizes_of number (words line.now) }
    ensures variables { IfOk result (λ sizes. sizes.variables ≤ most.variables) }
{
    match three_counts(line, b"graph") {
        None => Err(CertFault::Form(number)),
        Some((points, edges, variables)) => {
            let sizes = Sizes {
                points,
                edges,
                variables,
            };
            if sizes.are_within(most) {
                Ok(sizes)
            } else {
                Err(CertFault::Number(number))
            }
        }
    }
}

/// How many lines belong to the one that line `number` begins, which is to have this name and this
/// running number.
pub(crate) fn head(
    line: &[u8],
    name: &[u8],
    running: u32,
    most: usize,
    number: u32,
) -> Result<usize, CertFault>
    requires running { running < 2 ^ 32 - 1 }
    requires most { most < 2 ^ 32 - 1 }
    ensures value { result ≡ line_value (kind.head name.now running most) (number_at 2) number (words line.now) }
    ensures few { IfOk result (λ count. count ≤ most) }
{
    match two_counts(line, name) {
        None => Err(CertFault::Form(number)),
        Some((first, count)) => {
            if first == running && count as usize <= most {
                Ok(count as usize)
            } else {
                Err(CertFault::Number(number))
            }
        }
    }
}
