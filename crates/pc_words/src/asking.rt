//! What `clap` is asked, and what its answer is written as.

ghost use Rattle.std.specs.Prelude.{◌≡◌, map, string_bytes, IfOk, MatchOption};
ghost use Rattle.clap.specs.Words.{FailsBy, fault_of, subcommand_of, subcommand_rows_of};
ghost use Rattle.pc_words.specs.Words.{Order};
ghost use Rattle.pc_words.specs.CommandLine.{Accepts, precond, written};
ghost use Rattle.pc_words.specs.Taken.{IsTaken, IsTakenAs};

use crate::command::precond_command;
use crate::words::command_of;
use crate::writing::written_of;
use clap::error::ErrorKind;
use clap::{ArgMatches, Error};
use pc_text::NoMemory;
use std::alloc::Global;

/// The plain form that `clap` takes the words as: it accepts them for the command, and its answer
/// is written as the words of this form. It is none exactly where there is no such form.
pub fn taken(alloc: Global, words: &[String]) -> Result<Option<Vec<String>>, NoMemory>
    ensures { IfOk result (λ answer. MatchOption answer
        ((order : Order) → IsTaken (map string_bytes words.now) order → ⊥)
        (λ list. IsTakenAs (map string_bytes words.now) (map string_bytes list.items))) }
{
    match accepted(alloc, words)? {
        Some(list) if command_of(list.as_slice()).is_some() => Ok(Some(list)),
        Some(_) | None => Ok(None),
    }
}

/// The words that the answer of `clap` is written as, where it accepts the words.
fn accepted(alloc: Global, words: &[String]) -> Result<Option<Vec<String>>, NoMemory>
    ensures { IfOk result (λ answer. MatchOption answer
        (Accepts (map string_bytes words.now) → ⊥)
        (λ list. Accepts (map string_bytes words.now) × (map string_bytes list.items ≡ written (map string_bytes words.now)))) }
{
    match matches(alloc, words) {
        Ok(found) => match written_of(alloc, &found) {
            Ok(list) => Ok(Some(list)),
            Err(_) => Err(NoMemory),
        },
        Err(error) => match error.kind() {
            ErrorKind::OutOfMemory => Err(NoMemory),
            _ => Ok(None),
        },
    }
}

/// What `clap` finds in the words.
pub(crate) fn matches<'a>(alloc: Global, words: &'a [String]) -> Result<ArgMatches<'a>, Error>
    ensures found { IfOk result (λ m. subcommand_rows_of m ≡ subcommand_of precond (map string_bytes words.entry.now)) }
    ensures kinds { FailsBy (fault_of precond (map string_bytes words.entry.now)) result }
{
    precond_command(alloc)?.try_get_matches_from(words)
}
