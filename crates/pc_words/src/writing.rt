//! What `clap` found, written as a list of words.

ghost use Rattle.std.specs.Prelude.{◌≡◌, ◌++◌, map, string_bytes, IfOk, OnOk};
ghost use Rattle.clap.specs.Words.{found_of, rows_of, first_of, subcommand_rows_of};
ghost use Rattle.pc_words.specs.Building.{text_in};
ghost use Rattle.pc_words.specs.CommandLine.{written_by, written_of, positionals_in, as_word, as_flag, as_option};

use clap::ArgMatches;
use std::alloc::{AllocError, Global};

/// The words that the matches are written as.
pub(crate) fn written_of(alloc: Global, found: &ArgMatches<'_>) -> Result<Vec<String>, AllocError>
    ensures { IfOk result (λ words. map string_bytes words.items ≡ written_by (subcommand_rows_of found.now)) }
{
    match found.subcommand() {
        Some((name, found)) => of_subcommand(alloc, name, found),
        None => Ok(Vec::new(alloc)),
    }
}

/// The words of a subcommand's name and of what was found for its arguments.
fn of_subcommand(
    alloc: Global,
    name: &str,
    found: &ArgMatches<'_>,
) -> Result<Vec<String>, AllocError>
    ensures { IfOk result (λ words. map string_bytes words.items ≡ written_of name.now (rows_of (found_of found.now))) }
{
    let mut words = positionals_of(alloc, name, found)?;
    push_flag(alloc, &mut words, value_of(found, "certificate"))?;
    push_option(alloc, &mut words, value_of(found, "domain"))?;
    Ok(words)
}

/// The words of a subcommand's name and of its positional arguments.
fn positionals_of(
    alloc: Global,
    name: &str,
    found: &ArgMatches<'_>,
) -> Result<Vec<String>, AllocError>
    ensures { IfOk result (λ words. map string_bytes words.items ≡ positionals_in name.now (rows_of (found_of found.now))) }
{
    let mut words = Vec::new(alloc);
    push_word(alloc, &mut words, Some(name))?;
    push_word(alloc, &mut words, value_of(found, "first"))?;
    push_word(alloc, &mut words, value_of(found, "second"))?;
    Ok(words)
}

/// The value of the argument with this id.
fn value_of<'a>(found: &ArgMatches<'a>, id: &str) -> Option<&'a str>
    ensures { text_in result ≡ first_of id.now (rows_of (found_of found.now)) }
{
    found.get_str(id)
}

/// Adds a value as a word.
fn push_word(alloc: Global, words: &mut Vec<String>, value: Option<&str>) -> Result<(), AllocError>
    ensures { OnOk result (map string_bytes words.new.items ≡ map string_bytes words.old.items ++ as_word (text_in value.entry)) }
{
    if let Some(word) = value {
        words.push(String::from_str(alloc, word)?)?;
    }
    Ok(())
}

/// Adds `--certificate` where the flag's value is `true`.
fn push_flag(alloc: Global, words: &mut Vec<String>, value: Option<&str>) -> Result<(), AllocError>
    ensures { OnOk result (map string_bytes words.new.items ≡ map string_bytes words.old.items ++ as_flag (text_in value.entry)) }
{
    match value {
        Some(value) if value == "true" => push_word(alloc, words, Some("--certificate")),
        _ => Ok(()),
    }
}

/// Adds `--domain=` with its value.
fn push_option(
    alloc: Global,
    words: &mut Vec<String>,
    value: Option<&str>,
) -> Result<(), AllocError>
    ensures { OnOk result (map string_bytes words.new.items ≡ map string_bytes words.old.items ++ as_option (text_in value.entry)) }
{
    if let Some(value) = value {
        let mut word = String::from_str(alloc, "--domain=")?;
        word.push_str(value)?;
        words.push(word)?;
    }
    Ok(())
}
