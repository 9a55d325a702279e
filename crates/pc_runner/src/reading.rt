//! Scripts, read from their texts.

ghost use Rattle.std.specs.Prelude.{◌≡◌, ◌≤◌, ◌<◌, ◌-◌, ◌^◌, ◌++◌, [], length, replicate, codes, true, false, OnOk, IfOk, MatchOption, option_map};
ghost use Rattle.std.specs.List.{list_all};
ghost use Rattle.pc_text.specs.Lines as text;
ghost use Rattle.pc_text.specs.Numerals.{integer_of, is_in_range};
ghost use Rattle.pc_text.specs.Words.{behind, is_numeral, words};
ghost use Rattle.pc_runner.specs.Answers.{Gives, Reads};
ghost use Rattle.pc_runner.specs.Scripts as spec;
ghost use Rattle.pc_runner.specs.Scripts.{script_of};

use crate::fault::ScriptFault;
use crate::script::{CHOICES, Script};
use pc_text::{Lines, Word, Words, is_numeral};
use sqlite_items::Items;
use std::alloc::{AllocError, Global};

/// Whether all words that are left are numerals.
fn are_numerals(words: &mut Words) -> bool
    ensures { result ≡ list_all is_numeral words.old }
{
    'words: while let Some(word) = words.next() {
        if !is_numeral(word) {
            return false;
        }
    }
    true
}

/// The number of a numeral, nothing where it is not in range.
fn number_of(numeral: &[u8]) -> Option<i128>
    requires { is_numeral numeral.now ≡ true }
    ensures { MatchOption result (is_in_range (integer_of numeral.now) ≡ false)
        (λ n. (n ≡ integer_of numeral.now) × (is_in_range n ≡ true)) }
{
    match Word::of(numeral) {
        Word::Number(number) => Some(number),
        Word::Past => None,
        Word::Other => None,
    }
}

/// The numbers of the numerals that are left in the first line, in order.
fn values(alloc: Global, words: &mut Words) -> Result<Items<i128>, ScriptFault>
    requires { list_all is_numeral words.old ≡ true }
    ensures gives { Gives result (spec.values_in 1 words.old) }
    ensures few { IfOk result (λ values. length values ≤ length words.old) }
    ensures in_range { IfOk result (λ values. list_all is_in_range values ≡ true) }
{
    let mut values = Items::new(alloc);
    'words: while let Some(word) = words.next() {
        let Some(number) = number_of(word) else {
            return Err(ScriptFault::Number(1));
        };
        values.push(number)?;
    }
    Ok(values)
}

/// The entry values of the first line.
fn read_entry(alloc: Global, line: &[u8], params: u32) -> Result<Items<i128>, ScriptFault>
    requires { length line.now < 2 ^ 32 - 1 }
    ensures gives { Gives result (spec.entry_of params line.now) }
    ensures in_range { IfOk result (λ values. list_all is_in_range values ≡ true) }
{
    let Some(mut words) = Words::behind(line, b"entry") else {
        return Err(ScriptFault::Form(1));
    };
    let mut tested = words.copy();
    if !are_numerals(&mut tested) {
        return Err(ScriptFault::Form(1));
    }
    let values = values(alloc, &mut words)?;
    let given = values.len() as u32;
    if given == params {
        Ok(values)
    } else {
        Err(ScriptFault::Values {
            given,
            wanted: params,
        })
    }
}

/// The words of a choice and of how often it is made, nothing where the line has others.
fn choice_words(line: &[u8]) -> Option<(&[u8], &[u8])>
    ensures { option_map (λ x. (x.0.now, x.1.now)) result ≡ spec.choice_behind (behind (codes "choose") (words line.now)) }
{
    let mut words = Words::behind(line, b"choose")?;
    let value = words.next()?;
    let Some(times) = words.next() else {
        return Some((value, b"1".as_slice()));
    };
    if words.is_empty() {
        Some((value, times))
    } else {
        None
    }
}

/// A choice and how often it is made.
fn read_choice(line: &[u8], number: u32) -> Result<(i128, usize), ScriptFault>
    ensures gives { result ≡ spec.choice_of number line.now }
    ensures in_range { IfOk result (λ x. is_in_range x.0 ≡ true) }
{
    match choice_words(line) {
        Some((value, times)) if is_numeral(value) && is_numeral(times) => {
            repeated(value, times, number)
        }
        _ => Err(ScriptFault::Form(number)),
    }
}

fn repeated(value: &[u8], times: &[u8], number: u32) -> Result<(i128, usize), ScriptFault>
    requires value { is_numeral value.now ≡ true }
    requires times { is_numeral times.now ≡ true }
    ensures gives { result ≡ spec.repeated number (integer_of value.now) (integer_of times.now) }
    ensures in_range { IfOk result (λ x. is_in_range x.0 ≡ true) }
{
    match (number_of(value), number_of(times)) {
        (Some(value), Some(times)) if 1 <= times && times <= CHOICES as i128 => {
            Ok((value, times as usize))
        }
        _ => Err(ScriptFault::Number(number)),
    }
}

/// Adds a choice as often as it is made.
fn add(choices: &mut Items<i128>, choice: i128, times: usize) -> Result<(), AllocError>
    ensures { OnOk result (choices.new ≡ choices.old ++ replicate times choice) }
{
    'times: for _ in 0..times {
        choices.push(choice)?;
    }
    Ok(())
}

/// The choices of the lines that are left.
fn read_choices(alloc: Global, lines: &mut Lines) -> Result<Items<i128>, ScriptFault>
    ensures gives { Gives result (spec.choices_of lines.old.number [] (text.lines lines.old.rest)) }
    ensures in_range { IfOk result (λ choices. list_all is_in_range choices ≡ true) }
    ensures few { IfOk result (λ choices. length choices ≤ CHOICES) }
{
    let mut choices = Items::new(alloc);
    'lines: while let Some((number, line, ended)) = lines.next() {
        if !ended {
            return Err(ScriptFault::Form(number));
        }
        let (choice, times) = read_choice(line, number)?;
        if times > CHOICES - choices.len() {
            return Err(ScriptFault::Many(number));
        }
        add(&mut choices, choice, times)?;
    }
    Ok(choices)
}

/// The script that a text spells, for a program with so many parameters.
///
/// The first line is `entry` and a value for each parameter, each after one space. Every further
/// line is `choose` and a choice, and how often it is made where that is not once. Numbers are
/// canonical numerals, and every line ends with one line feed.
pub fn read_script(alloc: Global, src: &[u8], params: u32) -> Result<Script, ScriptFault>
    requires { length src.now < 2 ^ 32 - 1 }
    ensures { Reads (script_of params src.now) result }
{
    let mut lines = Lines::new(src);
    let Some((_, first, ended)) = lines.next() else {
        return Err(ScriptFault::Form(1));
    };
    if !ended {
        return Err(ScriptFault::Form(1));
    }
    let entry = read_entry(alloc, first, params)?;
    let choices = read_choices(alloc, &mut lines)?;
    Ok(Script { entry, choices })
}
