//! The lines of rows.

ghost use Rattle.std.specs.Prelude.{◌≡◌, ◌≤◌, ◌-◌};
ghost use Rattle.pc_lines.specs.Answers.{Gives, Reads};
ghost use Rattle.pc_lines.specs.LineReaders as spec;
ghost use Rattle.pc_text.specs.Words.{words};
ghost use Rattle.pc_lines.specs.Forms.{are_numerals};

use crate::fault::{CertFault, broken};
use pc_rows::{Number, Row, VARIABLES};
use pc_text::{Word, Words, is_numeral};
use std::alloc::Global;

/// Whether exactly so many numerals are left.
fn are_numerals(words: &mut Words, count: usize) -> bool
    ensures { result ≡ are_numerals count words.old }
{
    'words: for _ in 0..count {
        match words.next() {
            Some(word) if is_numeral(word) => {}
            _ => return false,
        }
    }
    words.is_empty()
}

/// The next number of line `number`, behind which so many numerals are to stand.
fn next_number(words: &mut Words, behind: usize, number: u32) -> Result<Number, CertFault>
    ensures { Reads (spec.next_number behind number words.old) result words.new }
{
    let Some(word) = words.next() else {
        return Err(CertFault::Form(number));
    };
    match Word::of(word) {
        Word::Number(n) => Ok(Number::new(n)),
        Word::Past => Err(broken(are_numerals(words, behind), number)),
        Word::Other => Err(CertFault::Form(number)),
    }
}

/// The row of line `number`: its constant, and its coefficients at so many variables.
pub(crate) fn row(alloc: Global, line: &[u8], variables: u32, number: u32) -> Result<Row, CertFault>
    requires { variables ≤ VARIABLES }
    ensures { Gives (spec.row_of variables number (words line.now)) result }
{
    let mut words = Words::new(line);
    let constant = next_number(&mut words, variables as usize, number)?;
    let mut row = Row::of_constant(alloc, constant.get());
    'variables: for v in 0..variables {
        let behind = (variables - v - 1) as usize;
        let coefficient = next_number(&mut words, behind, number)?;
        row = row.with(v, coefficient.get());
    }
    if words.is_empty() {
        Ok(row)
    } else {
        Err(CertFault::Form(number))
    }
}
