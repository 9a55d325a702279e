//! The texts of assignments and assertions, and of the fronts of tests and loops.

ghost use Rattle.std.specs.Prelude.{◌≡◌, ◌<◌, ◌++◌, true, length, codes, OnOk};
ghost use Rattle.pc_show.specs.Canonical as spec;
ghost use Rattle.pc_program.specs.Naming.{named_all, named_test};
ghost use Rattle.pc_show.specs.Pieces.{bytes_of};
ghost use Rattle.pc_program.specs.Sane.{names_below};

use crate::showing::compares::{push_all, push_test};
use crate::showing::rights::push_right;
use pc_program::{Compare, Right, Test};
use pc_text::{Names, NoMemory, Text};

/// Appends the margin, a keyword and a parenthesis.
fn push_opening(text: &mut Text, margin: &[u8], word: &[u8]) -> Result<(), NoMemory>
    ensures { OnOk result (text.new ≡ text.old ++ (margin.now ++ (word.now ++ codes " ("))) }
{
    text.push_all(margin)?;
    text.push_all(word)?;
    text.push_all(b" (")
}

/// Appends an assertion or an assumption.
pub fn push_claim(
    text: &mut Text,
    names: &Names,
    margin: &[u8],
    word: &[u8],
    all: &[Compare],
) -> Result<(), NoMemory>
    requires { named_all (length names.now.names) all.now ≡ true }
    ensures { OnOk result (text.new ≡ text.old ++ (margin.now ++ (word.now ++ (codes " (" ++ (bytes_of (spec.all_pieces names.now.names all.now) ++ codes ");\n"))))) }
{
    push_opening(text, margin, word)?;
    push_all(text, names, all)?;
    text.push_all(b");\n")
}

/// Appends the front of an `if` or a `while`, up to its test.
pub fn push_tested(
    text: &mut Text,
    names: &Names,
    margin: &[u8],
    word: &[u8],
    test: &Test,
) -> Result<(), NoMemory>
    requires { named_test (length names.now.names) test.now ≡ true }
    ensures { OnOk result (text.new ≡ text.old ++ (margin.now ++ (word.now ++ (codes " (" ++ (bytes_of (spec.test_pieces names.now.names test.now) ++ codes ")"))))) }
{
    push_opening(text, margin, word)?;
    push_test(text, names, test)?;
    text.push_all(b")")
}

/// Appends the comparisons that a loop tries, if there are any.
pub fn push_tried(text: &mut Text, names: &Names, tried: &[Compare]) -> Result<(), NoMemory>
    requires { named_all (length names.now.names) tried.now ≡ true }
    ensures { OnOk result (text.new ≡ text.old ++ bytes_of (spec.tried_pieces names.now.names tried.now)) }
{
    if tried.is_empty() {
        return Ok(());
    }
    text.push_all(b" try (")?;
    push_all(text, names, tried)?;
    text.push_all(b")")
}

/// Appends the target of an assignment and its sign.
fn push_target(text: &mut Text, names: &Names, margin: &[u8], var: u32) -> Result<(), NoMemory>
    requires { var < length names.now.names }
    ensures { OnOk result (text.new ≡ text.old ++ (margin.now ++ (spec.name_at names.now.names var ++ codes " = "))) }
{
    text.push_all(margin)?;
    text.push_all(names.at(var))?;
    text.push_all(b" = ")
}

/// Appends an assignment.
pub fn push_set(
    text: &mut Text,
    names: &Names,
    margin: &[u8],
    var: u32,
    right: &Right,
) -> Result<(), NoMemory>
    requires target { var < length names.now.names }
    requires right { names_below (length names.now.names) right.now.expr ≡ true }
    ensures { OnOk result (text.new ≡ text.old ++ (margin.now ++ (spec.name_at names.now.names var ++ (codes " = " ++ (bytes_of (spec.right_pieces names.now.names right.now) ++ codes ";\n"))))) }
{
    push_target(text, names, margin, var)?;
    push_right(text, names, right)?;
    text.push_all(b";\n")
}
