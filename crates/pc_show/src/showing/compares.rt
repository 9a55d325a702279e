//! The texts of comparisons, conjunctions and tests.

ghost use Rattle.std.specs.Prelude.{◌≡◌, ◌++◌, true, length, OnOk};
ghost use Rattle.pc_show.specs.Canonical as spec;
ghost use Rattle.pc_program.specs.Naming.{named_compare, named_all, named_test};
ghost use Rattle.pc_show.specs.Pieces.{bytes_of};

use crate::showing::exprs::push_expr;
use crate::showing::level::Level;
use pc_language::Op;
use pc_program::{Compare, Test};
use pc_text::{Names, NoMemory, Text};

/// Appends the sign of a comparison, with a space on each side.
fn push_sign(text: &mut Text, op: Op) -> Result<(), NoMemory>
    ensures { OnOk result (text.new ≡ text.old ++ bytes_of (spec.spaced (spec.sign_of op))) }
{
    match op {
        Op::Less => text.push_all(b" < "),
        Op::AtMost => text.push_all(b" <= "),
        Op::Greater => text.push_all(b" > "),
        Op::AtLeast => text.push_all(b" >= "),
        Op::Equal => text.push_all(b" == "),
        Op::Unequal => text.push_all(b" != "),
    }
}

/// Appends a comparison.
fn push_compare(text: &mut Text, names: &Names, c: &Compare) -> Result<(), NoMemory>
    requires { named_compare (length names.now.names) c.now ≡ true }
    ensures { OnOk result (text.new ≡ text.old ++ bytes_of (spec.compare_pieces names.now.names c.now)) }
{
    push_expr(text, names, &c.left, Level::Expression)?;
    push_sign(text, c.op)?;
    push_expr(text, names, &c.right, Level::Expression)
}

/// Appends comparisons, each behind a ` && `.
fn push_further(text: &mut Text, names: &Names, cs: &[Compare]) -> Result<(), NoMemory>
    requires { named_all (length names.now.names) cs.now ≡ true }
    ensures { OnOk result (text.new ≡ text.old ++ bytes_of (spec.further_pieces names.now.names cs.now)) }
{
    for c in cs {
        text.push_all(b" && ")?;
        push_compare(text, names, c)?;
    }
    Ok(())
}

/// Appends a conjunction.
pub fn push_all(text: &mut Text, names: &Names, cs: &[Compare]) -> Result<(), NoMemory>
    requires { named_all (length names.now.names) cs.now ≡ true }
    ensures { OnOk result (text.new ≡ text.old ++ bytes_of (spec.all_pieces names.now.names cs.now)) }
{
    match cs {
        [] => Ok(()),
        [c, more @ ..] => {
            push_compare(text, names, c)?;
            push_further(text, names, more)
        }
    }
}

/// Appends the test of an `if` or a `while`.
pub fn push_test(text: &mut Text, names: &Names, test: &Test) -> Result<(), NoMemory>
    requires { named_test (length names.now.names) test.now ≡ true }
    ensures { OnOk result (text.new ≡ text.old ++ bytes_of (spec.test_pieces names.now.names test.now)) }
{
    match test {
        Test::Any => text.push_all(b"*"),
        Test::All(cs) => push_all(text, names, cs.as_slice()),
    }
}
