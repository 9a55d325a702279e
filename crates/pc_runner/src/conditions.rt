//! Comparisons and tests at a state.

ghost use Rattle.std.specs.Prelude.{◌≡◌};
ghost use Rattle.pc_program.specs.Values as values;
ghost use Rattle.pc_runner.specs.Checked as spec;

use crate::evaluation::value_of;
use pc_language::Op;
use pc_program::{Compare, Test};
use pc_text::Place;

fn compared(op: Op, a: i128, b: i128) -> bool
    ensures { result ≡ values.compared op a b }
{
    match op {
        Op::Less => a < b,
        Op::AtMost => a <= b,
        Op::Greater => b < a,
        Op::AtLeast => b <= a,
        Op::Equal => a == b,
        Op::Unequal => !(a == b),
    }
}

fn holds(compare: &Compare, state: &[i128]) -> Result<bool, Place>
    ensures { result ≡ spec.held state.now compare.now }
{
    let a = value_of(&compare.left, state)?;
    let b = value_of(&compare.right, state)?;
    Ok(compared(compare.op, a, b))
}

/// Whether comparisons hold together, taken in order up to the first that fails; or the place of
/// the first value that is not in range.
pub fn all_hold(compares: &[Compare], state: &[i128]) -> Result<bool, Place>
    ensures { result ≡ spec.all_held state.now compares.now }
{
    for compare in compares {
        if !holds(compare, state)? {
            return Ok(false);
        }
    }
    Ok(true)
}

/// How a test falls: `*` holds where the choice is not 0.
pub fn tested(test: &Test, state: &[i128], choice: i128) -> Result<bool, Place>
    ensures { result ≡ spec.tested state.now test.now choice }
{
    match test {
        Test::Any => Ok(!(choice == 0)),
        Test::All(compares) => all_hold(compares.as_slice(), state),
    }
}
