//! Pieces of a text that tell a number.

ghost use Rattle.std.specs.Prelude.{◌≡◌, ◌++◌, OnOk};
ghost use Rattle.pc_gen.specs.Pieces.{counted};

use pc_text::{NoMemory, Text};

/// Adds a number, between what stands before it and behind it.
#[tactic(auto, unfolding(crate::specs::Pieces::counted))]
pub(crate) fn push_counted(
    text: &mut Text,
    before: &[u8],
    number: usize,
    behind: &[u8],
) -> Result<(), NoMemory>
    ensures { OnOk result (text.new ≡ text.old ++ counted before.now number behind.now) }
{
    text.push_all(before)?;
    text.push_number(number as i128)?;
    text.push_all(behind)
}
