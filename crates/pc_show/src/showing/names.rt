//! The texts of the lists of names.

ghost use Rattle.std.specs.Prelude.{◌≡◌, ◌≤◌, ◌++◌, length, slice_range, OnOk};
ghost use Rattle.pc_show.specs.Canonical as spec;
ghost use Rattle.pc_show.specs.Pieces.{bytes_of};

use pc_text::{Names, NoMemory, Text};

/// Appends the names from number `from` up to `to`, each behind a comma.
fn push_further(text: &mut Text, names: &Names, from: u32, to: u32) -> Result<(), NoMemory>
    requires order { from ≤ to }
    requires within { to ≤ length names.now.names }
    ensures { OnOk result (text.new ≡ text.old ++ bytes_of (spec.further_names (slice_range names.now.names from to))) }
{
    for v in from..to {
        text.push_all(b", ")?;
        text.push_all(names.at(v))?;
    }
    Ok(())
}

/// Appends the names from number `from` up to `to`, parted by commas.
pub fn push_names(text: &mut Text, names: &Names, from: u32, to: u32) -> Result<(), NoMemory>
    requires order { from ≤ to }
    requires within { to ≤ length names.now.names }
    ensures { OnOk result (text.new ≡ text.old ++ bytes_of (spec.names_pieces (slice_range names.now.names from to))) }
{
    if from == to {
        return Ok(());
    }
    text.push_all(names.at(from))?;
    push_further(text, names, from + 1, to)
}
