ghost use Rattle.std.specs.Prelude.{◌≡◌, ◌≤◌, length, true};
ghost use Rattle.std.specs.List.{list_all};
ghost use Rattle.pc_text.specs.Numerals.{is_in_range};
ghost use Rattle.pc_runner.specs.declared.script.TheConstants.{CHOICES};

use sqlite_items::Items;

/// The greatest number of choices of a script.
pub const CHOICES: usize = 1_000_000;

const _: () = prove!(CHOICES == 1_000_000);

/// What a program is run on: an integer for each parameter, and an integer for each step. All are
/// in range, and there are at most [`CHOICES`] choices.
#[derive(Debug, Drop)]
pub struct Script {
    pub entry: Items<i128>,
    pub choices: Items<i128>,
    pub ghost entry_in_range: { list_all is_in_range entry ≡ true },
    pub ghost choices_in_range: { list_all is_in_range choices ≡ true },
    pub ghost few: { length choices ≤ CHOICES },
}
