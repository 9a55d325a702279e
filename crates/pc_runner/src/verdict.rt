use pc_text::Place;
use sqlite_items::Items;

/// What has come of a run. Steps are counted from 1.
#[derive(Debug, Drop)]
pub enum Verdict {
    /// This step has failed the assertion at this place.
    Violated { step: u32, place: Place },
    /// This step has failed the assumption at this place.
    Blocked { step: u32, place: Place },
    /// This step has found no statement left.
    Ended { step: u32 },
    /// The machine still runs after all choices. The state has the value of each variable, in the
    /// order of their numbers.
    Going { state: Items<i128> },
    /// This step needs a value that is not in range. The place is that of the operator, or of the
    /// `[` of the choice, that makes the first such value.
    Past { step: u32, place: Place },
}
