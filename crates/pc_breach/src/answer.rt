//! What is found of an entry state.

use sqlite_items::Items;

/// What is found of an entry state.
#[derive(Drop)]
pub enum Breach {
    /// A number is out of range, or a point would need more rows than a list holds.
    Past,
    /// No choices break an assertion.
    Safe,
    /// These choices break an assertion.
    Choices(Items<i128>),
}
