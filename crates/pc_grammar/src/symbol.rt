use pc_language::Terminal;
use pc_text::Place;

/// A token as the grammar sees it: its text is `src[from..to]`, offsets in bytes.
#[derive(Clone, Copy, Debug, PartialEq, Eq)]
pub struct Symbol {
    pub terminal: Terminal,
    /// The value of a number, and 0 at every other terminal.
    pub number: i128,
    pub from: usize,
    pub to: usize,
    /// The place of the first byte.
    pub place: Place,
}
