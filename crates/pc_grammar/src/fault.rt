use pc_text::Place;

/// Why symbols have no parse tree. Of these the one at the least place is reported, and at one
/// symbol `Syntax` comes first.
#[derive(Clone, Copy, Debug, PartialEq, Eq)]
pub enum ParseFault {
    /// The first symbol such that the symbols up to and with it begin no program; or the end of
    /// the text, where all symbols begin a program but are none.
    Syntax(Place),
    /// A `{` where [`BRACES`](pc_language::BRACES) are open.
    TooDeep(Place),
    /// A sign of an expression that has [`SIGNS`](pc_language::SIGNS) already, or the `&&` before a
    /// comparison of a conjunction that has [`COMPARISONS`](pc_language::COMPARISONS).
    TooLong(Place),
    /// The `{` of a process behind [`PROCESSES`](crate::PROCESSES) others. No program has this fault.
    TooManyProcesses(Place),
    /// There is no memory for the tree.
    NoMemory,
}
