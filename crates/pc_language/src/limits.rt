//! The limits of the language.

/// The most braces that may be open at once.
pub const BRACES: usize = 64;

/// The most signs of one expression, which is a side of a comparison or the part of a right side
/// before its choice: its `+`, `-`, `*` and `(`. A `+` before a `[` is none of them.
pub const SIGNS: usize = 64;

/// The most comparisons of a conjunction.
pub const COMPARISONS: usize = 8;

/// The greatest number of edges of a program, of which the first leads into it.
pub const EDGES: u32 = 2048;

const _: () = prove!(BRACES == 64 && SIGNS == 64 && COMPARISONS == 8 && EDGES == 2048);
