//! How tightly an expression has to hold together where it stands.

/// A place of the grammar for an expression. What is looser than its place stands in parentheses.
#[derive(Clone, Copy, Debug, PartialEq, Eq)]
pub enum Level {
    /// Any expression: a side of a comparison, a right side, what parentheses hold, the left of a
    /// `+` or `-`.
    Expression,
    /// No sum and no difference: the right of a `+` or `-`, the left of a `*`.
    Addend,
    /// And no product: the right of a `*`.
    Factor,
    /// A number or a name alone: what a negation negates.
    Atom,
}
