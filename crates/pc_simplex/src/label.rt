//! What the lines and the columns of a table stand for.

ghost use Rattle.std.specs.Prelude.{◌≡◌};
ghost use Rattle.pc_simplex.specs.Choosing.{is_before};
ghost use Rattle.pc_simplex.specs.Found.{is_label};

/// What a line or a column of a table stands for.
#[derive(Clone, Copy)]
pub enum Label {
    /// A variable, by its number.
    Variable(u32),
    /// The value of a premise, by its index, or of the negated goal after them.
    Row(u32),
}

impl Label {
    /// Whether it stands before the other: variables by number, and then rows by number.
    pub fn is_before(self, other: Label) -> bool
        ensures { result ≡ is_before self other }
    {
        match (self, other) {
            (Label::Variable(v), Label::Variable(w)) => v < w,
            (Label::Variable(_), Label::Row(_)) => true,
            (Label::Row(_), Label::Variable(_)) => false,
            (Label::Row(i), Label::Row(j)) => i < j,
        }
    }

    /// Whether it is the same as the other.
    pub fn is(self, other: Label) -> bool
        ensures { result ≡ is_label self other }
    {
        match (self, other) {
            (Label::Variable(v), Label::Variable(w)) => v == w,
            (Label::Variable(_), Label::Row(_)) => false,
            (Label::Row(_), Label::Variable(_)) => false,
            (Label::Row(i), Label::Row(j)) => i == j,
        }
    }
}
