//! The sizes that a text names.

ghost use Rattle.std.specs.Prelude.{◌≡◌};
ghost use Rattle.pc_lines.specs.Kinds.{are_within};

/// The numbers of points, edges and variables of a graph.
#[derive(Clone, Copy, Debug, PartialEq, Eq)]
pub struct Sizes {
    pub points: u32,
    pub edges: u32,
    pub variables: u32,
}

impl Sizes {
    /// Whether each of the sizes is within its limit.
    pub(crate) fn are_within(self, most: Sizes) -> bool
        ensures { result ≡ are_within most self }
    {
        self.points <= most.points && self.edges <= most.edges && self.variables <= most.variables
    }
}
