//! The sides of tests.

ghost use Rattle.std.specs.Prelude.{◌≡◌};
ghost use Rattle.pc_graph.specs.Sides.{holds, is_body};

/// Where the edges of one side of a test lead.
#[derive(Clone, Copy)]
pub enum Side {
    /// Into the first block of an `if`.
    Then,
    /// Into its second block.
    Else,
    /// Into the body of a loop.
    Body,
    /// Past the loop.
    Exit,
}

impl Side {
    /// Whether the test holds on this side.
    pub(crate) fn holds(self) -> bool
        ensures { result ≡ holds self }
    {
        match self {
            Side::Then | Side::Body => true,
            Side::Else | Side::Exit => false,
        }
    }

    /// Whether it is the body of a loop.
    pub(crate) fn is_body(self) -> bool
        ensures { result ≡ is_body self }
    {
        match self {
            Side::Body => true,
            Side::Then | Side::Else | Side::Exit => false,
        }
    }
}
