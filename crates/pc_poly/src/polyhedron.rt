ghost use Rattle.std.specs.Prelude.{◌≡◌};

use pc_rows::Rows;

/// The states that meet the rows.
#[derive(Drop)]
pub struct Polyhedron {
    /// The number of variables that it was made for. Rows may have others.
    pub hint: u32,
    pub rows: Rows,
}

impl Polyhedron {
    /// Another one of the same hint.
    pub(crate) fn with(&self, rows: Rows) -> Polyhedron
        ensures { result ≡ record { hint = self.now.hint; rows = rows } }
    {
        Polyhedron {
            hint: self.hint,
            rows,
        }
    }
}
