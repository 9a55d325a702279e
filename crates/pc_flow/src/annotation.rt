//! Annotations.

ghost use Rattle.std.specs.Prelude.{◌≡◌, ◌<◌, length};
ghost use Rattle.pc_flow.specs.Annotation.{rows_at};

use pc_rows::Rows;
use sqlite_items::Items;

/// A list of rows for each point of a graph, by the point's number.
pub type Annotation = Items<Rows>;

/// The rows of a point.
pub fn rows_at(annotation: &Annotation, p: u32) -> &Rows
    requires { p < length annotation.now }
    ensures { result.now ≡ rows_at annotation.now p }
{
    &annotation.as_slice()[p as usize]
}
