//! What rows are listed in.

ghost use Rattle.std.specs.Prelude.{◌≡◌, ◌<◌, List, Some, length, slice_get};
ghost use Rattle.pc_rows.specs.Linear.{Linear};

use pc_rows::{Row, Rows};
use sqlite_items::Items;

/// Rows in order, counted from 0.
pub trait RowList {
    /// The rows.
    ghost listed: { Self → List Linear };

    /// How many rows there are.
    fn count(&self) -> usize
        ensures { result ≡ length (listed self.now) };

    /// Row `i`.
    fn row(&self, i: usize) -> &Row
        requires { i < length (listed self.now) }
        ensures { slice_get (listed self.now) i ≡ Some result.now };
}

impl RowList for Rows {
    ghost listed = { λ rows. rows };

    fn count(&self) -> usize {
        self.len()
    }

    fn row(&self, i: usize) -> &Row {
        self.at(i)
    }
}

impl RowList for Items<Row> {
    ghost listed = { λ rows. rows };

    fn count(&self) -> usize {
        self.len()
    }

    fn row(&self, i: usize) -> &Row {
        &self.as_slice()[i]
    }
}
