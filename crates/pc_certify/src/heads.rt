//! Rows for the heads of a graph, as others know them.

ghost use Rattle.std.specs.Prelude.{◌≡◌, ◌<◌, length, IfOk, IfSome};
ghost use Rattle.std.specs.List.{AllByRecursion as Each};
ghost use Rattle.pc_rows.specs.Linear.{IsOver};
ghost use Rattle.pc_lower.specs.Annotation.{AreOver};
ghost use Rattle.pc_certify.specs.Candidates.{AreHeads};

use crate::lists::push;
use pc_flow::{Annotation, Graph, rows_at};
use pc_replay::are_over;
use pc_rows::{NoMemory, Rows, RowsFault, join};
use sqlite_items::Items;
use std::alloc::Global;

/// A value that tells rows.
pub trait Listed {
    /// Its rows.
    fn listed(&self, alloc: Global) -> Result<Rows, NoMemory>;
}

/// The rows of the values at the heads, and none at other points. Nothing where one of them has a
/// variable that the graph lacks.
pub fn heads_of<V: Listed>(
    alloc: Global,
    g: &Graph,
    values: &[V],
) -> Result<Option<Annotation>, NoMemory>
    requires { length values.now ≡ length g.now.points }
    ensures { IfOk result (λ o. IfSome o (AreHeads g.now)) }
{
    let mut heads = Items::new(alloc);
    for p in 0..g.points() {
        let rows = at_head(alloc, g, p, &values[p as usize])?;
        if !are_over(g.variables(), &rows) {
            return Ok(None);
        }
        push(&mut heads, rows)?;
    }
    Ok(Some(heads))
}

/// The rows of a point's value where it is a head, and else none.
fn at_head<V: Listed>(alloc: Global, g: &Graph, p: u32, value: &V) -> Result<Rows, NoMemory>
    requires { p < length g.now.points }
{
    if g.is_head(p) {
        value.listed(alloc)
    } else {
        Ok(Rows::new(alloc))
    }
}

/// The rows of an annotation at the heads, each list joined with the other one there. Nothing where
/// there would be a row too many.
pub fn with_rows(
    alloc: Global,
    g: &Graph,
    annotation: &Annotation,
    others: &Annotation,
) -> Result<Option<Annotation>, NoMemory>
    requires rows { AreHeads g.now annotation.now }
    requires others { AreHeads g.now others.now }
    ensures { IfOk result (λ o. IfSome o (AreHeads g.now)) }
{
    let mut heads = Items::new(alloc);
    for p in 0..g.points() {
        match both_at(alloc, g, p, annotation, others)? {
            Some(rows) => push(&mut heads, rows)?,
            None => return Ok(None),
        }
    }
    Ok(Some(heads))
}

/// The join at a point where it is a head, and else no rows. Nothing where there would be a row too
/// many.
fn both_at(
    alloc: Global,
    g: &Graph,
    p: u32,
    annotation: &Annotation,
    others: &Annotation,
) -> Result<Option<Rows>, NoMemory>
    requires point { p < length g.now.points }
    requires rows { AreHeads g.now annotation.now }
    requires others { AreHeads g.now others.now }
    ensures { IfOk result (λ o. IfSome o (Each (IsOver g.now.variables))) }
{
    if !g.is_head(p) {
        return Ok(Some(Rows::new(alloc)));
    }
    match join(rows_at(annotation, p), rows_at(others, p)) {
        Ok(rows) => Ok(Some(rows)),
        Err(RowsFault::Full) => Ok(None),
        Err(RowsFault::NoMemory) => Err(NoMemory),
    }
}
