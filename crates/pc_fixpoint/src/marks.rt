//! Marks of points, and the points that are behind them.

ghost use Rattle.std.specs.Prelude.{◌≡◌, ◌<◌, true, false, length, slice_get, Some, IfOk};
ghost use Rattle.std.specs.List.{AllByRecursion as Each};
ghost use Rattle.pc_fixpoint.specs.Flowing.{heads, IsHeadAt};
ghost use Rattle.pc_fixpoint.specs.Marks.{IsMarked, AreStill};

use crate::heads::is_head;
use pc_domain::NoMemory;
use pc_flow::{Edge, Graph};
use sqlite_items::Items;
use std::alloc::Global;

/// A mark for each point, all alike.
pub(crate) fn all_alike(alloc: Global, g: &Graph, mark: bool) -> Result<Items<bool>, NoMemory>
    ensures long { IfOk result (λ marks. length marks ≡ length g.now.points) }
    ensures each { IfOk result (Each (λ m. m ≡ mark)) }
{
    let mut marks = Items::new(alloc);
    for _p in 0..g.points() {
        marks.push(mark)?;
    }
    Ok(marks)
}

/// Whether a point is a head that has to be asked: it is marked, or what flows into it may have changed.
pub(crate) fn is_due(g: &Graph, moved: &Items<bool>, p: u32) -> bool
    requires { p < length g.now.points }
    ensures head { result ≡ true → IsHeadAt g.now p }
    ensures others { result ≡ false → IsHeadAt g.now p → (IsMarked moved.now p → ⊥) × AreStill g.now moved.now p }
{
    is_head(g, p) && (is_marked(moved, p) || has_news(g, moved, p))
}

/// Whether a point is no head, and what flows into it may have changed.
pub(crate) fn is_stale(g: &Graph, moved: &Items<bool>, p: u32) -> bool
    requires { p < length g.now.points }
    ensures none { result ≡ true → slice_get (heads g.now) p ≡ Some false }
    ensures others { result ≡ false → slice_get (heads g.now) p ≡ Some false → AreStill g.now moved.now p }
{
    !is_head(g, p) && has_news(g, moved, p)
}

/// Whether some edge that enters a point comes from a marked one.
fn has_news(g: &Graph, moved: &Items<bool>, p: u32) -> bool
    requires { p < length g.now.points }
    ensures { result ≡ false → AreStill g.now moved.now p }
{
    let numbers = g.entering(p);
    for k in 0..numbers.len() {
        let e = g.edge(numbers[k]);
        if is_from_marked(moved, e) {
            return true;
        }
    }
    false
}

/// Whether an edge comes from a marked point.
fn is_from_marked(moved: &Items<bool>, e: &Edge) -> bool
    ensures { IsMarked moved.now e.now.from → result ≡ true }
{
    is_marked(moved, e.from)
}

/// Whether a point is marked.
fn is_marked(moved: &Items<bool>, p: u32) -> bool
    ensures { IsMarked moved.now p → result ≡ true }
{
    match moved.get(p as usize) {
        Some(mark) => *mark,
        None => false,
    }
}
