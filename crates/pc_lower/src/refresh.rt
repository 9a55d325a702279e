//! Rows of points that are brought up to date.

ghost use Rattle.std.specs.Prelude.{◌≡◌, ◌≤◌, ◌<◌, ◌-◌, ◌^◌, ℕ, length};
ghost use Rattle.pc_lower.specs.Annotation.{AreFew};
ghost use Rattle.pc_lower.specs.Fresh.{IsFresh, RefreshIs, NoneReaches};
ghost use Rattle.pc_lower.specs.Unchecked.{seen};

use crate::fault::CandidateFault;
use crate::need::needed_at;
use pc_flow::{Annotation, Edge, Graph};
use std::alloc::Global;

/// Brings the rows of the points from `low` on up to date, where those from `high` on are.
pub fn refresh(
    alloc: Global,
    g: &Graph,
    asserted: bool,
    low: u32,
    high: u32,
    rows: &mut Annotation,
) -> Result<(), CandidateFault>
    requires long { length rows.old ≡ length g.now.points }
    requires few { AreFew rows.old }
    requires within { high ≤ length g.now.points }
    requires fresh { IsFresh (seen asserted g.now) high rows.old }
    ensures { RefreshIs (seen asserted g.now) low rows.old result rows.new }
{
    // what a graph keeps
    let _points = g.points();
    let mut p = high;
    while low < p {
        p -= 1;
        if !g.is_head(p) {
            let needed = needed_at(alloc, g, asserted, p, rows)?;
            rows.set(p as usize, needed);
        }
    }
    Ok(())
}

/// The number after the greatest of a point from which an edge leads to head `h`, if that is a greater one; else the number
/// after `h`. The rows of the points from it on do not depend on those of `h`.
pub fn end_of_loop(g: &Graph, h: u32) -> u32
    requires { h < length g.now.points }
    ensures after { h < result }
    ensures within { result ≤ length g.now.points }
    ensures none { NoneReaches h result g.now.edges }
{
    // what a graph keeps
    let _points = g.points();
    let numbers = g.entering(h);
    let mut end = h + 1;
    for k in 0..numbers.len() {
        end = after_source(end, g.edge(numbers[k]));
    }
    end
}

/// `end`, or the number after the source of an edge, if that is greater.
fn after_source(end: u32, e: &Edge) -> u32
    requires { e.now.from < 2 ^ 32 - 1 }
    ensures more { end ≤ result }
    ensures source { e.now.from < result }
    ensures most { (n : ℕ) → end ≤ n → e.now.from < n → result ≤ n }
{
    if end <= e.from { e.from + 1 } else { end }
}
