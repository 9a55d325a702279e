//! Whether a row is kept by the body of a loop.

ghost use Rattle.std.specs.Prelude.{◌≡◌, ◌<◌, ◌≤◌, ◌∷◌, ◌++◌, [], length, true, IfOk};
ghost use Rattle.std.specs.List.{list_all};
ghost use Rattle.pc_rows.specs.Joins.{is_covered};
ghost use Rattle.pc_flow.specs.Shape.{LeadsUp};
ghost use Rattle.pc_lower.specs.Annotation.{AreFew, is_head, no_rows};
ghost use Rattle.pc_lower.specs.Candidate.{alone, is_steady};
ghost use Rattle.pc_lower.specs.Course.{steady_operations};
ghost use Rattle.pc_lower.specs.Fresh.{IsBlank, IsCleared};
ghost use Rattle.pc_lower.specs.Operations.{Answers};

use crate::annotation::no_rows;
use crate::fault::CandidateFault;
use crate::refresh::{end_of_loop, refresh};
use pc_flow::{Annotation, Edge, Graph, rows_at};
use pc_rows::{NoMemory, Row, Rows, covered};
use std::alloc::Global;

/// Whether a row at the head from which an edge leads is steady over the edge: the row alone, with assertions left out,
/// needs nothing at the edge's target that it and the edge's test do not cover. `tests` is room for the rows of the loop's
/// points, which is left without rows, so that a test costs no more than its loop.
pub fn is_steady(
    alloc: Global,
    g: &Graph,
    e: &Edge,
    r: &Row,
    tests: &mut Annotation,
) -> Result<bool, CandidateFault>
    requires head { is_head g.now.points e.now.from ≡ true }
    requires leads { LeadsUp g.now.points g.now.variables e.now }
    requires blank { IsBlank g.now tests.old }
    ensures answer { Answers (steady_operations g.now e.now.from r.now) (is_steady g.now e.now r.now) result }
    ensures blank { IfOk result (λ _. IsBlank g.now tests.new) }
{
    // what a graph keeps
    let _points = g.points();
    put_alone(alloc, g, e.from, r, tests)?;
    let end = end_of_loop(g, e.from);
    refresh(alloc, g, false, e.from + 1, end, tests)?;
    let none = Rows::new(alloc);
    let one = single(alloc, r.copy())?;
    let steady = all_covered(rows_at(tests, e.to), &one, e.test_rows(&none));
    clear(alloc, e.from, end, tests);
    Ok(steady)
}

/// Puts one row at a head, where there are none at other points.
fn put_alone(
    alloc: Global,
    g: &Graph,
    h: u32,
    r: &Row,
    tests: &mut Annotation,
) -> Result<(), NoMemory>
    requires point { h < length g.now.points }
    requires blank { IsBlank g.now tests.old }
    ensures rows { IfOk result (λ _. tests.new ≡ alone g.now h r.now) }
    ensures few { IfOk result (λ _. AreFew tests.new) }
    ensures long { IfOk result (λ _. length tests.new ≡ length g.now.points) }
{
    let rows = single(alloc, r.copy())?;
    // its length tells that the list is within its limit
    let _most = rows.len();
    make_room(alloc, g, tests)?;
    tests.set(h as usize, rows);
    Ok(())
}

/// Makes room for the rows of all points where there is none yet.
fn make_room(alloc: Global, g: &Graph, tests: &mut Annotation) -> Result<(), NoMemory>
    requires { IsBlank g.now tests.old }
    ensures { IfOk result (λ _. tests.new ≡ no_rows g.now.points) }
{
    if tests.len() == 0 {
        *tests = no_rows(alloc, g)?;
    }
    Ok(())
}

/// Takes the rows away at the points from `low` on and below `high`.
fn clear(alloc: Global, low: u32, high: u32, rows: &mut Annotation)
    requires ordered { low ≤ high }
    requires within { high ≤ length rows.old }
    ensures { IsCleared low high rows.old rows.new }
{
    for p in low..high {
        rows.set(p as usize, Rows::new(alloc));
    }
}

/// The list of one row.
pub fn single(alloc: Global, r: Row) -> Result<Rows, NoMemory>
    ensures { IfOk result (λ rows. rows ≡ r ∷ []) }
{
    let mut rows = Rows::new(alloc);
    if rows.push(r).is_err() {
        return Err(NoMemory);
    }
    Ok(rows)
}

/// Whether rows are covered by the rows of two lists together.
fn all_covered(rows: &Rows, a: &Rows, b: &Rows) -> bool
    ensures { result ≡ list_all (λ x. is_covered x (a.now ++ b.now)) rows.now }
{
    for i in 0..rows.len() {
        if !covered_by(rows.at(i), a, b) {
            return false;
        }
    }
    true
}

/// Whether a row is covered by the rows of two lists together.
pub fn covered_by(r: &Row, a: &Rows, b: &Rows) -> bool
    ensures { result ≡ is_covered r.now (a.now ++ b.now) }
{
    covered(r, a) || covered(r, b)
}
