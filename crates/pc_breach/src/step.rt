//! Steps by which a row is followed that is not met.

ghost use Rattle.std.specs.Prelude.{◌≡◌, ◌<◌, length, unwrap_or, pos};
ghost use Rattle.std.specs.List.{AllByRecursion as Each, list_any};
ghost use Rattle.pc_language.specs.Ends.{end_of};
ghost use Rattle.pc_rows.specs.Linear.{coefficient};
ghost use Rattle.pc_flow.specs.Annotation.{rows_at};
ghost use Rattle.pc_flow.specs.Carry.{BackFits, back};
ghost use Rattle.pc_flow.specs.Incidence.{leaving};
ghost use Rattle.pc_lower.specs.Course.{edges_carries};
ghost use Rattle.pc_lower.specs.Operations.{Fits, carries};
ghost use Rattle.pc_breach.specs.Following.{is_same, own_rows, end_for, choice, carried_step, step_over, step_from};

use pc_flow::{Annotation, Edge, Graph, What, back, rows_at};
use pc_language::Bound;
use pc_rows::{Past, Row, Rows};

/// A step: the choice that it takes, if it takes any, the point to which it leads, and the row that is followed from there;
/// no row where an assertion fails, which is the last step.
#[derive(Drop)]
pub struct Step {
    pub choice: Option<i128>,
    pub to: u32,
    pub row: Option<Row>,
}

/// The step from a point by the first edge from it that owes row `r`, and on it by the first such row. None where no edge
/// from the point owes it.
pub fn step_from(g: &Graph, rows: &Annotation, p: u32, r: &Row) -> Option<Step>
    requires point { p < length g.now.points }
    requires long { length rows.now ≡ length g.now.points }
    requires carried { Each Fits (edges_carries (rows_at rows.now) (leaving p g.now.edges)) }
    ensures { result ≡ step_from g.now.edges (rows_at rows.now) p r.now }
{
    let numbers = g.leaving(p);
    let only = numbers.len() == 1;
    for k in 0..numbers.len() {
        let e = g.edge(numbers[k]);
        let step = step_over(k == 0, only, e, r, rows_at(rows, e.to));
        if step.is_some() {
            return step;
        }
    }
    None
}

/// The step over an edge that owes row `r`, where `rows` are those of its target. None where it does not owe it.
fn step_over(first: bool, only: bool, e: &Edge, r: &Row, rows: &Rows) -> Option<Step>
    requires { Each Fits (carries e.now.what rows.now) }
    ensures { result ≡ step_over (record { first = first; only = only }) e.now r.now rows.now }
{
    if owns(e, r) {
        return Some(Step {
            choice: Some(0),
            to: e.to,
            row: None,
        });
    }
    carried_step(first, only, e, r, rows)
}

/// Whether an edge is an assertion that has row `r` itself.
fn owns(e: &Edge, r: &Row) -> bool
    ensures { result ≡ list_any (λ x. is_same x r.now) (own_rows e.now.what) }
{
    match &e.what {
        What::Check(own) => has(own, r),
        What::Enter { .. } => false,
        What::Test(_) => false,
        What::Set { .. } => false,
    }
}

/// Whether a list has row `r`.
fn has(rows: &Rows, r: &Row) -> bool
    ensures { result ≡ list_any (λ x. is_same x r.now) rows.now }
{
    for i in 0..rows.len() {
        if is_same(rows.at(i), r) {
            return true;
        }
    }
    false
}

/// The step over an edge by the first row at its target that is `r` when it is carried back. None where there is none.
fn carried_step(first: bool, only: bool, e: &Edge, r: &Row, rows: &Rows) -> Option<Step>
    requires { Each Fits (carries e.now.what rows.now) }
    ensures { result ≡ carried_step (record { first = first; only = only }) e.now r.now rows.now }
{
    for i in 0..rows.len() {
        let z = rows.at(i);
        if comes_from(e, z, r) {
            return Some(Step {
                choice: choice(first, only, e, z),
                to: e.to,
                row: Some(z.copy()),
            });
        }
    }
    None
}

/// Whether row `z` at the target of an edge is `r` when it is carried back.
fn comes_from(e: &Edge, z: &Row, r: &Row) -> bool
    requires { BackFits e.now.what z.now }
    ensures { result ≡ is_same (back e.now.what z.now) r.now }
{
    match back(e, z) {
        Ok(carried) => is_same(&carried, r),
        Err(Past) => false,
    }
}

/// Whether two rows are equal.
fn is_same(a: &Row, b: &Row) -> bool
    ensures { result ≡ is_same a.now b.now }
{
    a.is_at_most(b) && b.is_at_most(a)
}

/// The choice of a step over an edge at whose target row `r` is followed. None where the edge is no step.
fn choice(first: bool, only: bool, e: &Edge, r: &Row) -> Option<i128>
    ensures { result ≡ choice (record { first = first; only = only }) e.now.what r.now }
{
    match &e.what {
        What::Enter { .. } => None,
        What::Test(_) => {
            if only {
                None
            } else {
                Some(if first { 1 } else { 0 })
            }
        }
        What::Set { var, lo, hi, .. } => Some(end_for(r.coefficient(*var), *lo, *hi)),
        What::Check(_) => Some(0),
    }
}

/// The integer from `lo` to `hi` at which `c` times it is least: the low end where `c` is positive, the high end where it is
/// negative, and 0 where it is 0.
fn end_for(c: i128, lo: Bound, hi: Bound) -> i128
    ensures { result ≡ end_for c (end_of lo) (end_of hi) }
{
    if 0 < c {
        closed(lo)
    } else if c < 0 {
        closed(hi)
    } else {
        0
    }
}

/// The integer at a closed end of an interval.
fn closed(end: Bound) -> i128
    ensures { result ≡ unwrap_or (end_of end) (pos 0) }
{
    match end {
        Bound::At(n) => n,
        Bound::Open => 0,
    }
}
