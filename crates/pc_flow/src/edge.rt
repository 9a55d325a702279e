ghost use Rattle.std.specs.Prelude.{◌≡◌, ◌<◌, ◌≤◌, ◌+◌, ◌*◌, [], length, slice_get, Some};
ghost use Rattle.pc_flow.specs.Carry.{asked, owes, premises, test_rows};

use crate::what::{TEST_ROWS, What};
use pc_rows::{ROWS, Row, Rows};
use std::marker::Model;

/// An edge from a point to a point. Its variable and its parameters are within the limit of variables, a test or an
/// assertion has at most `TEST_ROWS` rows, and the ends of a choice are in range and in order.
#[derive(Drop)]
pub struct Edge {
    pub from: u32,
    pub to: u32,
    pub what: What,
    /// Whether it leads from the head of a loop into the loop's body.
    pub body: bool,
}

impl Model for Edge {
    ghost use Rattle.pc_flow.specs.Arc.{Arc, IsFit};

    ghost Value = { Arc };

    ghost view = { λ e. record { from = e.from; to = e.to; what = e.what; body = e.body } };

    ghost invariant = { λ e. IsFit e.what };
}

impl Edge {
    /// The rows of the edge's test, and `none` at an edge of another kind.
    pub fn test_rows<'a>(&'a self, none: &'a Rows) -> &'a Rows
        requires { none.now ≡ [] }
        ensures rows { result.now ≡ test_rows self.now.what }
        ensures few { length result.now ≤ TEST_ROWS }
    {
        match &self.what {
            What::Test(own) => own,
            What::Enter { .. } => none,
            What::Set { .. } => none,
            What::Check(_) => none,
        }
    }

    /// How many premises a proof over the edge has, where `rows` are those of the point that it leaves.
    pub fn premises(&self, rows: &Rows) -> usize
        ensures value { result ≡ length (premises self.now.what rows.now) }
        ensures few { result ≤ ROWS + TEST_ROWS }
    {
        match &self.what {
            What::Test(own) => rows.len() + own.len(),
            What::Enter { .. } => rows.len(),
            What::Set { .. } => rows.len(),
            What::Check(_) => rows.len(),
        }
    }

    /// Premise `i`: the rows of the point that the edge leaves come first, and then those of its test.
    pub fn premise<'a>(&'a self, rows: &'a Rows, i: usize) -> &'a Row
        requires { i < length (premises self.now.what rows.now) }
        ensures { slice_get (premises self.now.what rows.now) i ≡ Some result.now }
    {
        match &self.what {
            What::Test(own) if rows.len() <= i => own.at(i - rows.len()),
            _ => rows.at(i),
        }
    }

    /// How many rows the edge owes, where `rows` are those at its target.
    #[tactic(auto, using(crate::proofs::Asked::owed_long))]
    pub fn owed(&self, rows: &Rows) -> usize
        ensures value { result ≡ length (asked self.now.what rows.now) }
        ensures owes { result ≡ length (owes self.now.what rows.now) }
        ensures few { result ≤ ROWS + TEST_ROWS }
    {
        match &self.what {
            What::Check(own) => own.len() + rows.len(),
            What::Enter { .. } => rows.len(),
            What::Test(_) => rows.len(),
            What::Set { .. } => rows.len(),
        }
    }

    /// Row `k` of those that the edge owes, before it is carried back: an assertion has its own rows first, and then come
    /// those at the target.
    pub fn asked<'a>(&'a self, rows: &'a Rows, k: usize) -> &'a Row
        requires { k < length (asked self.now.what rows.now) }
        ensures { slice_get (asked self.now.what rows.now) k ≡ Some result.now }
    {
        match &self.what {
            What::Check(own) if k < own.len() => own.at(k),
            What::Check(own) => rows.at(k - own.len()),
            _ => rows.at(k),
        }
    }
}
