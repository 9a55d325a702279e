//! Lists of rows.

ghost use Rattle.std.specs.Prelude.{◌≡◌, ◌<◌, ◌≤◌, [], length, slice_get, IfOk, IsTrue, ◌↔◌, Some, ◌||◌, if◌then◌else◌};
ghost use Rattle.std.specs.List.{AllByRecursion, list_any};
ghost use Rattle.pc_rows.specs.Linear.{IsRow};
ghost use Rattle.pc_rows.specs.Joins.{is_at_most, is_covered, joined, PushIs, AddIs, JoinIs};

use crate::row::Row;
use std::alloc::Global;
use std::marker::Model;

/// The most rows that a list holds.
pub const ROWS: usize = 32;

const _: () = prove!(ROWS == 32);

/// Why a list of rows has no further row.
#[derive(Clone, Copy, Debug, PartialEq, Eq)]
pub enum RowsFault {
    /// It has `ROWS` rows.
    Full,
    /// There is no memory for the row.
    NoMemory,
}

/// There is no memory for what is to be kept.
#[derive(Clone, Copy, Debug, PartialEq, Eq)]
pub struct NoMemory;

/// At most `ROWS` rows, in order.
#[derive(Drop)]
pub struct Rows {
    alloc: Global,
    rows: Vec<Row>,
}

impl Model for Rows {
    ghost use Rattle.std.specs.Prelude.{List};
    ghost use Rattle.pc_rows.specs.Linear.{Linear};
    ghost use Rattle.pc_rows.specs.Joins.{IsRows};

    ghost Value = { List Linear };

    ghost view = { λ r. r.rows.items };

    ghost invariant = { λ r. IsRows r.rows.items };
}

impl Rows {
    /// No rows. It needs no memory; what is pushed later, and each copy, is taken from `alloc`.
    pub fn new(alloc: Global) -> Rows
        ensures { result ≡ [] }
    {
        Rows {
            alloc,
            rows: Vec::new(alloc),
        }
    }

    /// How many rows there are.
    pub fn len(&self) -> usize
        ensures value { result ≡ length self.now }
        ensures most { length self.now ≤ ROWS }
        ensures rows { AllByRecursion IsRow self.now }
    {
        self.rows.len()
    }

    /// Row `i`, counted from 0.
    pub fn at(&self, i: usize) -> &Row
        requires { i < length self.now }
        ensures { slice_get self.now i ≡ Some result.now }
    {
        &self.rows[i]
    }

    /// Puts a row at the end. `Full` exactly where there are `ROWS` rows, whatever the memory;
    /// after a refusal the list is as before.
    pub fn push(&mut self, r: Row) -> Result<(), RowsFault>
        ensures { PushIs self.old r result self.new }
    {
        if self.rows.len() == ROWS {
            return Err(RowsFault::Full);
        }
        let _row = r.constant();
        match self.rows.push(r) {
            Ok(()) => Ok(()),
            Err(_) => Err(RowsFault::NoMemory),
        }
    }

    /// The same rows, from the same allocator.
    pub fn copy(&self) -> Result<Rows, NoMemory>
        ensures { IfOk result (λ rows. rows ≡ self.now) }
    {
        let mut rows = Rows::new(self.alloc);
        for r in &self.rows {
            match rows.push(r.copy()) {
                Ok(()) => {}
                Err(_) => return Err(NoMemory),
            }
        }
        Ok(rows)
    }
}

/// Whether `r` is covered by `rows`: every state meets it by its form, or one of the rows has the
/// same coefficients and a constant that is not greater.
pub fn covered(r: &Row, rows: &Rows) -> bool
    ensures value { result ≡ is_covered r.now rows.now }
    ensures most { length rows.now ≤ ROWS }
{
    r.is_always() || some_is_at_most(&rows.rows, r)
}

fn some_is_at_most(rows: &[Row], r: &Row) -> bool
    ensures { result ≡ list_any (λ a. is_at_most a r.now) rows.now }
{
    rows.iter().any(|a| a.is_at_most(r))
}

/// The rows of `a`, and then each row of `b` that is not covered by what stands before it. `Full`
/// exactly where these are more than `ROWS` rows, whatever the memory.
pub fn join(a: &Rows, b: &Rows) -> Result<Rows, RowsFault>
    ensures { JoinIs a.now b.now result }
{
    if !has_room(a, b) {
        return Err(RowsFault::Full);
    }
    join_all(a, b)
}

/// Whether the join has at most `ROWS` rows. It needs no memory.
fn has_room(a: &Rows, b: &Rows) -> bool
    ensures { IsTrue result ↔ (length (joined a.now b.now) ≤ ROWS) }
{
    if a.len() + b.len() <= ROWS {
        return true;
    }
    joined_len(a, b) <= ROWS
}

/// The join, which has at most `ROWS` rows.
fn join_all(a: &Rows, b: &Rows) -> Result<Rows, RowsFault>
    requires { length (joined a.now b.now) ≤ ROWS }
    ensures { JoinIs a.now b.now result }
{
    let mut all = match a.copy() {
        Ok(all) => all,
        Err(NoMemory) => return Err(RowsFault::NoMemory),
    };
    for i in 0..b.len() {
        add(&mut all, b.at(i))?;
    }
    Ok(all)
}

/// How many rows the join has. It needs no memory.
fn joined_len(a: &Rows, b: &Rows) -> usize
    ensures { result ≡ length (joined a.now b.now) }
{
    let mut count = a.len();
    for i in 0..b.len() {
        count += rows_added(a, &b.rows[..i], b.at(i));
    }
    count
}

/// How many rows a join gains by `r`, where `a` and `before` come before it: none where one of them covers it.
fn rows_added(a: &Rows, before: &[Row], r: &Row) -> usize
    ensures { result ≡ (if is_covered r.now a.now || list_any (λ x. is_at_most x r.now) before.now then 0 else 1) }
{
    if covered(r, a) || some_is_at_most(before, r) {
        0
    } else {
        1
    }
}

fn add(all: &mut Rows, r: &Row) -> Result<(), RowsFault>
    ensures { AddIs all.old r.now result all.new }
{
    if covered(r, all) {
        return Ok(());
    }
    all.push(r.copy())
}
