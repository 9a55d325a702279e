//! The rows that comparisons of programs say.

ghost use Rattle.std.specs.Prelude.{◌≡◌, ◌+◌, ◌≤◌, ◌++◌, ◌∷◌, [], true, length, OnOk, IfOk};
ghost use Rattle.std.specs.List.{list_all};
ghost use Rattle.pc_rows.specs.Linear.{is_in_range, difference_of, above_of};
ghost use Rattle.pc_rows.specs.declared.rows.TheConstants.{ROWS};
ghost use Rattle.pc_program.specs.Forms.{is_affine, form, rows_of, rows_all};
ghost use Rattle.pc_program.specs.Sane.{has_sane_rows};

use crate::normal::affine;
use crate::tree::{Compare, Expr};
use pc_language::{COMPARISONS, Op};
use pc_rows::{Row, Rows};
use pc_text::NoMemory;
use std::alloc::Global;

/// The normal form of an expression that has one. It needs no memory.
pub fn form_of(alloc: Global, e: &Expr) -> Row
    requires { is_affine e.now ≡ true }
    ensures { result ≡ form e.now }
{
    match affine(alloc, e) {
        Ok(row) => row,
        Err(_) => unreachable!(),
    }
}

/// The rows of a conjunction, in order: one for each comparison, or two where it is `==` or `!=`.
pub fn rows_of(alloc: Global, all: &[Compare]) -> Result<Rows, NoMemory>
    requires few { length all.now ≤ COMPARISONS }
    requires sane { list_all has_sane_rows all.now ≡ true }
    ensures { IfOk result (λ rows. rows ≡ rows_all all.now) }
{
    let mut rows = Rows::new(alloc);
    for compare in all {
        add_rows(alloc, compare, &mut rows)?;
    }
    Ok(rows)
}

/// Adds the rows of a comparison.
fn add_rows(alloc: Global, c: &Compare, rows: &mut Rows) -> Result<(), NoMemory>
    requires sane { has_sane_rows c.now ≡ true }
    requires room { length rows.old + 2 ≤ ROWS }
    ensures { OnOk result (rows.new ≡ rows.old ++ rows_of c.now) }
{
    let left = form_of(alloc, &c.left);
    let right = form_of(alloc, &c.right);
    match c.op {
        Op::Less => add(rows, above(&right, &left)),
        Op::AtMost => add(rows, difference(&right, &left)),
        Op::Greater => add(rows, above(&left, &right)),
        Op::AtLeast => add(rows, difference(&left, &right)),
        Op::Equal | Op::Unequal => {
            add(rows, difference(&left, &right))?;
            add(rows, difference(&right, &left))
        }
    }
}

/// Adds a row for which there is room.
fn add(rows: &mut Rows, row: Row) -> Result<(), NoMemory>
    requires { length rows.old + 1 ≤ ROWS }
    ensures { OnOk result (rows.new ≡ rows.old ++ row ∷ []) }
{
    match rows.push(row) {
        Ok(()) => Ok(()),
        Err(_) => Err(NoMemory),
    }
}

/// A difference that is in range.
fn difference(a: &Row, b: &Row) -> Row
    requires { is_in_range (difference_of a.now b.now) ≡ true }
    ensures { result ≡ difference_of a.now b.now }
{
    match a.minus(b) {
        Ok(row) => row,
        Err(_) => unreachable!(),
    }
}

/// A difference less one that is in range.
fn above(a: &Row, b: &Row) -> Row
    requires { is_in_range (above_of a.now b.now) ≡ true }
    ensures { result ≡ above_of a.now b.now }
{
    match a.above(b) {
        Ok(row) => row,
        Err(_) => unreachable!(),
    }
}
