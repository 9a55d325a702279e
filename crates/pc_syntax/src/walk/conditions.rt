//! Comparisons, conjunctions and tests.

ghost use Rattle.std.specs.Prelude.{◌≡◌, ◌≤◌, ◌*◌, true, length, if◌then◌else◌};
ghost use Rattle.std.specs.List.{list_all};
ghost use Rattle.pc_rows.specs.Linear.{above_of, difference_of, negation, is_in_range};
ghost use Rattle.pc_rows.specs.declared.row.TheConstants.{VARIABLES};
ghost use Rattle.pc_language.specs.Ends.{end_of};
ghost use Rattle.pc_syntax.specs.Context as spec;
ghost use Rattle.pc_program.specs.Forms.{row_fits, rows_by, is_unequal};
ghost use Rattle.pc_program.specs.Sane.{is_either};
ghost use Rattle.pc_syntax.specs.Faults.{Gives};
ghost use Rattle.pc_syntax.specs.Trees.{fit_compare, fit_each, fit_test, fit_right};

use crate::fault::SourceFault;
use crate::walk::Formed;
use crate::walk::exprs::formed;
use pc_grammar::{CompareTree, RightTree, TestTree};
use pc_language::{Bound, Choice, Op};
use pc_program::{Compare, Right, Test};
use pc_rows::Row;
use pc_text::{Names, Place};
use sqlite_items::Items;
use std::alloc::Global;

/// Whether the negation of a row is in range.
fn negation_fits(r: &Row) -> bool
    ensures { result ≡ is_in_range (negation r.now) }
{
    r.negated().is_ok()
}

/// Whether the row `a - b` and its negation are in range.
fn difference_fits(a: &Row, b: &Row) -> bool
    ensures { result ≡ row_fits (difference_of a.now b.now) }
{
    match a.minus(b) {
        Ok(r) => negation_fits(&r),
        Err(_) => false,
    }
}

/// Whether the row `a - b - 1` and its negation are in range.
fn above_fits(a: &Row, b: &Row) -> bool
    ensures { result ≡ row_fits (above_of a.now b.now) }
{
    match a.above(b) {
        Ok(r) => negation_fits(&r),
        Err(_) => false,
    }
}

/// Whether the rows of a comparison of two forms, and their negations, are in range.
fn rows_fit(op: Op, l: &Row, r: &Row) -> bool
    ensures { result ≡ list_all row_fits (rows_by op l.now r.now) }
{
    match op {
        Op::Less => above_fits(r, l),
        Op::AtMost => difference_fits(r, l),
        Op::Greater => above_fits(l, r),
        Op::AtLeast => difference_fits(l, r),
        Op::Equal | Op::Unequal => difference_fits(l, r) && difference_fits(r, l),
    }
}

fn is_unequal(op: Op) -> bool
    ensures { result ≡ is_unequal op }
{
    match op {
        Op::Unequal => true,
        Op::Less | Op::AtMost | Op::Greater | Op::AtLeast | Op::Equal => false,
    }
}

/// `!=` stands only alone.
fn op_allowed(alone: bool, c: &CompareTree) -> Result<(), SourceFault>
    ensures { result ≡ spec.op_allowed alone c.now }
{
    if is_unequal(c.op) && !alone {
        Err(SourceFault::Unequal(c.place))
    } else {
        Ok(())
    }
}

fn with_rows(c: &CompareTree, l: Formed, r: Formed) -> Result<Compare, SourceFault>
    ensures { result ≡ spec.with_rows c.now l r }
{
    if rows_fit(c.op, &l.form, &r.form) {
        Ok(Compare {
            op: c.op,
            left: l.expr,
            right: r.expr,
            place: c.place,
        })
    } else {
        Err(SourceFault::FormPast(c.place))
    }
}

/// A comparison: its operator, its left side, its right side, its rows.
fn compare(
    alloc: Global,
    src: &[u8],
    names: &Names,
    alone: bool,
    c: &CompareTree,
) -> Result<Compare, SourceFault>
    requires few { length names.now.names ≤ VARIABLES }
    requires fit { fit_compare (length src.now) c.now ≡ true }
    ensures { Gives result (spec.checked_compare src.now names.now.names alone c.now) }
{
    op_allowed(alone, c)?;
    let l = formed(alloc, src, names, &c.left)?;
    let r = formed(alloc, src, names, &c.right)?;
    with_rows(c, l, r)
}

/// Comparisons, in order.
fn compares(
    alloc: Global,
    src: &[u8],
    names: &Names,
    alone: bool,
    cs: &[CompareTree],
) -> Result<Items<Compare>, SourceFault>
    requires few { length names.now.names ≤ VARIABLES }
    requires fit { list_all (fit_compare (length src.now)) cs.now ≡ true }
    ensures { Gives result (spec.checked_each src.now names.now.names alone cs.now) }
{
    let mut all = Items::new(alloc);
    for c in cs {
        let x = compare(alloc, src, names, alone, c)?;
        all.push(x)?;
    }
    Ok(all)
}

/// Comparisons that are no test.
pub fn conjunction(
    alloc: Global,
    src: &[u8],
    names: &Names,
    cs: &[CompareTree],
) -> Result<Items<Compare>, SourceFault>
    requires few { length names.now.names ≤ VARIABLES }
    requires fit { fit_each (length src.now) cs.now ≡ true }
    ensures { Gives result (spec.checked_all src.now names.now.names cs.now) }
{
    compares(alloc, src, names, false, cs)
}

fn is_alone(cs: &[CompareTree]) -> bool
    ensures { result ≡ spec.is_alone cs.now }
{
    match cs {
        [_] => true,
        _ => false,
    }
}

/// The test of an `if` or a `while`.
pub fn test(alloc: Global, src: &[u8], names: &Names, tree: &TestTree) -> Result<Test, SourceFault>
    requires few { length names.now.names ≤ VARIABLES }
    requires fit { fit_test (length src.now) tree.now ≡ true }
    ensures { Gives result (spec.checked_test src.now names.now.names tree.now) }
{
    match tree {
        TestTree::Any => Ok(Test::Any),
        TestTree::All(cs) => {
            let cs = cs.as_slice();
            let all = compares(alloc, src, names, is_alone(cs), cs)?;
            Ok(Test::All(all))
        }
    }
}

fn rows_in(cs: &[CompareTree]) -> u32
    requires { length cs.now ≤ 8 }
    ensures value { result ≡ spec.rows_in cs.now }
    ensures most { result ≤ 2 * length cs.now }
{
    let mut rows = 0;
    for c in cs {
        rows += rows_of(c.op);
    }
    rows
}

fn rows_of(op: Op) -> u32
    ensures value { result ≡ (if is_either op then 2 else 1) }
    ensures most { result ≤ 2 }
{
    match op {
        Op::Equal | Op::Unequal => 2,
        Op::Less | Op::AtMost | Op::Greater | Op::AtLeast => 1,
    }
}

/// How many edges a test makes, where it holds and where it fails.
pub fn test_edges(src: &[u8], tree: &TestTree) -> u32
    requires { fit_test (length src.now) tree.now ≡ true }
    ensures value { result ≡ spec.test_edges tree.now }
    ensures most { result ≤ 17 }
{
    match tree {
        TestTree::Any => 2,
        TestTree::All(cs) => 1 + rows_in(cs.as_slice()),
    }
}

/// The choice, if its interval is not empty: an open end is beyond every number.
fn checked_ends(c: Choice) -> Result<Choice, SourceFault>
    ensures { result ≡ spec.checked_ends c (end_of c.lo) (end_of c.hi) }
{
    match (c.lo, c.hi) {
        (Bound::At(lo), Bound::At(hi)) if hi < lo => {
            Err(SourceFault::EmptyInterval(c.place, lo, hi))
        }
        _ => Ok(c),
    }
}

/// The interval of a choice is not empty.
fn choice(choice: Option<Choice>) -> Result<Option<Choice>, SourceFault>
    ensures { result ≡ spec.checked_choice choice }
{
    match choice {
        Some(c) => Ok(Some(checked_ends(c)?)),
        None => Ok(None),
    }
}

/// The right side of an assignment: its expression, and then its choice.
pub fn right(
    alloc: Global,
    src: &[u8],
    names: &Names,
    tree: &RightTree,
) -> Result<Right, SourceFault>
    requires few { length names.now.names ≤ VARIABLES }
    requires fit { fit_right (length src.now) tree.now ≡ true }
    ensures { Gives result (spec.checked_right src.now names.now.names tree.now) }
{
    let x = formed(alloc, src, names, &tree.expr)?;
    let choice = choice(tree.choice)?;
    Ok(Right {
        expr: x.expr,
        choice,
    })
}
