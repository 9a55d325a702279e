//! The descent through comparisons, conjunctions and tests.

ghost use Rattle.std.specs.Prelude.{◌≡◌, ◌<◌, ◌≤◌, length};
ghost use Rattle.pc_grammar.specs.Expressions.{paren};
ghost use Rattle.pc_grammar.specs.Statements as spec;
ghost use Rattle.pc_grammar.specs.Reads.{Reads};

use crate::cursor::{Cursor, Stop};
use crate::expr::expr;
use crate::tree::{CompareTree, TestTree};
use pc_language::{Op, Terminal};
use sqlite_items::Items;
use std::alloc::Global;

/// What an operator asks.
fn op_of(terminal: Terminal) -> Op
    ensures { result ≡ spec.op_of terminal }
{
    match terminal {
        Terminal::AtMost => Op::AtMost,
        Terminal::Greater => Op::Greater,
        Terminal::AtLeast => Op::AtLeast,
        Terminal::Equal => Op::Equal,
        Terminal::Unequal => Op::Unequal,
        _ => Op::Less,
    }
}

/// Two expressions and the operator between them.
fn compare(alloc: Global, cursor: &mut Cursor<'_>, depth: usize) -> Result<CompareTree, Stop>
    requires { length cursor.old.rest.now < depth }
    ensures reads { Reads (spec.compare (paren depth) cursor.old.rest.now) result cursor.new.rest.now }
    ensures shrinks { length cursor.new.rest.now ≤ length cursor.old.rest.now }
{
    let left = expr(alloc, cursor, depth)?;
    let operator = cursor.take_operator()?;
    let right = expr(alloc, cursor, depth)?;
    Ok(CompareTree {
        op: op_of(operator.terminal),
        left,
        right,
        place: operator.place,
    })
}

/// A conjunction: comparisons with `&&` between them, one at least.
pub fn all(alloc: Global, cursor: &mut Cursor<'_>, depth: usize) -> Result<Items<CompareTree>, Stop>
    requires { length cursor.old.rest.now < depth }
    ensures reads { Reads (spec.all (paren depth) cursor.old.rest.now) result cursor.new.rest.now }
    ensures shrinks { length cursor.new.rest.now ≤ length cursor.old.rest.now }
{
    let first = compare(alloc, cursor, depth)?;
    let mut found = Items::new(alloc);
    found.push(first)?;
    'compares: while cursor.sees(Terminal::And) {
        cursor.take(Terminal::And)?;
        let next = compare(alloc, cursor, depth)?;
        found.push(next)?;
    }
    Ok(found)
}

/// `*` or a conjunction. No expression begins with `*`, so the first symbol tells which.
fn test(alloc: Global, cursor: &mut Cursor<'_>, depth: usize) -> Result<TestTree, Stop>
    requires { length cursor.old.rest.now < depth }
    ensures reads { Reads (spec.test (paren depth) cursor.old.rest.now) result cursor.new.rest.now }
    ensures shrinks { length cursor.new.rest.now ≤ length cursor.old.rest.now }
{
    if cursor.sees(Terminal::Star) {
        cursor.take(Terminal::Star)?;
        Ok(TestTree::Any)
    } else {
        Ok(TestTree::All(all(alloc, cursor, depth)?))
    }
}

/// A test in parentheses.
pub fn enclosed_test(alloc: Global, cursor: &mut Cursor<'_>, depth: usize) -> Result<TestTree, Stop>
    requires { length cursor.old.rest.now < depth }
    ensures reads { Reads (spec.enclosed (spec.test (paren depth)) cursor.old.rest.now) result cursor.new.rest.now }
    ensures shrinks { length cursor.new.rest.now ≤ length cursor.old.rest.now }
{
    cursor.take(Terminal::OpenParen)?;
    let test = test(alloc, cursor, depth)?;
    cursor.take(Terminal::CloseParen)?;
    Ok(test)
}

/// A conjunction in parentheses.
pub fn enclosed_all(
    alloc: Global,
    cursor: &mut Cursor<'_>,
    depth: usize,
) -> Result<Items<CompareTree>, Stop>
    requires { length cursor.old.rest.now < depth }
    ensures reads { Reads (spec.enclosed (spec.all (paren depth)) cursor.old.rest.now) result cursor.new.rest.now }
    ensures shrinks { length cursor.new.rest.now ≤ length cursor.old.rest.now }
{
    cursor.take(Terminal::OpenParen)?;
    let found = all(alloc, cursor, depth)?;
    cursor.take(Terminal::CloseParen)?;
    Ok(found)
}

/// The comparisons that are tried, none where `try` is missing.
pub fn tried(
    alloc: Global,
    cursor: &mut Cursor<'_>,
    depth: usize,
) -> Result<Items<CompareTree>, Stop>
    requires { length cursor.old.rest.now < depth }
    ensures reads { Reads (spec.tried (paren depth) cursor.old.rest.now) result cursor.new.rest.now }
    ensures shrinks { length cursor.new.rest.now ≤ length cursor.old.rest.now }
{
    if cursor.sees(Terminal::Try) {
        cursor.take(Terminal::Try)?;
        enclosed_all(alloc, cursor, depth)
    } else {
        Ok(Items::new(alloc))
    }
}
