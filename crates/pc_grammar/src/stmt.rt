//! The descent through statements and blocks.

ghost use Rattle.std.specs.Prelude.{◌<◌, ◌+◌, ◌≤◌, length, OnOk};
ghost use Rattle.pc_grammar.specs.Expressions.{paren};
ghost use Rattle.pc_grammar.specs.Statements as spec;
ghost use Rattle.pc_grammar.specs.Reads.{Reads};

use crate::compare::{enclosed_all, enclosed_test, tried};
use crate::cursor::{Cursor, Stop};
use crate::right::right;
use crate::tree::StmtTree;
use pc_language::Terminal;
use sqlite_items::Items;
use std::alloc::Global;

/// An assignment.
fn set_stmt(alloc: Global, cursor: &mut Cursor<'_>, depth: usize) -> Result<StmtTree, Stop>
    requires { length cursor.old.rest.now < depth }
    ensures reads { Reads (spec.set_stmt (paren depth) cursor.old.rest.now) result cursor.new.rest.now }
    ensures shrinks { length cursor.new.rest.now ≤ length cursor.old.rest.now }
    ensures shorter { OnOk result (length cursor.new.rest.now + 1 ≤ length cursor.old.rest.now) }
{
    let name = cursor.take(Terminal::Name)?;
    cursor.take(Terminal::Assign)?;
    let right = right(alloc, cursor, depth)?;
    cursor.take(Terminal::Semicolon)?;
    Ok(StmtTree::Set { name, right })
}

/// `assert` with a conjunction.
fn assert_stmt(alloc: Global, cursor: &mut Cursor<'_>, depth: usize) -> Result<StmtTree, Stop>
    requires { length cursor.old.rest.now < depth }
    ensures reads { Reads (spec.assert_stmt (paren depth) cursor.old.rest.now) result cursor.new.rest.now }
    ensures shrinks { length cursor.new.rest.now ≤ length cursor.old.rest.now }
    ensures shorter { OnOk result (length cursor.new.rest.now + 1 ≤ length cursor.old.rest.now) }
{
    let keyword = cursor.take(Terminal::Assert)?;
    let all = enclosed_all(alloc, cursor, depth)?;
    cursor.take(Terminal::Semicolon)?;
    Ok(StmtTree::Assert {
        place: keyword.place,
        all,
    })
}

/// `assume` with a conjunction.
fn assume_stmt(alloc: Global, cursor: &mut Cursor<'_>, depth: usize) -> Result<StmtTree, Stop>
    requires { length cursor.old.rest.now < depth }
    ensures reads { Reads (spec.assume_stmt (paren depth) cursor.old.rest.now) result cursor.new.rest.now }
    ensures shrinks { length cursor.new.rest.now ≤ length cursor.old.rest.now }
    ensures shorter { OnOk result (length cursor.new.rest.now + 1 ≤ length cursor.old.rest.now) }
{
    let keyword = cursor.take(Terminal::Assume)?;
    let all = enclosed_all(alloc, cursor, depth)?;
    cursor.take(Terminal::Semicolon)?;
    Ok(StmtTree::Assume {
        place: keyword.place,
        all,
    })
}

/// The second block of an `if`, which is empty where `else` is missing.
#[cycle(stmt)]
fn else_part(alloc: Global, cursor: &mut Cursor<'_>, depth: usize) -> Result<Items<StmtTree>, Stop>
    requires { length cursor.old.rest.now < depth }
    ensures reads { Reads (spec.after Terminal.Else (spec.block depth) cursor.old.rest.now) result cursor.new.rest.now }
    ensures shrinks { length cursor.new.rest.now ≤ length cursor.old.rest.now }
{
    if cursor.sees(Terminal::Else) {
        cursor.take(Terminal::Else)?;
        block(alloc, cursor, depth)
    } else {
        Ok(Items::new(alloc))
    }
}

/// `if` with its test and one block or two.
#[cycle(stmt)]
fn if_stmt(alloc: Global, cursor: &mut Cursor<'_>, depth: usize) -> Result<StmtTree, Stop>
    requires { length cursor.old.rest.now < depth }
    ensures reads { Reads (spec.if_stmt (paren depth) (spec.block depth) cursor.old.rest.now) result cursor.new.rest.now }
    ensures shrinks { length cursor.new.rest.now ≤ length cursor.old.rest.now }
    ensures shorter { OnOk result (length cursor.new.rest.now + 1 ≤ length cursor.old.rest.now) }
{
    let keyword = cursor.take(Terminal::If)?;
    let test = enclosed_test(alloc, cursor, depth)?;
    let then_part = block(alloc, cursor, depth)?;
    let else_part = else_part(alloc, cursor, depth)?;
    Ok(StmtTree::If {
        place: keyword.place,
        test,
        then_part,
        else_part,
    })
}

/// `while` with its test, perhaps what is tried, and its block.
#[cycle(stmt)]
fn while_stmt(alloc: Global, cursor: &mut Cursor<'_>, depth: usize) -> Result<StmtTree, Stop>
    requires { length cursor.old.rest.now < depth }
    ensures reads { Reads (spec.while_stmt (paren depth) (spec.block depth) cursor.old.rest.now) result cursor.new.rest.now }
    ensures shrinks { length cursor.new.rest.now ≤ length cursor.old.rest.now }
    ensures shorter { OnOk result (length cursor.new.rest.now + 1 ≤ length cursor.old.rest.now) }
{
    let keyword = cursor.take(Terminal::While)?;
    let test = enclosed_test(alloc, cursor, depth)?;
    let tried = tried(alloc, cursor, depth)?;
    let body = block(alloc, cursor, depth)?;
    Ok(StmtTree::While {
        place: keyword.place,
        test,
        tried,
        body,
    })
}

/// A statement: its first symbol tells which.
#[cycle(stmt)]
fn stmt(alloc: Global, cursor: &mut Cursor<'_>, depth: usize) -> Result<StmtTree, Stop>
    requires { length cursor.old.rest.now < depth }
    ensures reads { Reads (spec.stmt (paren depth) (spec.block depth) cursor.old.rest.now) result cursor.new.rest.now }
    ensures shrinks { length cursor.new.rest.now ≤ length cursor.old.rest.now }
    ensures shorter { OnOk result (length cursor.new.rest.now + 1 ≤ length cursor.old.rest.now) }
{
    if cursor.sees(Terminal::Name) {
        set_stmt(alloc, cursor, depth)
    } else if cursor.sees(Terminal::If) {
        if_stmt(alloc, cursor, depth)
    } else if cursor.sees(Terminal::While) {
        while_stmt(alloc, cursor, depth)
    } else if cursor.sees(Terminal::Assert) {
        assert_stmt(alloc, cursor, depth)
    } else {
        assume_stmt(alloc, cursor, depth)
    }
}

/// As many statements as there are.
#[cycle(stmt)]
pub fn stmts(alloc: Global, cursor: &mut Cursor<'_>, depth: usize) -> Result<Items<StmtTree>, Stop>
    requires { length cursor.old.rest.now < depth }
    ensures reads { Reads (spec.stmts depth cursor.old.rest.now) result cursor.new.rest.now }
    ensures shrinks { length cursor.new.rest.now ≤ length cursor.old.rest.now }
{
    let mut found = Items::new(alloc);
    'items: while cursor.begins_stmt() {
        let next = stmt(alloc, cursor, depth)?;
        found.push(next)?;
    }
    Ok(found)
}

/// Statements in braces.
#[cycle(stmt)]
pub fn block(alloc: Global, cursor: &mut Cursor<'_>, depth: usize) -> Result<Items<StmtTree>, Stop>
    requires { length cursor.old.rest.now < depth }
    ensures reads { Reads (spec.block depth cursor.old.rest.now) result cursor.new.rest.now }
    ensures shrinks { length cursor.new.rest.now ≤ length cursor.old.rest.now }
    ensures shorter { OnOk result (length cursor.new.rest.now + 1 ≤ length cursor.old.rest.now) }
{
    cursor.take(Terminal::OpenBrace)?;
    let found = stmts(alloc, cursor, depth - 1)?;
    cursor.take(Terminal::CloseBrace)?;
    Ok(found)
}
