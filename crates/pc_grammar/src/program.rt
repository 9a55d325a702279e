//! The descent through programs.

ghost use Rattle.std.specs.Prelude.{◌<◌, ◌+◌, ◌≤◌, length, OnOk};
ghost use Rattle.pc_grammar.specs.Combinators.{whole, maybe, map_parser};
ghost use Rattle.pc_grammar.specs.Terminals.{the};
ghost use Rattle.pc_grammar.specs.Programs as spec;
ghost use Rattle.pc_grammar.specs.Reads.{Reads};

use crate::cursor::{Cursor, Stop};
use crate::stmt::stmts;
use crate::symbol::Symbol;
use crate::tree::ProgramTree;
use pc_language::Terminal;
use sqlite_items::Items;
use std::alloc::Global;

/// Names with commas between them, one at least.
fn names(alloc: Global, cursor: &mut Cursor<'_>) -> Result<Items<Symbol>, Stop>
    ensures reads { Reads (spec.names cursor.old.rest.now) result cursor.new.rest.now }
    ensures shrinks { length cursor.new.rest.now ≤ length cursor.old.rest.now }
{
    let first = cursor.take(Terminal::Name)?;
    let mut found = Items::new(alloc);
    found.push(first)?;
    'more: while cursor.sees(Terminal::Comma) {
        cursor.take(Terminal::Comma)?;
        let next = cursor.take(Terminal::Name)?;
        found.push(next)?;
    }
    Ok(found)
}

/// The names of parameters, or none.
fn optional_names(alloc: Global, cursor: &mut Cursor<'_>) -> Result<Items<Symbol>, Stop>
    ensures reads { Reads (map_parser spec.given (maybe (the Terminal.Name) spec.names) cursor.old.rest.now) result cursor.new.rest.now }
    ensures shrinks { length cursor.new.rest.now ≤ length cursor.old.rest.now }
{
    if cursor.sees(Terminal::Name) {
        names(alloc, cursor)
    } else {
        Ok(Items::new(alloc))
    }
}

/// The parameters, in parentheses.
pub fn params(alloc: Global, cursor: &mut Cursor<'_>) -> Result<Items<Symbol>, Stop>
    ensures reads { Reads (spec.params cursor.old.rest.now) result cursor.new.rest.now }
    ensures shrinks { length cursor.new.rest.now ≤ length cursor.old.rest.now }
{
    cursor.take(Terminal::OpenParen)?;
    let found = optional_names(alloc, cursor)?;
    cursor.take(Terminal::CloseParen)?;
    Ok(found)
}

/// The names of one `var` line.
fn var_line(alloc: Global, cursor: &mut Cursor<'_>) -> Result<Items<Symbol>, Stop>
    ensures reads { Reads (spec.var_line cursor.old.rest.now) result cursor.new.rest.now }
    ensures shrinks { length cursor.new.rest.now ≤ length cursor.old.rest.now }
    ensures shorter { OnOk result (length cursor.new.rest.now + 1 ≤ length cursor.old.rest.now) }
{
    cursor.take(Terminal::Var)?;
    let found = names(alloc, cursor)?;
    cursor.take(Terminal::Semicolon)?;
    Ok(found)
}

/// The names of all `var` lines, in one list.
pub fn locals(alloc: Global, cursor: &mut Cursor<'_>) -> Result<Items<Symbol>, Stop>
    ensures reads { Reads (spec.locals cursor.old.rest.now) result cursor.new.rest.now }
    ensures shrinks { length cursor.new.rest.now ≤ length cursor.old.rest.now }
{
    let mut found = Items::new(alloc);
    'lines: while cursor.sees(Terminal::Var) {
        let line = var_line(alloc, cursor)?;
        found.append(line)?;
    }
    Ok(found)
}

/// A program; what stands behind its last `}` is left.
fn program(alloc: Global, cursor: &mut Cursor<'_>, depth: usize) -> Result<ProgramTree, Stop>
    requires { length cursor.old.rest.now < depth }
    ensures reads { Reads (spec.program depth cursor.old.rest.now) result cursor.new.rest.now }
{
    let entry = cursor.take(Terminal::Entry)?;
    let params = params(alloc, cursor)?;
    cursor.take(Terminal::OpenBrace)?;
    let locals = locals(alloc, cursor)?;
    let body = stmts(alloc, cursor, depth)?;
    cursor.take(Terminal::CloseBrace)?;
    Ok(ProgramTree {
        place: entry.place,
        params,
        locals,
        body,
    })
}

/// A program that takes all of the symbols.
pub fn whole_program(
    alloc: Global,
    cursor: &mut Cursor<'_>,
    depth: usize,
) -> Result<ProgramTree, Stop>
    requires { length cursor.old.rest.now < depth }
    ensures { Reads (whole (spec.program depth cursor.old.rest.now)) result cursor.new.rest.now }
{
    let tree = program(alloc, cursor, depth)?;
    if cursor.rest.is_empty() {
        Ok(tree)
    } else {
        Err(Stop::Syntax)
    }
}
