//! The descent through sources with several processes.

ghost use Rattle.std.specs.Prelude.{◌<◌, ◌≤◌, length};
ghost use Rattle.pc_grammar.specs.Combinators.{whole, many};
ghost use Rattle.pc_grammar.specs.Terminals.{the};
ghost use Rattle.pc_grammar.specs.Statements.{block};
ghost use Rattle.pc_grammar.specs.Parallels as spec;
ghost use Rattle.pc_grammar.specs.Reads.{Reads};

use crate::cursor::{Cursor, Stop};
use crate::program::{locals, params};
use crate::stmt::block;
use crate::tree::{ParallelTree, StmtTree};
use pc_language::Terminal;
use sqlite_items::Items;
use std::alloc::Global;

/// As many blocks as there are.
fn further(
    alloc: Global,
    cursor: &mut Cursor<'_>,
    depth: usize,
) -> Result<Items<Items<StmtTree>>, Stop>
    requires { length cursor.old.rest.now < depth }
    ensures reads { Reads (many (the Terminal.OpenBrace) (block depth) cursor.old.rest.now) result cursor.new.rest.now }
    ensures shrinks { length cursor.new.rest.now ≤ length cursor.old.rest.now }
{
    let mut found = Items::new(alloc);
    'others: while cursor.sees(Terminal::OpenBrace) {
        let next = block(alloc, cursor, depth)?;
        found.push(next)?;
    }
    Ok(found)
}

/// The blocks of the processes, two at least.
fn processes(
    alloc: Global,
    cursor: &mut Cursor<'_>,
    depth: usize,
) -> Result<Items<Items<StmtTree>>, Stop>
    requires { length cursor.old.rest.now < depth }
    ensures reads { Reads (spec.processes depth cursor.old.rest.now) result cursor.new.rest.now }
    ensures shrinks { length cursor.new.rest.now ≤ length cursor.old.rest.now }
{
    let first = block(alloc, cursor, depth)?;
    let second = block(alloc, cursor, depth)?;
    let others = further(alloc, cursor, depth)?;
    let mut found = Items::new(alloc);
    found.push(first)?;
    found.push(second)?;
    found.append(others)?;
    Ok(found)
}

/// A source with several processes; what stands behind its last `}` is left.
fn parallel(alloc: Global, cursor: &mut Cursor<'_>, depth: usize) -> Result<ParallelTree, Stop>
    requires { length cursor.old.rest.now < depth }
    ensures reads { Reads (spec.parallel depth cursor.old.rest.now) result cursor.new.rest.now }
{
    let entry = cursor.take(Terminal::Entry)?;
    let params = params(alloc, cursor)?;
    cursor.take(Terminal::OpenBrace)?;
    let locals = locals(alloc, cursor)?;
    let bodies = processes(alloc, cursor, depth)?;
    cursor.take(Terminal::CloseBrace)?;
    Ok(ParallelTree {
        place: entry.place,
        params,
        locals,
        bodies,
    })
}

/// Several processes that take all of the symbols.
pub fn whole_parallel(
    alloc: Global,
    cursor: &mut Cursor<'_>,
    depth: usize,
) -> Result<ParallelTree, Stop>
    requires { length cursor.old.rest.now < depth }
    ensures { Reads (whole (spec.parallel depth cursor.old.rest.now)) result cursor.new.rest.now }
{
    let tree = parallel(alloc, cursor, depth)?;
    if cursor.rest.is_empty() {
        Ok(tree)
    } else {
        Err(Stop::Syntax)
    }
}
