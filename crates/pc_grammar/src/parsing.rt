//! The parse trees of symbols.

ghost use Rattle.std.specs.Prelude.{◌≡◌, Result};
ghost use Rattle.pc_grammar.specs.declared.fault.ParseFault.{ParseFault};
ghost use Rattle.pc_grammar.specs.declared.tree.ProgramTree.{ProgramTree};
ghost use Rattle.pc_grammar.specs.declared.tree.ParallelTree.{ParallelTree};
ghost use Rattle.pc_grammar.specs.Programs.{programs};
ghost use Rattle.pc_grammar.specs.Parallels.{parallels};
ghost use Rattle.pc_grammar.specs.Parsing as spec;

use crate::cursor::{Cursor, Stop};
use crate::fault::ParseFault;
use crate::limits::{PROCESSES, Past, first_past};
use crate::parallel::whole_parallel;
use crate::program::whole_program;
use crate::symbol::Symbol;
use crate::tree::{ParallelTree, ProgramTree};
use pc_text::Place;
use std::alloc::Global;

/// The fault where the descent stopped: that of syntax at the next symbol; at the end of what was
/// read, that of the symbol past a limit, or of syntax at the end of the text.
fn fault_at(past: Option<Past>, end: Place, rest: &[Symbol]) -> ParseFault
    ensures { result ≡ spec.fault_at past end rest.now }
{
    match rest.first() {
        Some(symbol) => ParseFault::Syntax(symbol.place),
        None => match past {
            Some(past) => past.fault,
            None => ParseFault::Syntax(end),
        },
    }
}

/// The answer for the symbols up to and with the first that is past a limit.
fn read_front(
    alloc: Global,
    front: &[Symbol],
    past: Option<Past>,
    end: Place,
) -> Result<ProgramTree, ParseFault>
    ensures { spec.Gives result (spec.answer past end (spec.read_whole programs front.now)) }
{
    let mut cursor = Cursor { rest: front };
    match whole_program(alloc, &mut cursor, front.len() + 1) {
        Ok(tree) => match past {
            Some(past) => Err(past.fault),
            None => Ok(tree),
        },
        Err(Stop::NoMemory) => Err(ParseFault::NoMemory),
        Err(Stop::Syntax) => Err(fault_at(past, end, cursor.rest)),
    }
}

/// The answer that the executable definition computes.
fn read(alloc: Global, symbols: &[Symbol], end: Place) -> Result<ProgramTree, ParseFault>
    ensures { spec.Gives result (spec.parsed programs symbols.now end) }
{
    match first_past(None, symbols) {
        Some(past) => read_front(alloc, &symbols[..past.at + 1], Some(past), end),
        None => read_front(alloc, symbols, None, end),
    }
}

/// The parse tree of the symbols of a text, or its fault. `end` is the place behind the text's last
/// byte, where a fault stands that comes only there.
///
/// The answer is what the definition by derivations and limits says (`meant`); whatever that
/// definition allows is the answer (`only`); and it is what the executable definition computes
/// (`computed`). `NoMemory` alone may come instead.
///
/// Only the symbols up to and with the first that is past a limit are read, so recursion is bounded
/// whatever the text.
pub fn parse(alloc: Global, symbols: &[Symbol], end: Place) -> Result<ProgramTree, ParseFault>
    ensures meant { spec.MeansUnless programs result symbols.now end }
    ensures only { (answer : Result ProgramTree ParseFault) → spec.Means programs symbols.now end answer → spec.Gives result answer }
    ensures computed { spec.Gives result (spec.parsed programs symbols.now end) }
{
    read(alloc, symbols, end)
}

/// The same of several processes.
fn read_parallel_front(
    alloc: Global,
    front: &[Symbol],
    past: Option<Past>,
    end: Place,
) -> Result<ParallelTree, ParseFault>
    ensures { spec.Gives result (spec.answer past end (spec.read_whole parallels front.now)) }
{
    let mut cursor = Cursor { rest: front };
    match whole_parallel(alloc, &mut cursor, front.len() + 1) {
        Ok(tree) => match past {
            Some(past) => Err(past.fault),
            None => Ok(tree),
        },
        Err(Stop::NoMemory) => Err(ParseFault::NoMemory),
        Err(Stop::Syntax) => Err(fault_at(past, end, cursor.rest)),
    }
}

/// The same of several processes.
fn read_parallel(alloc: Global, symbols: &[Symbol], end: Place) -> Result<ParallelTree, ParseFault>
    ensures { spec.Gives result (spec.parsed parallels symbols.now end) }
{
    match first_past(Some(PROCESSES), symbols) {
        Some(past) => read_parallel_front(alloc, &symbols[..past.at + 1], Some(past), end),
        None => read_parallel_front(alloc, symbols, None, end),
    }
}

/// The parse tree of the symbols of a text with several processes, or its fault: as [`parse`] of a
/// program. The `{` of a process behind [`PROCESSES`](crate::PROCESSES) others is a fault of its own
/// where no other comes before it.
pub fn parse_parallel(
    alloc: Global,
    symbols: &[Symbol],
    end: Place,
) -> Result<ParallelTree, ParseFault>
    ensures meant { spec.MeansUnless parallels result symbols.now end }
    ensures only { (answer : Result ParallelTree ParseFault) → spec.Means parallels symbols.now end answer → spec.Gives result answer }
    ensures computed { spec.Gives result (spec.parsed parallels symbols.now end) }
{
    read_parallel(alloc, symbols, end)
}
