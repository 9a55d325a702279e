//! From bytes to programs.

ghost use Rattle.std.specs.Prelude.{◌≢◌, ◌<◌, ◌-◌, ◌^◌, length, Result, IfOk, IfErr};
ghost use Rattle.pc_program.specs.declared.program.Program.{Program};
ghost use Rattle.pc_syntax.specs.declared.fault.SourceFault.{SourceFault};
ghost use Rattle.pc_syntax.specs.declared.fault.SourceFault.TheVariants.{NoMemory};
ghost use Rattle.pc_grammar.specs.Programs.{programs};
ghost use Rattle.pc_syntax.specs.Texts.{with_fault, tree_of, content_at};
ghost use Rattle.pc_syntax.specs.Spelling.{of_programs, Spells, Faulty, Means, AlikeUnless, GivesProgram};
ghost use Rattle.pc_grammar.specs.Parsing.{parsed};
ghost use Rattle.pc_syntax.specs.Faults.{Gives, of_tree};

use crate::fault::SourceFault;
use crate::walk::walk_tree;
use pc_grammar::{ProgramTree, Symbol, parse, symbols};
use pc_program::Program;
use pc_text::{Place, place_of, tokens};
use std::alloc::Global;

/// The program that the bytes of a text spell, or their fault. There are fewer than 2^32 - 1 of
/// them, so that lines and columns fit.
pub fn read(alloc: Global, src: &[u8]) -> Result<Program, SourceFault>
    requires { length src.now < 2 ^ 32 - 1 }
    ensures spells { IfOk result (λ p. Spells src.now p) }
    ensures faulty { IfErr result (λ f. f ≢ NoMemory → Faulty src.now f) }
    ensures only { (answer : Result Program SourceFault) → Means src.now answer → AlikeUnless result answer }
{
    read_content(alloc, src)
}

/// The program of the content that a text has.
fn read_content(alloc: Global, src: &[u8]) -> Result<Program, SourceFault>
    requires { length src.now < 2 ^ 32 - 1 }
    ensures { GivesProgram result (content_at of_programs src.now) }
{
    let tree = tree(alloc, src)?;
    walk_tree(alloc, src, &tree)
}

/// The parse tree of a text.
fn tree(alloc: Global, src: &[u8]) -> Result<ProgramTree, SourceFault>
    requires { length src.now < 2 ^ 32 - 1 }
    ensures { Gives result (tree_of programs src.now) }
{
    let found = tokens(alloc, src)?;
    let symbols = symbols(alloc, src, found.as_slice())?;
    let end = place_of(src, src.len());
    tree_at(alloc, symbols.as_slice(), end)
}

/// The parse tree of the symbols of a text that ends at `end`.
fn tree_at(alloc: Global, symbols: &[Symbol], end: Place) -> Result<ProgramTree, SourceFault>
    ensures { Gives result (with_fault of_tree (parsed programs symbols.now end)) }
{
    let tree = parse(alloc, symbols, end)?;
    Ok(tree)
}
