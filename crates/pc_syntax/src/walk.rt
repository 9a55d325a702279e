//! The walk over a parse tree by the context rules.

ghost use Rattle.std.specs.Prelude.{◌≡◌, true, length};
ghost use Rattle.pc_syntax.specs.Context.{checked};
ghost use Rattle.pc_syntax.specs.Spelling.{GivesProgram};
ghost use Rattle.pc_syntax.specs.Trees.{fit_tree};

mod conditions;
mod exprs;
mod names;
mod stmts;

use crate::fault::SourceFault;
use crate::walk::names::declared;
use crate::walk::stmts::stmts;
use pc_grammar::ProgramTree;
use pc_program::{Expr, Program, Stmt};
use pc_rows::Row;
use sqlite_items::Items;
use std::alloc::Global;

/// An expression with its normal form.
#[derive(Drop)]
pub struct Formed {
    pub expr: Expr,
    pub form: Row,
}

/// A statement, with the edges of the program up to its end.
#[derive(Drop)]
pub struct Counted {
    pub stmt: Stmt,
    pub edges: u32,
}

/// Statements, with the edges of the program up to their end.
#[derive(Drop)]
pub struct CountedList {
    pub stmts: Items<Stmt>,
    pub edges: u32,
}

/// The program of a parse tree, or the first context rule that it breaks: the names, and then the
/// statements, over an edge that leads into the program.
pub fn walk_tree(alloc: Global, src: &[u8], tree: &ProgramTree) -> Result<Program, SourceFault>
    requires { fit_tree (length src.now) tree.now ≡ true }
    ensures { GivesProgram result (checked src.now tree.now) }
{
    let names = declared(alloc, src, tree)?;
    let body = stmts(alloc, src, &names, tree.body.as_slice(), 1)?;
    Ok(Program {
        place: tree.place,
        names,
        body: body.stmts,
    })
}
