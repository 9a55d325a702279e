//! Statements, in order, with the count of their edges.

ghost use Rattle.std.specs.Prelude.{◌≡◌, ◌≤◌, true, length, IfOk};
ghost use Rattle.pc_rows.specs.declared.row.TheConstants.{VARIABLES};
ghost use Rattle.pc_syntax.specs.Context as spec;
ghost use Rattle.pc_syntax.specs.Faults.{Gives};
ghost use Rattle.pc_syntax.specs.Trees.{fit_each, fit_test, fit_stmt, fit_stmts};

use crate::fault::SourceFault;
use crate::walk::conditions::{conjunction, right, test, test_edges};
use crate::walk::names::resolved;
use crate::walk::{Counted, CountedList};
use pc_grammar::{CompareTree, StmtTree, TestTree};
use pc_language::EDGES;
use pc_program::Stmt;
use pc_text::{Names, Place};
use sqlite_items::Items;
use std::alloc::Global;

/// The count of edges after `n` more, which the statement at `place` makes.
fn counted(n: u32, place: Place, edges: u32) -> Result<u32, SourceFault>
    requires few { n ≤ 64 }
    requires within { edges ≤ EDGES }
    ensures value { result ≡ spec.counted n place edges }
    ensures within { IfOk result (λ e. e ≤ EDGES) }
{
    if edges + n > EDGES {
        Err(SourceFault::TooManyEdges(place))
    } else {
        Ok(edges + n)
    }
}

/// An `if` after so many edges: its test, its first block, its second.
#[cycle(walk)]
fn if_stmt(
    alloc: Global,
    src: &[u8],
    names: &Names,
    place: Place,
    tree: &TestTree,
    then_part: &[StmtTree],
    else_part: &[StmtTree],
    edges: u32,
) -> Result<Counted, SourceFault>
    requires few { length names.now.names ≤ VARIABLES }
    requires tested { fit_test (length src.now) tree.now ≡ true }
    requires then_fit { fit_stmts (length src.now) then_part.now ≡ true }
    requires else_fit { fit_stmts (length src.now) else_part.now ≡ true }
    requires within { edges ≤ EDGES }
    ensures value { Gives result (spec.split src.now names.now.names place tree.now (spec.checked_stmts src.now names.now.names then_part.now) (spec.checked_stmts src.now names.now.names else_part.now) edges) }
    ensures within { IfOk result (λ x. x.edges ≤ EDGES) }
{
    let edges = counted(test_edges(src, tree) + 2, place, edges)?;
    let test = test(alloc, src, names, tree)?;
    let then_part = stmts(alloc, src, names, then_part, edges)?;
    let else_part = stmts(alloc, src, names, else_part, then_part.edges)?;
    Ok(Counted {
        stmt: Stmt::If {
            place,
            test,
            then_part: then_part.stmts,
            else_part: else_part.stmts,
        },
        edges: else_part.edges,
    })
}

/// A `while` after so many edges: its test, the comparisons that it tries, its block.
#[cycle(walk)]
fn while_stmt(
    alloc: Global,
    src: &[u8],
    names: &Names,
    place: Place,
    tree: &TestTree,
    tried: &[CompareTree],
    body: &[StmtTree],
    edges: u32,
) -> Result<Counted, SourceFault>
    requires few { length names.now.names ≤ VARIABLES }
    requires tested { fit_test (length src.now) tree.now ≡ true }
    requires tried { fit_each (length src.now) tried.now ≡ true }
    requires body_fits { fit_stmts (length src.now) body.now ≡ true }
    requires within { edges ≤ EDGES }
    ensures value { Gives result (spec.loop src.now names.now.names place tree.now tried.now (spec.checked_stmts src.now names.now.names body.now) edges) }
    ensures within { IfOk result (λ x. x.edges ≤ EDGES) }
{
    let edges = counted(test_edges(src, tree) + 1, place, edges)?;
    let test = test(alloc, src, names, tree)?;
    let tried = conjunction(alloc, src, names, tried)?;
    let body = stmts(alloc, src, names, body, edges)?;
    Ok(Counted {
        stmt: Stmt::While {
            place,
            test,
            tried,
            body: body.stmts,
        },
        edges: body.edges,
    })
}

/// A statement after so many edges.
#[cycle(walk)]
pub fn stmt(
    alloc: Global,
    src: &[u8],
    names: &Names,
    tree: &StmtTree,
    edges: u32,
) -> Result<Counted, SourceFault>
    requires few { length names.now.names ≤ VARIABLES }
    requires fit { fit_stmt (length src.now) tree.now ≡ true }
    requires within { edges ≤ EDGES }
    ensures value { Gives result (spec.checked_stmt src.now names.now.names tree.now edges) }
    ensures within { IfOk result (λ x. x.edges ≤ EDGES) }
{
    match tree {
        StmtTree::Set { name, right: tree } => {
            let edges = counted(1, name.place, edges)?;
            let var = resolved(src, names, name)?;
            let right = right(alloc, src, names, tree)?;
            let place = name.place;
            let stmt = Stmt::Set { place, var, right };
            Ok(Counted { stmt, edges })
        }
        StmtTree::If {
            place,
            test: tree,
            then_part,
            else_part,
        } => {
            let xs = then_part.as_slice();
            let ys = else_part.as_slice();
            if_stmt(alloc, src, names, *place, tree, xs, ys, edges)
        }
        StmtTree::While {
            place,
            test: tree,
            tried,
            body,
        } => {
            let cs = tried.as_slice();
            let xs = body.as_slice();
            while_stmt(alloc, src, names, *place, tree, cs, xs, edges)
        }
        StmtTree::Assert { place, all } => {
            let edges = counted(1, *place, edges)?;
            let all = conjunction(alloc, src, names, all.as_slice())?;
            let stmt = Stmt::Assert { place: *place, all };
            Ok(Counted { stmt, edges })
        }
        StmtTree::Assume { place, all } => {
            let edges = counted(1, *place, edges)?;
            let all = conjunction(alloc, src, names, all.as_slice())?;
            let stmt = Stmt::Assume { place: *place, all };
            Ok(Counted { stmt, edges })
        }
    }
}

/// Statements, in order, after so many edges.
#[cycle(walk)]
pub fn stmts(
    alloc: Global,
    src: &[u8],
    names: &Names,
    trees: &[StmtTree],
    edges: u32,
) -> Result<CountedList, SourceFault>
    requires few { length names.now.names ≤ VARIABLES }
    requires fit { fit_stmts (length src.now) trees.now ≡ true }
    requires within { edges ≤ EDGES }
    ensures value { Gives result (spec.checked_stmts src.now names.now.names trees.now edges) }
    ensures within { IfOk result (λ x. x.edges ≤ EDGES) }
{
    let mut done = Items::new(alloc);
    let mut count = edges;
    for tree in trees {
        let x = stmt(alloc, src, names, tree, count)?;
        count = x.edges;
        done.push(x.stmt)?;
    }
    Ok(CountedList {
        stmts: done,
        edges: count,
    })
}
