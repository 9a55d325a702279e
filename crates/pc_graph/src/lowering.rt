//! From programs to graphs.

ghost use Rattle.std.specs.Prelude.{◌≡◌, ◌<◌, ◌≤◌, ◌+◌, ◌^◌, OnOk, IfOk, true};
ghost use Rattle.pc_rows.specs.declared.row.TheConstants.{VARIABLES};
ghost use Rattle.pc_program.specs.Sane.{sane_stmt, sane_stmts};
ghost use Rattle.pc_program.specs.declared.tree.Stmt.TheVariants.{If, While};
ghost use Rattle.pc_graph.specs.Drawn.{extended, entered};
ghost use Rattle.pc_graph.specs.Lowering.{rule, rules, graph};

use crate::assembly::points;
use crate::assignment::assigned;
use crate::draft::Draft;
use crate::side::Side;
use pc_flow::{Graph, What};
use pc_program::{Compare, Program, Stmt, Test, rows_of};
use pc_text::{NoMemory, Place};
use std::alloc::Global;

/// What the rule of a statement of a program with `n` variables makes.
#[cycle(lowering)]
fn lower_stmt(n: u32, s: &Stmt, draft: &mut Draft) -> Result<(), NoMemory>
    requires few { n ≤ VARIABLES }
    requires sane { sane_stmt n s.now ≡ true }
    requires room { (rule s.now draft.old.at draft.old.next).next < 2 ^ 32 }
    ensures { OnOk result (draft.new ≡ extended draft.old (rule s.now draft.old.at draft.old.next)) }
{
    match s {
        Stmt::Set { place, var, right } => {
            let what = assigned(draft.alloc, n, *var, right);
            draft.link(*place, what)
        }
        Stmt::Assert { place, all } => {
            let rows = rows_of(draft.alloc, all.as_slice())?;
            draft.link(*place, What::Check(rows))
        }
        Stmt::Assume { place, all } => {
            let rows = rows_of(draft.alloc, all.as_slice())?;
            draft.link(*place, What::Test(rows))
        }
        Stmt::If {
            place,
            test,
            then_part,
            else_part,
        } => lower_if(
            n,
            *place,
            test,
            then_part.as_slice(),
            else_part.as_slice(),
            draft,
        ),
        Stmt::While {
            place,
            test,
            tried,
            body,
        } => lower_while(n, *place, test, tried.as_slice(), body.as_slice(), draft),
    }
}

/// The two sides of an `if`, and the point after them.
#[cycle(lowering)]
fn lower_if(
    n: u32,
    place: Place,
    test: &Test,
    then_part: &[Stmt],
    else_part: &[Stmt],
    draft: &mut Draft,
) -> Result<(), NoMemory>
    requires few { n ≤ VARIABLES }
    requires sane { sane_stmt n (If place test.now then_part.now else_part.now) ≡ true }
    requires room { (rule (If place test.now then_part.now else_part.now) draft.old.at draft.old.next).next < 2 ^ 32 }
    ensures { OnOk result (draft.new ≡ extended draft.old (rule (If place test.now then_part.now else_part.now) draft.old.at draft.old.next)) }
{
    let p = draft.at();
    draft.branch(n, p, place, test, Side::Then)?;
    lower_list(n, then_part, draft)?;
    let t = draft.at();
    draft.branch(n, p, place, test, Side::Else)?;
    lower_list(n, else_part, draft)?;
    draft.join(place, t)
}

/// A `while`: its head is the present point, its block leads back there, and its exit to the next present point.
#[cycle(lowering)]
fn lower_while(
    n: u32,
    place: Place,
    test: &Test,
    tried: &[Compare],
    block: &[Stmt],
    draft: &mut Draft,
) -> Result<(), NoMemory>
    requires few { n ≤ VARIABLES }
    requires sane { sane_stmt n (While place test.now tried.now block.now) ≡ true }
    requires room { (rule (While place test.now tried.now block.now) draft.old.at draft.old.next).next < 2 ^ 32 }
    ensures { OnOk result (draft.new ≡ extended draft.old (rule (While place test.now tried.now block.now) draft.old.at draft.old.next)) }
{
    let p = draft.at();
    let rows = rows_of(draft.alloc, tried)?;
    draft.head(rows)?;
    draft.branch(n, p, place, test, Side::Body)?;
    lower_list(n, block, draft)?;
    draft.turn(p)?;
    draft.branch(n, p, place, test, Side::Exit)
}

/// What the rules of statements make, one after the other.
#[cycle(lowering)]
fn lower_list(n: u32, list: &[Stmt], draft: &mut Draft) -> Result<(), NoMemory>
    requires few { n ≤ VARIABLES }
    requires sane { sane_stmts n list.now ≡ true }
    requires room { (rules list.now draft.old.at draft.old.next).next < 2 ^ 32 }
    ensures { OnOk result (draft.new ≡ extended draft.old (rules list.now draft.old.at draft.old.next)) }
{
    for s in list {
        lower_stmt(n, s, draft)?;
    }
    Ok(())
}

/// The graph of a program. It refuses for want of memory alone.
pub fn lower(alloc: Global, p: &Program) -> Result<Graph, NoMemory>
    ensures { IfOk result (λ g. g ≡ graph p.now) }
{
    let variables = p.names.len();
    let params = p.names.params();
    let mut draft = entered(alloc, p.place, params)?;
    lower_list(variables, p.body.as_slice(), &mut draft)?;
    let Draft {
        alloc: _,
        at: _,
        next: _,
        places,
        edges,
        loops,
    } = draft;
    let points = points(alloc, loops.as_slice(), places.as_slice())?;
    Graph::new(alloc, params, variables, points, edges)
}

/// The entry, the start, and the edge from one to the other.
fn entered(alloc: Global, place: Place, params: u32) -> Result<Draft, NoMemory>
    requires { params ≤ VARIABLES }
    ensures { IfOk result (λ draft. draft ≡ entered place params) }
{
    let mut draft = Draft::new(alloc, 0, 0);
    draft.point(place)?;
    draft.point(place)?;
    draft.edge(0, 1, What::Enter { params }, false)?;
    Ok(draft)
}
