//! Expressions, with their normal forms: inner parts before outer ones, from the left.

ghost use Rattle.std.specs.Prelude.{◌≡◌, ◌<◌, ◌≤◌, true, length, negsuc};
ghost use Rattle.pc_rows.specs.Linear.{fits, scaled_by, sum_of, difference_of};
ghost use Rattle.pc_rows.specs.declared.row.TheConstants.{VARIABLES};
ghost use Rattle.pc_syntax.specs.Context as spec;
ghost use Rattle.pc_program.specs.Forms.{product, variable};
ghost use Rattle.pc_syntax.specs.Faults.{Gives};
ghost use Rattle.pc_syntax.specs.Trees.{fit_expr};

use crate::fault::SourceFault;
use crate::walk::Formed;
use crate::walk::names::resolved;
use pc_grammar::ExprTree;
use pc_program::{AffineFault, Expr, difference, multiple, product, sum};
use pc_rows::Row;
use pc_text::{Names, Place};
use sqlite_items::Boxed;
use std::alloc::Global;

/// An expression of a parse tree with its normal form, or the fault of its first part at fault.
pub fn formed(
    alloc: Global,
    src: &[u8],
    names: &Names,
    tree: &ExprTree,
) -> Result<Formed, SourceFault>
    requires few { length names.now.names ≤ VARIABLES }
    requires fit { fit_expr (length src.now) tree.now ≡ true }
    ensures { Gives result (spec.checked_expr src.now names.now.names tree.now) }
{
    match tree {
        ExprTree::Num(n) => Ok(Formed {
            expr: Expr::Num(*n),
            form: Row::of_constant(alloc, *n),
        }),
        ExprTree::Name(symbol) => {
            let v = resolved(src, names, symbol)?;
            Ok(variable(alloc, v))
        }
        ExprTree::Neg(a, place) => {
            let x = formed(alloc, src, names, a.get())?;
            negated(alloc, x, *place)
        }
        ExprTree::Add(a, b, place) => {
            let x = formed(alloc, src, names, a.get())?;
            let y = formed(alloc, src, names, b.get())?;
            added(alloc, x, y, *place)
        }
        ExprTree::Sub(a, b, place) => {
            let x = formed(alloc, src, names, a.get())?;
            let y = formed(alloc, src, names, b.get())?;
            subtracted(alloc, x, y, *place)
        }
        ExprTree::Mul(a, b, place) => {
            let x = formed(alloc, src, names, a.get())?;
            let y = formed(alloc, src, names, b.get())?;
            multiplied(alloc, x, y, *place)
        }
    }
}

fn variable(alloc: Global, v: u32) -> Formed
    requires { v < VARIABLES }
    ensures expr { result.expr ≡ Expr.Name v }
    ensures form { result.form ≡ variable v }
{
    Formed {
        expr: Expr::Name(v),
        form: Row::of_constant(alloc, 0).with(v, 1),
    }
}

fn negated(alloc: Global, x: Formed, place: Place) -> Result<Formed, SourceFault>
    ensures { Gives result (spec.formed (Expr.Neg x.expr place) (fits (AffineFault.Past place) (scaled_by (negsuc 0) x.form))) }
{
    let form = multiple(-1, &x.form, place)?;
    let expr = Expr::Neg(Boxed::new(alloc, x.expr)?, place);
    Ok(Formed { expr, form })
}

fn added(alloc: Global, x: Formed, y: Formed, place: Place) -> Result<Formed, SourceFault>
    ensures { Gives result (spec.formed (Expr.Add x.expr y.expr place) (fits (AffineFault.Past place) (sum_of x.form y.form))) }
{
    let form = sum(&x.form, &y.form, place)?;
    let expr = Expr::Add(
        Boxed::new(alloc, x.expr)?,
        Boxed::new(alloc, y.expr)?,
        place,
    );
    Ok(Formed { expr, form })
}

fn subtracted(alloc: Global, x: Formed, y: Formed, place: Place) -> Result<Formed, SourceFault>
    ensures { Gives result (spec.formed (Expr.Sub x.expr y.expr place) (fits (AffineFault.Past place) (difference_of x.form y.form))) }
{
    let form = difference(&x.form, &y.form, place)?;
    let expr = Expr::Sub(
        Boxed::new(alloc, x.expr)?,
        Boxed::new(alloc, y.expr)?,
        place,
    );
    Ok(Formed { expr, form })
}

fn multiplied(alloc: Global, x: Formed, y: Formed, place: Place) -> Result<Formed, SourceFault>
    ensures { Gives result (spec.formed (Expr.Mul x.expr y.expr place) (product place x.form y.form)) }
{
    let form = product(&x.form, &y.form, place)?;
    let expr = Expr::Mul(
        Boxed::new(alloc, x.expr)?,
        Boxed::new(alloc, y.expr)?,
        place,
    );
    Ok(Formed { expr, form })
}
