//! The values of expressions.

ghost use Rattle.std.specs.Prelude.{◌≡◌, pos, slice_index_or};
ghost use Rattle.pc_runner.specs.Checked.{evaluated};

use crate::arithmetic::{difference, opposite, product, sum};
use pc_program::Expr;
use pc_text::Place;

/// What an expression is worth at a state, or the place of its first operator whose value is not in
/// range: left before right, inner before outer.
pub fn value_of(expr: &Expr, state: &[i128]) -> Result<i128, Place>
    ensures { result ≡ evaluated state.now expr.now }
{
    match expr {
        Expr::Num(n) => Ok(*n),
        Expr::Name(variable) => Ok(value_at(state, *variable)),
        Expr::Neg(a, place) => {
            let x = value_of(a.get(), state)?;
            opposite(x, *place)
        }
        Expr::Add(a, b, place) => {
            let x = value_of(a.get(), state)?;
            let y = value_of(b.get(), state)?;
            sum(x, y, *place)
        }
        Expr::Sub(a, b, place) => {
            let x = value_of(a.get(), state)?;
            let y = value_of(b.get(), state)?;
            difference(x, y, *place)
        }
        Expr::Mul(a, b, place) => {
            let x = value_of(a.get(), state)?;
            let y = value_of(b.get(), state)?;
            product(x, y, *place)
        }
    }
}

fn value_at(state: &[i128], variable: u32) -> i128
    ensures { result ≡ slice_index_or state.now variable (pos 0) }
{
    match state.get(variable as usize) {
        Some(value) => *value,
        None => 0,
    }
}
