//! The texts of expressions, with parentheses only where they are needed.

ghost use Rattle.std.specs.Prelude.{◌≡◌, ◌++◌, [], ◌∷◌, true, length, OnOk, if◌then◌else◌};
ghost use Rattle.pc_show.specs.Canonical as spec;
ghost use Rattle.pc_show.specs.Pieces.{bytes_of};
ghost use Rattle.pc_program.specs.Sane.{names_below};

use crate::showing::level::Level;
use pc_program::Expr;
use pc_text::{Names, NoMemory, Text};

/// Whether a sum or a difference needs parentheses.
fn wraps_sum(level: Level) -> bool
    ensures { result ≡ spec.wraps_sum level }
{
    match level {
        Level::Expression => false,
        Level::Addend | Level::Factor | Level::Atom => true,
    }
}

/// Whether a product needs parentheses.
fn wraps_product(level: Level) -> bool
    ensures { result ≡ spec.wraps_product level }
{
    match level {
        Level::Expression | Level::Addend => false,
        Level::Factor | Level::Atom => true,
    }
}

/// Whether a negation needs parentheses.
fn wraps_negation(level: Level) -> bool
    ensures { result ≡ spec.wraps_negation level }
{
    match level {
        Level::Expression | Level::Addend | Level::Factor => false,
        Level::Atom => true,
    }
}

/// Appends the parenthesis before what needs parentheses.
fn open(text: &mut Text, wraps: bool) -> Result<(), NoMemory>
    ensures { OnOk result (text.new ≡ text.old ++ (if wraps then 40 ∷ [] else [])) }
{
    if wraps { text.push_all(b"(") } else { Ok(()) }
}

/// Appends the parenthesis behind what needs parentheses.
fn close(text: &mut Text, wraps: bool) -> Result<(), NoMemory>
    ensures { OnOk result (text.new ≡ text.old ++ (if wraps then 41 ∷ [] else [])) }
{
    if wraps { text.push_all(b")") } else { Ok(()) }
}

/// Appends the sign of a sum or of a difference, with a space on each side.
fn push_sign(text: &mut Text, e: &Expr) -> Result<(), NoMemory>
    ensures { OnOk result (text.new ≡ text.old ++ bytes_of (spec.spaced (spec.sum_sign e.now))) }
{
    match e {
        Expr::Sub(..) => text.push_all(b" - "),
        _ => text.push_all(b" + "),
    }
}

/// Appends an expression where one of this level stands.
pub fn push_expr(text: &mut Text, names: &Names, e: &Expr, level: Level) -> Result<(), NoMemory>
    requires { names_below (length names.now.names) e.now ≡ true }
    ensures { OnOk result (text.new ≡ text.old ++ bytes_of (spec.expr_pieces names.now.names e.now level)) }
{
    match e {
        Expr::Num(n) => text.push_number(*n),
        Expr::Name(v) => text.push_all(names.at(*v)),
        Expr::Neg(a, _) => {
            let wraps = wraps_negation(level);
            open(text, wraps)?;
            text.push_all(b"-")?;
            push_expr(text, names, a.get(), Level::Atom)?;
            close(text, wraps)
        }
        Expr::Add(a, b, _) | Expr::Sub(a, b, _) => {
            let wraps = wraps_sum(level);
            open(text, wraps)?;
            push_expr(text, names, a.get(), Level::Expression)?;
            push_sign(text, e)?;
            push_expr(text, names, b.get(), Level::Addend)?;
            close(text, wraps)
        }
        Expr::Mul(a, b, _) => {
            let wraps = wraps_product(level);
            open(text, wraps)?;
            push_expr(text, names, a.get(), Level::Addend)?;
            text.push_all(b" * ")?;
            push_expr(text, names, b.get(), Level::Factor)?;
            close(text, wraps)
        }
    }
}
