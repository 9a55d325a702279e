//! The descent through expressions.
//!
//! Every function of the descent takes a `depth`: how many levels of nesting its parser may open.
//! It is above the number of symbols left, and each level takes a symbol, so it is never spent.

ghost use Rattle.std.specs.Prelude.{◌≡◌, ◌<◌, ◌≤◌, length, IfOk};
ghost use Rattle.pc_grammar.specs.Expressions as spec;
ghost use Rattle.pc_grammar.specs.Reads.{Reads};

use crate::cursor::{Cursor, Stop};
use crate::symbol::Symbol;
use crate::tree::ExprTree;
use pc_language::Terminal;
use sqlite_items::Boxed;
use std::alloc::{AllocError, Global};

/// A number, a name, or an expression in parentheses.
#[cycle(expr)]
fn atom(alloc: Global, cursor: &mut Cursor<'_>, depth: usize) -> Result<ExprTree, Stop>
    requires { length cursor.old.rest.now < depth }
    ensures reads { Reads (spec.atom (spec.paren depth) cursor.old.rest.now) result cursor.new.rest.now }
    ensures shrinks { length cursor.new.rest.now ≤ length cursor.old.rest.now }
{
    if cursor.sees(Terminal::Number) {
        let number = cursor.take(Terminal::Number)?;
        Ok(ExprTree::Num(number.number))
    } else if cursor.sees(Terminal::Name) {
        let name = cursor.take(Terminal::Name)?;
        Ok(ExprTree::Name(name))
    } else {
        paren(alloc, cursor, depth)
    }
}

/// An atom, or the negation of one.
#[cycle(expr)]
fn factor(alloc: Global, cursor: &mut Cursor<'_>, depth: usize) -> Result<ExprTree, Stop>
    requires { length cursor.old.rest.now < depth }
    ensures reads { Reads (spec.factor (spec.paren depth) cursor.old.rest.now) result cursor.new.rest.now }
    ensures shrinks { length cursor.new.rest.now ≤ length cursor.old.rest.now }
{
    if cursor.sees(Terminal::Minus) {
        let minus = cursor.take(Terminal::Minus)?;
        let x = atom(alloc, cursor, depth)?;
        Ok(ExprTree::Neg(Boxed::new(alloc, x)?, minus.place))
    } else {
        atom(alloc, cursor, depth)
    }
}

/// A product of factors, to the left.
#[cycle(expr)]
pub fn addend(alloc: Global, cursor: &mut Cursor<'_>, depth: usize) -> Result<ExprTree, Stop>
    requires { length cursor.old.rest.now < depth }
    ensures reads { Reads (spec.addend (spec.paren depth) cursor.old.rest.now) result cursor.new.rest.now }
    ensures shrinks { length cursor.new.rest.now ≤ length cursor.old.rest.now }
{
    let mut product = factor(alloc, cursor, depth)?;
    'factors: while cursor.sees(Terminal::Star) {
        let star = cursor.take(Terminal::Star)?;
        let x = factor(alloc, cursor, depth)?;
        product = ExprTree::Mul(
            Boxed::new(alloc, product)?,
            Boxed::new(alloc, x)?,
            star.place,
        );
    }
    Ok(product)
}

/// An expression in parentheses.
#[cycle(expr)]
fn paren(alloc: Global, cursor: &mut Cursor<'_>, depth: usize) -> Result<ExprTree, Stop>
    requires { length cursor.old.rest.now < depth }
    ensures reads { Reads (spec.paren depth cursor.old.rest.now) result cursor.new.rest.now }
    ensures shrinks { length cursor.new.rest.now ≤ length cursor.old.rest.now }
{
    cursor.take(Terminal::OpenParen)?;
    let x = expr(alloc, cursor, depth - 1)?;
    cursor.take(Terminal::CloseParen)?;
    Ok(x)
}

/// A sum of addends, to the left.
#[cycle(expr)]
pub fn expr(alloc: Global, cursor: &mut Cursor<'_>, depth: usize) -> Result<ExprTree, Stop>
    requires { length cursor.old.rest.now < depth }
    ensures reads { Reads (spec.expr depth cursor.old.rest.now) result cursor.new.rest.now }
    ensures shrinks { length cursor.new.rest.now ≤ length cursor.old.rest.now }
{
    let mut sum = addend(alloc, cursor, depth)?;
    'addends: while cursor.sees_sign() {
        let sign = cursor.take_sign()?;
        let x = addend(alloc, cursor, depth)?;
        sum = binary(alloc, sum, sign, x)?;
    }
    Ok(sum)
}

/// The sum of the two, or at a `-` their difference.
pub fn binary(alloc: Global, x: ExprTree, sign: Symbol, y: ExprTree) -> Result<ExprTree, AllocError>
    ensures { IfOk result (λ e. e ≡ spec.sum x (sign, y)) }
{
    if sign.terminal == Terminal::Minus {
        Ok(ExprTree::Sub(Boxed::new(alloc, x)?, Boxed::new(alloc, y)?, sign.place))
    } else {
        Ok(ExprTree::Add(Boxed::new(alloc, x)?, Boxed::new(alloc, y)?, sign.place))
    }
}
