//! Syntax trees, in which names are the numbers of their variables.

use pc_language::{Choice, Op};
use pc_text::Place;
use sqlite_items::{Boxed, Items};

/// An expression. A name is the number of its variable: parameters from 0 on, then locals. The place is that of the operator.
#[derive(Drop)]
pub enum Expr {
    Num(i128),
    Name(u32),
    Neg(Boxed<Expr>, Place),
    Add(Boxed<Expr>, Boxed<Expr>, Place),
    Sub(Boxed<Expr>, Boxed<Expr>, Place),
    Mul(Boxed<Expr>, Boxed<Expr>, Place),
}

/// A comparison. The place is that of the operator.
#[derive(Drop)]
pub struct Compare {
    pub op: Op,
    pub left: Expr,
    pub right: Expr,
    pub place: Place,
}

/// Comparisons that are to hold together.
pub type Compares = Items<Compare>;

/// The test of an `if` or a `while`: `*`, or a conjunction of one to eight comparisons.
#[derive(Drop)]
pub enum Test {
    Any,
    All(Compares),
}

/// The right side of an assignment. A choice alone has the expression 0.
#[derive(Drop)]
pub struct Right {
    pub expr: Expr,
    pub choice: Option<Choice>,
}

/// Statements, in order.
pub type Stmts = Items<Stmt>;

/// A statement. Its place is that of its first token.
#[derive(Drop)]
pub enum Stmt {
    Set {
        place: Place,
        var: u32,
        right: Right,
    },
    If {
        place: Place,
        test: Test,
        then_part: Items<Stmt>,
        else_part: Items<Stmt>,
    },
    While {
        place: Place,
        test: Test,
        tried: Compares,
        body: Items<Stmt>,
    },
    Assert {
        place: Place,
        all: Compares,
    },
    Assume {
        place: Place,
        all: Compares,
    },
}
