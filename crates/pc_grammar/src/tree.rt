//! Parse trees: programs as they are written, in which names are still the symbols that spell them.

use crate::symbol::Symbol;
use pc_language::{Choice, Op};
use pc_text::Place;
use sqlite_items::{Boxed, Items};

/// An expression. Sums and products are associated to the left, and parentheses leave no trace but
/// the shape of the tree. The place is that of the operator.
#[derive(Drop)]
pub enum ExprTree {
    /// A number, which is never below 0.
    Num(i128),
    /// A name, declared or not.
    Name(Symbol),
    /// A negation, with the place of its `-`.
    Neg(Boxed<ExprTree>, Place),
    Add(Boxed<ExprTree>, Boxed<ExprTree>, Place),
    Sub(Boxed<ExprTree>, Boxed<ExprTree>, Place),
    Mul(Boxed<ExprTree>, Boxed<ExprTree>, Place),
}

/// A comparison. The place is that of the operator.
#[derive(Drop)]
pub struct CompareTree {
    pub op: Op,
    pub left: ExprTree,
    pub right: ExprTree,
    pub place: Place,
}

/// The test of an `if` or a `while`.
#[derive(Drop)]
pub enum TestTree {
    /// `*`, which may hold or not.
    Any,
    /// A conjunction of one to [`COMPARISONS`](pc_language::COMPARISONS) comparisons, in order.
    All(Items<CompareTree>),
}

/// The right side of an assignment: an expression, and perhaps a choice that is added to it. A
/// choice alone has the expression 0.
#[derive(Drop)]
pub struct RightTree {
    pub expr: ExprTree,
    pub choice: Option<Choice>,
}

/// A statement. Its place is that of its first token, which is the name of an assignment.
#[derive(Drop)]
pub enum StmtTree {
    Set {
        name: Symbol,
        right: RightTree,
    },
    /// A missing `else` is an empty second block.
    If {
        place: Place,
        test: TestTree,
        then_part: Items<StmtTree>,
        else_part: Items<StmtTree>,
    },
    /// Where `try` is missing, no comparisons are tried.
    While {
        place: Place,
        test: TestTree,
        tried: Items<CompareTree>,
        body: Items<StmtTree>,
    },
    Assert {
        place: Place,
        all: Items<CompareTree>,
    },
    Assume {
        place: Place,
        all: Items<CompareTree>,
    },
}

/// A program. The place is that of `entry`; parameters and locals are in order of declaration, those
/// of all `var` lines in one list.
#[derive(Drop)]
pub struct ProgramTree {
    pub place: Place,
    pub params: Items<Symbol>,
    pub locals: Items<Symbol>,
    pub body: Items<StmtTree>,
}

/// Several processes over shared variables. The place is that of `entry`; parameters and locals are
/// as in a program, and the bodies are the blocks of the processes in order, two to
/// [`PROCESSES`](crate::PROCESSES) of them.
#[derive(Drop)]
pub struct ParallelTree {
    pub place: Place,
    pub params: Items<Symbol>,
    pub locals: Items<Symbol>,
    pub bodies: Items<Items<StmtTree>>,
}
