//! The grammar: from the tokens of a source to its parse tree, or to its one fault.
//!
//! [`symbols`] finds the terminal and the place of every token of a text, and [`parse`] reads them.
//! What symbols mean is defined without reference to any parser: by derivations of the grammar and
//! by counts for the limits. The code is a recursive descent that stops at the first symbol that
//! fits no program, and it is proved to answer exactly what is meant.
#![tactic(auto)]

mod compare;
mod cursor;
mod expr;
mod fault;
mod laws;
mod limits;
mod parallel;
mod parsing;
mod program;
mod right;
mod stmt;
mod symbol;
mod terminals;
mod tree;

pub use fault::ParseFault;
pub use laws::{grammar_is_unambiguous, symbols_have_one_answer};
pub use limits::PROCESSES;
pub use parsing::{parse, parse_parallel};
pub use symbol::Symbol;
pub use terminals::symbols;
pub use tree::{CompareTree, ExprTree, ParallelTree, ProgramTree, RightTree, StmtTree, TestTree};
