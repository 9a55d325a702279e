//! Programs: their trees, what they mean, the normal forms of their expressions and the rows of their
//! comparisons.
#![tactic(auto)]

mod laws;
mod loops;
mod normal;
mod program;
mod rows;
mod tree;

pub use laws::{forms_are_right, rows_are_right};
pub use loops::first_loop;
pub use normal::{AffineFault, affine, difference, multiple, product, sum};
pub use program::Program;
pub use rows::{form_of, rows_of};
pub use tree::{Compare, Compares, Expr, Right, Stmt, Stmts, Test};
