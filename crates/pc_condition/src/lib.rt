//! Rows and conditions as texts for people, over the names of a program.
//!
//! For given names the text of a condition determines the condition.
#![tactic(auto)]

mod laws;
mod line;
mod list;
mod row;
mod rows;

pub use laws::{lines_determine_rows, text_determines_condition};
pub use line::{push_line, push_what};
pub use list::RowList;
pub use row::push_row;
pub use rows::push_rows;
