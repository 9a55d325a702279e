//! Bytes, places, tokens, numbers and names.
#![tactic(auto)]

mod lex;
mod lexeme;
mod lines;
mod names;
mod number;
mod numerals;
mod place;
mod text;
mod token;
mod words;

pub use lex::tokens;
pub use lines::Lines;
pub use names::Names;
pub use number::read_number;
pub use numerals::{Word, count_of, is_count, is_numeral};
pub use place::{Place, place_from, place_of};
pub use text::{NoMemory, Text};
pub use token::{Kind, LARGEST, LexFault, NAME_BYTES, Token};
pub use words::Words;
