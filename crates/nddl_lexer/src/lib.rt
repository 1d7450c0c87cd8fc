//! Cuts the text of a file into words, numbers, strings and marks: `lex(alloc, b"int x;")`.
//! In come the bytes; out go `Lexeme`s in order, each with kind, place and length, or the first `LexFault`.
//! Called by nddl_parser, which reads values by `number_value` and `decimal_value`.
//! Knows nothing of reserved words, the grammar and files. How the longest piece at a place is found may change.
#![tactic(auto)]

mod fronts;
pub mod kinds;
pub mod lexing;
pub mod numbers;

pub use kinds::{LexFault, LexKind, Lexeme};
pub use lexing::lex;
pub use numbers::{decimal_value, number_value};
