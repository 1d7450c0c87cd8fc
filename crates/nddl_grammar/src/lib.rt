//! Reads what the body of a rule is made of from a list of symbols: `block(&mut cursor, 16)?`.
//! In come a `Cursor` over `Symbol`s and how deep blocks may nest; out go parts of the tree of nddl_ast, or a `Stop`.
//! Called by nddl_parser, which adds its own `Item`s; nddl_print writes marks and reserved words by `Sort`.
//! Knows nothing of lexemes, declarations, files and what a name means. How a cursor keeps its place may change.
#![tactic(auto)]

pub mod blocks;
pub mod cursor;
pub mod expressions;
pub mod joining;
pub mod list;
pub mod sort;
pub mod statements;
pub mod symbol;
pub mod types;
