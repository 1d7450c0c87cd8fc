//! The tree of a text, with the byte at which each part begins, and the kinds of faults: `one.is_same(&other)`.
//! In come trees that were built elsewhere; out go equality up to places, copies (`Copies`), and the parts of a path.
//! Trees are built by nddl_grammar and nddl_parser, and read by nddl_print and all later stages of the compiler.
//! Knows nothing of lexemes, the grammar, files and what a name means. How trees are compared and copied may change.
#![tactic(auto)]

pub mod copies;
pub mod decimal;
pub mod declaration;
pub mod expression;
mod expressions;
pub mod fault;
pub mod kind;
pub mod name;
pub mod path;
mod places;
pub mod same;
pub mod statement;
mod statements;

pub use copies::{Copies, copy_all};
pub use decimal::decimal_for;
pub use declaration::{Decl, FileDecls};
pub use fault::TextFault;
pub use kind::TextKind;
pub use path::{front, last};
pub use same::are_same;
