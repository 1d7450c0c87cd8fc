//! The symbol table of a program: `Scope::of(alloc, declared_names(alloc, decls)?)?`; `join` makes one list of all files.
//! In come files; out go sites, names, what each name means, and the first of the faults that stages note (`note_at`).
//! Called by all stages of the compiler behind the parser.
//! Knows nothing of types and members. How a name is found may change: to contracts a `Scope` is a list.
#![tactic(auto)]

pub mod builtin;
pub mod declared;
pub mod fault;
pub mod joining;
pub mod laws;
pub mod place;
pub mod repeats;
pub mod scope;
pub mod site;
pub mod twice;

pub use declared::{Declared, Sort, declared_names};
pub use fault::{Fault, note, note_at};
pub use joining::join;
pub use place::Place;
pub use scope::{Meaning, Scope};
pub use site::Site;
pub use twice::kind_if;
