//! What a type means as it is written, and what is wrong with it: `type_meaning(alloc, types, written)?`.
//! In come `Types`, a scope with the meanings of its typedefs, and a type; out goes a `TypeMeaning`, or faults are noted.
//! Called by nddl_declarations, and for kinds and single meanings by stages up to nddl_problem_check.
//! Knows nothing of ancestors, objects, and how typedefs get their meanings. How the members of a set are kept may change.
#![tactic(auto)]

pub mod base;
pub mod kind;
pub mod members;
pub mod missing;
pub mod ranges;
pub mod sets;
pub mod types;
pub mod values;

pub use kind::{Extent, TypeKind, TypeMeaning};
pub use types::{Types, note_type_faults, type_meaning};
