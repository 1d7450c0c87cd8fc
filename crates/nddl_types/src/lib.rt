//! The table of the enums, classes and predicates of files, or what is wrong first: `types(alloc, files)`.
//! In come files in the order of reading; out goes a `TypeTable` or a `TextFault`. What is known of files is found once, as
//! a `Groundwork`, and `table_of(alloc, &groundwork)` answers over it.
//! Called by nddl_rules and nddl_problem, which read the `Basis` of a `Groundwork`, and by nddl_env for classes and fields.
//! Knows nothing of rules and objects. How the facts are found and kept (`Findings`) may change.
#![tactic(auto)]

pub mod builtin;
pub mod classes;
pub mod enums;
pub mod files;
pub mod findings;
pub mod groundwork;
pub mod numbers;
pub mod predicates;
pub mod program;
pub mod scoped;
pub mod sources;
pub mod table;
pub mod tabling;

pub use classes::classes_of;
pub use enums::enums_of;
pub use files::{Program, told};
pub use groundwork::Groundwork;
pub use numbers::{class_entries, class_numbers};
pub use predicates::preds_of;
pub use program::{table_of, types};
pub use sources::Sources;
pub use table::{Named, NamedKind, TypeTable};
