//! What typedefs mean, and the first fault of a program's names and types: `first_wrong(alloc, &basis)?`.
//! In comes a `Basis`; out go meanings of typedefs (`known_meanings`), faults of types, and variables of the model.
//! Called by nddl_types; for single types, values and domains also by later stages up to nddl_instance.
//! Knows nothing of paths, rules and objects. The order of the walk may change: the earliest fault is kept.
#![tactic(auto)]

pub mod classes;
pub mod constructors;
pub mod decls;
pub mod domains;
pub mod faults;
pub mod known;
pub mod members;
pub mod types;
pub mod values;
pub mod variables;

pub use classes::{class_fault, note_class};
pub use faults::first_wrong;
pub use known::known_meanings;
pub use types::{fine_meaning, note_all_type_faults};
pub use variables::{number_variable, push_variable};
