//! The faults of the text that makes objects, before any is made: `note_written(alloc, basis, &mut first)?`.
//! In comes a `Basis`; out go the earliest fault of constructors and of each `new`, and the arguments that a class wants.
//! Called by nddl_objects; wanted arguments and formals by nddl_construction, single values by nddl_problem_check.
//! Knows nothing of objects, values of fields and the model. How wanted arguments and formals are found may change.
#![tactic(auto)]

pub mod bodies;
pub mod constants;
pub mod creations;
pub mod formals;
pub mod objects;
pub mod wanted;
pub mod wants;

pub use formals::Formals;
pub use objects::note_written;
pub use wanted::{Wanted, class_wants};
