//! What a path means where it stands, or what is wrong with it: `path_denoted(alloc, basis, &around, path)?`.
//! In come a `Basis`, the names around (`Around`) and a path; out goes a `Denoted` or a `PathFault`.
//! Called by nddl_rule_check, nddl_constructors, nddl_construction, nddl_problem_check and nddl_env.
//! Knows nothing of constraints, terms, and which objects are made. How fields, predicates and seen names are found may
//! change.
#![tactic(auto)]

pub mod denoted;
pub mod fields;
pub mod files;
pub mod following;
pub mod kinds;
pub mod paths;
pub mod predicates;
pub mod seen;

pub use denoted::{Around, Denoted, PathFault, Predicate, Seen, TokenSort};
pub use kinds::kind_fault;
pub use paths::{asked_token, expr_denoted, path_denoted};
pub use seen::SeenNames;
