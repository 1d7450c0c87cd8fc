//! The parts of the model that need objects, as the problem: `problem_of(alloc, &posing)?`.
//! In come table, trees, lexicon and objects; out go classes, predicates, and roots, globals, items and decisions.
//! Called by nddl_problem.
//! Knows nothing of faults, limits and the model's rules. How each part is gathered may change.
#![tactic(auto)]

pub mod assertions;
pub mod classes;
pub mod constraints;
pub mod decisions;
pub mod globals;
pub mod numbers;
pub mod outside;
pub mod posing;
pub mod preds;
pub mod renumbered;
pub mod roots;
pub mod settings;
pub mod singles;
pub mod variables;

pub use assertions::{Assertions, ProblemText, assertions_of};
pub use classes::modelled_classes;
pub use globals::declared_globals;
pub use outside::Outside;
pub use posing::{Posing, problem_of};
pub use preds::modelled_preds;
pub use roots::posted_roots;
