//! What a search has to decide next, and what can be decided of it: `Plain.first_flaw(model, &view, 512)`.
//! In comes a view of a least state; out go its first `Flaw`, by places in the view, and its choices by their numbers.
//! Called by solver_core through the trait `FlawRule`, and by session_core; both commands that search use `Plain`.
//! Knows nothing of the database, and of how choices are taken. How the first flaw is found may change, but not which it is.
#![tactic(auto)]

mod choosing;
mod counting;
mod ending;
mod first;
pub mod flaw;
pub mod laws;
mod plain;
mod rule;
mod times;
mod values;
mod variables;

pub use ending::SearchEnd;
pub use flaw::{Flaw, VarPlace};
pub use plain::Plain;
pub use rule::FlawRule;
pub use variables::variable_name;
