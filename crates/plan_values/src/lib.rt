//! What a plan says of each name, and what that opens: `lines::values_of(plan, TokenKey::of(&token))`.
//! In come a model, a plan with its lines in order, and a name, a term or an item; out go lines, values and truth values.
//! Called by plan_inventory and plan_check for what a plan says; by plan_states, database and search for what a model has.
//! Knows nothing of decisions, states and texts, and takes no memory. How lines are found may change: now by bisection.
#![tactic(auto)]

mod bases;
pub mod claims;
mod declared;
pub mod items;
pub mod key;
pub mod lines;
pub mod open;
mod predicates;
pub mod rules;
pub mod terms;
pub mod tokens;

pub use bases::{base_has, is_part_declared};
pub use declared::{is_declared, is_local_declared};
pub use key::{Ask, Key, TokenKey};
pub use predicates::have_same_predicate;
