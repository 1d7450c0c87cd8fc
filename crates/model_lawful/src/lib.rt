//! Whether a whole model is lawful: `is_lawful(alloc, &model)?`.
//! A model comes in; a truth value goes out, exactly `IsLawful`.
//! nddl_problem calls it on what it has compiled; all crates above require a lawful model.
//! It knows nothing of texts, and names no fault. The order of the parts and how each is judged may change.
#![tactic(auto)]

mod classes;
mod decisions;
mod enums;
mod equal;
mod naming;
mod objects;
mod parents;
mod preds;
mod problem;
mod whole;

pub use whole::is_lawful;
