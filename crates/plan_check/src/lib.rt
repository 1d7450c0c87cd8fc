//! The checker of plans: whether a plan is valid, or which clause it breaks first and where, `check(alloc, &model, &plan)?`.
//! In come a lawful model and a plan of it; out goes a `Verdict`: `Valid`, or a clause with the place of the least names.
//! Called by plan_report, which prints the verdict.
//! Knows nothing of decisions, states and the search: it reads values alone. How pairs are gone through may change.
#![tactic(auto)]

mod by_object;
mod clauses;
mod items;
mod levels;
mod resources;
mod timelines;
pub mod verdict;

pub use verdict::{Verdict, check};
