//! Tokens by name and by place, with states, subgoals and ranks in the order of names: `tokens.add(name, predicate)?`.
//! In come names with predicates, and states for places; out go places, names, states and ranks, as they are or at a mark.
//! Kept by db_store; the crates of the database above read it.
//! Knows nothing of models, rules, and why a token is there. How names are indexed and what the trail keeps may change.
#![tactic(auto)]

pub mod laws;
pub mod lists;
mod orders;
mod returning;
pub mod tokens;
mod trail;

pub use tokens::{Mark, Tokens};

/// Why a token wasn't added.
#[derive(Clone, Copy, Debug, PartialEq, Eq)]
pub enum AddFault {
    /// There is a token of this name.
    Twice,
    Memory,
}
