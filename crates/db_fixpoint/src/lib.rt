//! Brings a store to rest by rules and constraints: `bring_to_rest(alloc, &mut store, &mut seating, model, ..)?`.
//! In come a store, how many blocks are unfolded, and the variables due; out goes a store at rest, or a fault.
//! Called by db_history, which keeps the `Seating`.
//! Takes up no decision, and knows nothing of resources. The order of work may change: rest is promised, not the way there.
#![tactic(auto)]

mod branches;
mod fixpoint;
mod guards;
mod items;
pub mod laws;
mod looking;
mod reading;
pub mod seating;
mod slots;
mod turns;
mod unfolding;
mod watching;

pub use branches::look_at_branches;
pub use fixpoint::bring_to_rest;
pub use seating::Seating;
pub use unfolding::unfold;
