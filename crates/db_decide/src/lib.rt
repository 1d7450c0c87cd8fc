//! Takes up a decision in a store at rest after those before it: `take_up(alloc, &mut store, model, &decision)?`.
//! In comes a decision that may follow; out go the store with all that it asks for at once, and the variables that are due.
//! Called by db_history.
//! Neither judges a decision nor brings a store to rest. How each kind of decision is taken up may change.
#![tactic(auto)]

mod about;
mod activate;
mod begun;
mod constrain;
mod merge;
mod order;
mod reject;
mod relate;
mod specify;
mod taking;

pub use taking::take_up;
