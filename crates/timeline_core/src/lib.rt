//! Tokens on one timeline: `forced(a, b)` is which orders of two tokens with these ends are left, one, both or neither.
//! Ends of two tokens come in, or a view of a state (`first_unordered`); an order goes out, or the places of the first two
//! active tokens without one.
//! The database, flaws and the plan of a state call it.
//! It knows nothing of how states are stored. How pairs are gone through may change.
#![tactic(auto)]

pub mod order;
pub mod unordered;

pub use order::{Ends, ForcedOrder, forced};
pub use unordered::{first_unordered, is_active, is_timeline, object_of, takes_place};
