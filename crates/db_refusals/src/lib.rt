//! The first reason against a decision, and a store as a view: `first_reason(&model, &store, &decisions, &decision)`.
//! In come a store and its decisions, at rest for a reason; out goes a `Refusal` or none, and a `StoreView` of the state.
//! Called by db_history and plan_db; views are read by db_resources, db_edges, and whoever asks plan_db for one.
//! Changes no store, and knows nothing of how one comes to rest. How tests find what they look for may change.
#![tactic(auto)]

mod arguments;
mod checks;
mod judge;
mod laws;
mod tokens;
mod view;

pub use checks::{is_same_decision, is_same_token};
pub use judge::first_reason;
pub use laws::contents_are_seen_as_states;
pub use tokens::state_of;
pub use view::{StoreView, are_ordered, domain};
