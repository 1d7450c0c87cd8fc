//! What a list of decisions asks of points in time, as edges between them: `time_edges(alloc, model, &store, decisions)?`.
//! In come a settled list and a store at rest for all but its last; out go the `NamedEdge`s between its `Point`s, in order.
//! Called by plan_db; conflict_core and session_replies read edges.
//! Says what a cycle of edges is (`IsTimeCycle`), but looks for none. How open blocks are gone through may change.
#![tactic(auto)]

mod comparing;
pub mod edge;
mod gathering;
mod lasting;
mod points;
mod posting;
mod walking;
mod whole;

pub use comparing::{Listed, Site, constrained, related};
pub use edge::{NamedEdge, Point};
pub use gathering::{orders_hold, problem_constrains, times_are_given, tokens_last};
pub use posting::postings_hold;
pub use whole::time_edges;
