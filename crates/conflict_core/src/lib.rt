//! Why decisions leave nothing possible, by a conflict of them or by a cycle of time edges: `why(alloc, &db)?`.
//! In comes a `Db` whose decisions leave nothing; out goes their conflict, or by `time_cycle` the cycle of their edges.
//! Called by session_core. No call changes the database.
//! Knows nothing of texts and of the search. How lists are tried and cycles turned may change.
#![tactic(auto)]

mod conflict;
mod cycle;
mod edge_cycle;
mod explaining;
pub mod fault;
mod points;
mod turns;

pub use cycle::time_cycle;
pub use edge_cycle::cycle_of;
pub use explaining::why;
pub use fault::WhyFault;
