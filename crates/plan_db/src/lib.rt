//! The plan database: after every call, what the decisions still standing leave possible: `db.apply(&decision)?`.
//! In comes a lawful model, then decisions, or what to take out or back; out go outcomes, domains, a view, stamps and edges.
//! Called by solver_core and conflict_core, and by crates of the program. `discard` is proved here once for all of them.
//! Where memory is wanting in `reset` or `undo` it may be behind: then steps and questions answer `Behind` until `rebuild`.
//! Knows nothing of texts, flaws and conflicts. How the state is kept, and what a step computes anew, may change.
#![tactic(auto)]

mod changing;
pub mod database;
pub mod edges;
pub mod fault;
pub mod release;
pub mod rewinding;
mod stamps;
mod telling;

pub use database::Db;
pub use db_edges::{NamedEdge, Point};
pub use db_history::Subject;
pub use db_refusals::StoreView;
pub use edges::EdgeFault;
pub use fault::{DbFault, Outcome, QueryFault};
pub use release::discard;
pub use rewinding::{rewind, take_back};
