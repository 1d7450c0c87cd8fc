//! What is kept of the standing list, and the steps from list to list: `accept(model, &mut log, &mut kept, &decision)?`.
//! In come a model, its log and the `Standing` of the list; out go the next list, its state, and whether it leaves one.
//! Called by plan_db for each step, and by conflict_core to try lists.
//! Knows nothing of how domains are told, of edges and of searches. How far back a step goes may change.
#![tactic(auto)]

mod advance;
pub mod footing;
mod forward;
mod objection;
mod parting;
mod settle;
pub mod standing;
pub mod subject;

pub use footing::Footing;
pub use forward::{accept, fits, let_go, rebuild, withdraw};
pub use objection::{Objection, judge};
pub use parting::bring_back;
pub use settle::take_out;
pub use standing::Standing;
pub use subject::{Subject, place_of};
