//! Whether resources fit what a store at rest leaves: `resources_fit(alloc, &model, &store, &decisions)?`.
//! In come the store and its settled list; out goes whether this is the least state of the list or the list leaves none.
//! Called by db_history; after one more decision by `resources_fit_since`, which looks at what may have become other.
//! Changes no store, and takes up no decision. What is looked at anew since a mark may change.
#![tactic(auto)]

mod actor;
mod change;
mod complete;
mod fit;
mod lists;
mod store_fit;
mod touched;
mod usage;

pub use actor::{Actor, actors};
pub use fit::{
    has_reservoir, levels_decide, reservoir_fits, reservoirs_fit, reusable_fits, reusables_fit,
};
pub use store_fit::{resources_fit, resources_fit_since};
