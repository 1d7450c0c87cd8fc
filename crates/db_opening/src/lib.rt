//! Brings tokens and blocks to a store, with their variables: `bring_token(alloc, &mut store, model, &token)?`.
//! In comes a store on its way to the least state; out goes the store, still on it (`StaysUnderway`), or a fault.
//! Called by db_decide and db_fixpoint; `begin`, which makes the store before any decision, by db_history.
//! Unfolds no block, and takes up no decision. In which order parts and locals are added may change.
#![tactic(auto)]

mod blocks;
mod filling;
mod globals;
mod items;
mod parts;
mod problem;
mod tokens;
mod variables;

pub use blocks::open;
pub use filling::begin;
pub use items::post_what_counts;
pub use parts::parts_of;
pub use tokens::{bring_token, is_fact};
pub use variables::bring_variable;
