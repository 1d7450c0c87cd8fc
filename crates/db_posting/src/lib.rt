//! Posts what items, tokens and decisions ask of a store's network: `post_item(alloc, &mut store, origin, item)?`.
//! In come a store, an item and where it stands (`Origin`); out goes the store with further constraints, or want of memory.
//! Called by db_opening, db_decide and db_fixpoint; single calls serve db_refusals, db_resources and db_edges.
//! Defines where a store stands on its way to the least state (`IsUnderway`) and when it is at rest (`IsAtRest`).
//! Adds no token, variable or block, and propagates nothing. How terms become arguments may change.
#![tactic(auto)]

mod arguments;
mod counting;
pub mod laws;
mod named;
pub mod origin;
mod posting;
pub mod relations;
mod tables;

pub use arguments::{argument_of, place_of};
pub use counting::{counts, is_rejectable, term_counts};
pub use origin::{Origin, PartAt};
pub use posting::{
    is_known_at_most, post_arguments, post_at_most, post_constraint, post_equal, post_item,
    post_lasts, post_relation_between,
};
pub use tables::add_tables;
