//! What a database keeps, with marks to go back to: tokens, variables, open blocks, watches, a network: `store.mark()`.
//! In come tokens, keys with domains, blocks and constraints; out go numbers, and by `propagate` narrower domains.
//! Called by db_posting, db_opening, db_decide and db_fixpoint; db_history goes back to marks. Those above read it.
//! Knows nothing of models, rules and decisions. How keys, blocks and watches are found may change.
#![tactic(auto)]

mod items;
pub mod key;
mod keys;
pub mod laws;
pub mod store;
pub mod watchers;

pub use key::{OpenBlock, VarKey};
pub use store::{Mark, Store};
