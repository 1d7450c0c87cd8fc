//! Rules of tokens: what stands directly in one of their blocks, `open_block(alloc, model, &token, 0, &[])?`.
//! In come a token, the number of a rule and the way to a block; out go `Additions`, or the block itself (`block_of`).
//! Of two domains goes out which side of a guard is open whatever is chosen of them (`entailed`), or None.
//! Called by db_opening, db_decide, db_fixpoint and db_resources.
//! Knows nothing of stores, networks, and which blocks are open. How a rule is gone through may change.
#![tactic(auto)]

pub mod block;
pub mod guard;
mod items;
mod names;

pub use block::{Additions, block_of, open_block};
pub use guard::entailed;
pub use items::ItemAt;
