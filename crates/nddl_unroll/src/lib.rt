//! Unrolls the trees of rules over the objects to rules of the model: `unroll(alloc, &lexicon, &objects, &trees)?`.
//! In come lexicon, objects and trees; out goes a rule for each tree, or by `note_tree_limits` the first limit passed.
//! Called by nddl_problem. Laws say that a rule has no more than is counted from its text, and when it has exactly that.
//! Knows nothing of which predicate has which rule, and of the problem. How amounts are counted and kept may change.
#![tactic(auto)]

pub mod amounts;
pub mod blocks;
pub mod counting;
pub mod laws;
pub mod limits;
pub mod places;
pub mod reads;
pub mod rules;
pub mod weighing;

pub use amounts::Amounts;
pub use counting::tree_amounts;
pub use limits::{Weighed, note_limits};
pub use rules::unroll;
pub use weighing::{note_tree_limits, weigh};
