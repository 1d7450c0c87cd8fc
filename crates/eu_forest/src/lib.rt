//! Things by number, each of which may stand under another: `Lineage::of(alloc, parents)?` has the circles, and an order
//! from the top.
//! What each thing stands under comes in; rootedness, answers on lines (`Parents::is_on_line`) and members (`gather`)
//! go out, or None where they aren't known.
//! The judging of models and the compiler call it, for classes and typedefs.
//! It knows nothing of what the things are. Shortcuts, shared marks and when `gather` has an answer may change.
#![tactic(auto)]

pub mod gathering;
pub mod lineage;
pub mod marks;
pub mod members;
mod shortcuts;
mod walk;

pub use gathering::gather;
pub use lineage::{Lineage, Rootedness};
pub use members::Members;
pub use shortcuts::{Parents, parent_in};
