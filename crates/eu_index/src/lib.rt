//! Indexes of names: a `NameIndex` finds the first of a name, an `Innermost` the last, and that forgets names from the end.
//! In come texts with numbers; out go the numbers.
//! Called by the compiler, by the readers of plan texts and of scripts.
//! Knows nothing of what is named. How a name is found may change: to contracts an index is a list.
#![tactic(auto)]

pub mod index;
pub mod innermost;

pub use index::NameIndex;
pub use innermost::Innermost;
