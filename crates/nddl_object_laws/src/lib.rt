//! Laws of objects: what is made by the texts alone, and what is wrong with it, as two definitions.
//! A law takes and gives nothing; its clause is what is proved. They are there to be read; nothing rests on them.
//! Knows nothing of the lexicon, the model and the problem. All proofs may change, but not what `specs` claim.
#![tactic(auto)]

pub mod laws;

pub use laws::{constructors_run_as_stated, the_earliest_fault_is_told};
