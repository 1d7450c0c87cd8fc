//! Laws of the trees of rules, where nothing is wrong with the types and rules of files: `trees_are_meant()`.
//! A law takes and gives nothing; its clause is what is proved. In its premises stand the files, their table and their trees.
//! nddl_name_laws rests on `trees_are_meant`.
//! Knows nothing of how objects are made, only of what they are then. All proofs may change, but not what `specs` claim.
#![tactic(auto)]

pub mod ground_laws;
pub mod meaning_laws;

pub use meaning_laws::trees_are_meant;
