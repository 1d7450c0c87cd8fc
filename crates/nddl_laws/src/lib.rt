//! Laws of files that were read, and of the compiler's tables and trees of rules: `names_are_read_in_order()`.
//! A law takes and gives nothing; its clause is what is proved. `AreGiven` says that some shelf gives the files.
//! nddl_problem rests on one law, and takes its condition on files from here; the others are there to be read.
//! Knows nothing of objects and the problem. All proofs may change, but not what `specs` claim.
#![tactic(auto)]

pub mod file_laws;
pub mod lawful;
pub mod lawful_tables;
pub mod rule_laws;
pub mod scope_laws;
pub mod type_laws;

pub use rule_laws::{names_are_read_in_order, rules_have_one_answer};
