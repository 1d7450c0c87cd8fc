//! Laws of faultless files: each field of each object is set to something, and what follows from that for their model. A law
//! takes and gives nothing; its clause is what is proved.
//! Knows nothing of how objects are made in code. All proofs may change, but not what `specs` claim.
#![tactic(auto)]

pub mod whole_laws;

pub use whole_laws::objects_are_set;
