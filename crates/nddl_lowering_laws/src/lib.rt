//! Laws of the rules that texts are lowered to: what of them is lawful follows from what was checked of the texts.
//! A law takes and gives nothing; its clause is what is proved. nddl_whole_laws joins them with what is so of compiled models.
//! Knows nothing of objects, roots and the problem. All proofs may change, but not what `specs` claim.
#![tactic(auto)]

pub mod faultless_laws;
pub mod laws;
pub mod seen_laws;
