//! Laws of compiled models: a model of files with which nothing is wrong is lawful. A law takes and gives nothing; its clause
//! is what is proved.
//! Knows nothing of how a model is made. All proofs may change, but not what `specs` claim.
#![tactic(auto)]

pub mod model_laws;
