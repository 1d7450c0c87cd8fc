//! How a content grows towards the least state of its decisions, and how far it has come: `growing_stays_above()`.
//! Models, decisions, contents and claims are what is spoken of. There is nothing to run: a proof calls a law.
//! Cited by the crates of the database from db_posting to db_history.
//! Knows nothing of stores, and of how tokens and blocks are kept. Proofs may change, statements may not.
#![tactic(auto)]

pub mod growth;
pub mod progress;
