//! Laws: it can't be that there is no output of words, files and input (`existence`).
//! Nothing runs: `existence::words_have_an_output()` states a law. Nothing calls it.
//! Knows nothing of how an output is found. Proofs may change.
#![tactic(auto)]

pub mod existence;
