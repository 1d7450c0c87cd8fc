//! The search for a list of decisions whose least state has no flaw: its definition in specs/, and its laws (`searches`).
//! Nothing runs: each function states a law, as `searches::exhausted_is_a_proof()` of a search that fails.
//! Least states have what stands under activated tokens (`grounds`); two tokens of a plan may change places (`swaps`).
//! Cited by flaw_core, solver_core, law_examples, and the crates of the program that tell of a search.
//! Knows nothing of any data structure of the database, and of how flaws are found. Proofs may change.
#![tactic(auto)]

pub mod existence;
pub mod grounds;
pub mod searches;
pub mod swaps;
