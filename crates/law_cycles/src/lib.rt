//! Laws of time edges and their cycles: what can't be missing where decisions leave nothing possible.
//! Nothing runs: each function states a law, as `existence::edges_have_cycles()` of any time edges.
//! Cited by session_core, of what a session tells of a cycle.
//! Knows nothing of how edges are read from a store, of how a cycle is found, and of texts. Proofs may change.
#![tactic(auto)]

pub mod existence;
