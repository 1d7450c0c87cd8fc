//! Laws: the state of a plan (`plans`), the plan of a state without a flaw (`flawless`), least states (`least`), conflicts.
//! Nothing runs: each function states a law, as `conflicts::conflicts_are_minimal()` of the conflict of a settled list.
//! Called by conflict_core, session_core and europa_run; the proofs of law_search, flaw_core and run_commands cite lemmas.
//! Knows nothing of any data structure of the database, and of the search. Proofs may change.
#![tactic(auto)]

pub mod conflicts;
pub mod existence;
pub mod flawless;
pub mod least;
pub mod plans;

pub use flawless::{
    a_state_has_one_plan, flawless_plans_agree, flawless_plans_are_valid,
    flawless_states_are_complete, flawless_states_are_own,
};
