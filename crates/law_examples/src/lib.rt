//! Examples: what the definitions say of small problems, as `globals::variables_stay_in_their_bases()` of one variable.
//! Nothing runs: for each condition a state is closed and a like one isn't; so for decisions, lists of them and histories, for
//! plans and each clause of a valid one, for flaws with their choices, and for searches.
//! Called by no crate: an example pins what plan_defs and law_search define, and shows a plan that is found only by a swap.
//! Knows nothing of any data structure of the database. Which small problems the examples are about may change.
#![tactic(auto)]

pub mod agreement;
pub mod decisions;
pub mod exchange;
pub mod flaws;
pub mod globals;
pub mod models;
pub mod plans;
pub mod refusals;
pub mod relations;
pub mod searching;
pub mod tokens;

pub use exchange::a_swap_covers_the_plan;
