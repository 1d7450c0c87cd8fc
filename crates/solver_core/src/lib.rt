//! Searches for a plan by decisions taken in a database and taken back: `solve(alloc, &mut db, &Plain, 1000, 512)?`.
//! In come a `Db`, a `FlawRule`, and the most visits and active tokens; out goes a `SearchEnd` with the visits made.
//! Called by run_commands and session_core. After `Found` the decisions found stand; else those that stood, as before.
//! Knows nothing of texts, and of which flaw comes first. How the way to the present list is kept may change.
#![tactic(auto)]

mod advancing;
mod course;
mod ending;
mod solving;
mod taking;
mod visiting;

pub use ending::SolveFault;
pub use flaw_core::SearchEnd;
pub use solving::solve;
