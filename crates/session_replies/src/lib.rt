//! Replies as lines: `end_text(alloc, &db, end)?` is the line of how a search ended, and after a plan was found its text.
//! A model with a domain, a view, decisions, edges or a flaw comes in; bytes go out, each line with its line feed.
//! session_core and run_commands call it; what is printed of a decision is read back as its command (`laws`).
//! It knows nothing of sessions, and changes no database. How lines are put together may change; `specs/Lines` may not.
#![tactic(auto)]

mod counting;
pub mod decisions;
pub mod domains;
pub mod edges;
pub mod existence;
pub mod flaws;
pub mod laws;
pub mod line;
mod places;
pub mod replies;
pub mod texts;
pub mod tokens;

pub use line::one_line;
pub use texts::end_text;
