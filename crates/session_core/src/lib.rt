//! What a session answers to each line of a script: `editor.answer(b"specify x 4")?`, over a database of plan_db.
//! A `Db` comes in, and `into_db` gives it back; a line comes in, and its reply goes out with whether the session goes on.
//! Called by europa_run, which runs `session` over an `Editor`. `laws` has that each line has one reply.
//! A command is sorted once by what it asks for (`Asked`), and each refusal has one name (`RefusalReason`).
//! Knows nothing of files, input and output. Which calls of the database answer what is asked may change.
#![tactic(auto)]

pub mod asked;
mod counting;
pub mod deciding;
pub mod editor;
pub mod existence;
mod explaining;
pub mod laws;
pub mod reason;
pub mod replies;
pub mod resetting;
pub mod searching;
mod telling;
pub mod undoing;

pub use asked::{Asked, Query, SubjectText, sort_command};
pub use deciding::decide_reply;
pub use editor::Editor;
pub use reason::RefusalReason;
pub use resetting::reset_reply;
pub use searching::search_reply;
pub use session_loop::session;
pub use undoing::undo;
