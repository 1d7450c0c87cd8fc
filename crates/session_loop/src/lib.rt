//! A session: lines are cut from a source and answered, and replies are written: `session(alloc, responder, input, out)`.
//! A `Responder`, a `Source` and a `Sink` come in; a `SessionEnd` or a `SessionFault` goes out, and the responder is as its
//! last answer left it. After a failed call nothing more is read or written.
//! europa_run calls it, with the `Editor` of session_core as the responder; run_commands prints by `write_lines`.
//! It knows nothing of scripts and planning. How much is read at once, and how a line is kept, may change.
#![tactic(auto)]

mod answering;
mod cutting;
pub mod existence;
pub mod fault;
mod inflow;
pub mod laws;
mod line;
pub mod reply;
pub mod talk;
pub mod whole;

pub use fault::SessionFault;
pub use reply::{Answer, Responder};
pub use talk::{SessionEnd, session};
pub use whole::{write_lines, write_whole};
