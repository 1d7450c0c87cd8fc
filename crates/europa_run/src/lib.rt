//! The whole program: `europa(alloc, &words, &mut shelf, &mut input, &mut out)` carries out what the words ask for.
//! Words, a shelf, a source and a sink come in; output is written to the sink, and the `Status` of the process goes out.
//! europa_cli calls it over the system's words, files and streams, and tests_program over objects in memory.
//! It knows nothing of the system, and nothing of how the database is proved. Which crate does which command may change.
#![tactic(auto)]

mod answering;
pub mod laws;
pub mod run;
pub mod stopping;
mod talking;

pub use run::europa;
pub use run_commands::Status;
