//! From the name of a file to a database in which the decisions of its text are taken: `pose(alloc, &mut shelf, &name)?`.
//! A shelf and a name come in; a `Db` goes out, or a `PoseFault`: what is wrong first, a failed read, or want of memory.
//! run_commands calls it for `check`, `plan` and `try`, and europa_run for `script`.
//! It knows nothing of commands, output and statuses. How the compiler and the database are called may change.
#![tactic(auto)]

pub mod fault;
pub mod laws;
pub mod posing;
pub mod taking;

pub use fault::PoseFault;
pub use posing::pose;
