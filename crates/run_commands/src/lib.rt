//! The commands that print one answer, `show`, `check`, `plan`, `gen` and `try`: `check(alloc, &mut shelf, &file, &plan)?`.
//! A shelf with names of files comes in, or a number; a `Printed` goes out, which is a text with the `RunEnd` behind it.
//! `print` writes it line by line, and `status_of` says with which `Status` the process ends.
//! europa_run calls them; where the file of a script poses no database, `unposed` has what is printed.
//! It knows nothing of input and words. How a command finds its answer may change; texts and numbers of statuses may not.
#![tactic(auto)]

pub mod checking;
pub mod content;
mod finding;
pub mod generating;
pub mod lines;
pub mod planning;
pub mod posing;
pub mod printing;
pub mod searching;
pub mod showing;
pub mod status;
mod trying;

pub use checking::check;
pub use generating::generated;
pub use lines::{FILE_LIMIT, Printed, faulty, usage};
pub use planning::plan;
pub use posing::unposed;
pub use printing::print;
pub use searching::search;
pub use showing::show;
pub use status::{RunEnd, RunFault, Status, status_of};
pub use trying::trial;
