//! Compiles the files of a program to its model: `compile(alloc, files)`.
//! In come files as a shelf gives them (`AreGiven`); out goes a lawful model, or the first fault with file and byte.
//! Called by run_load.
//! Knows nothing of databases and plans. What is kept between the stages (`Outline`) may change, but not their order of
//! faults.
#![tactic(auto)]

pub mod compiling;
pub mod judging;
pub mod laws;
pub mod making;
pub mod outline;
pub mod stock;

pub use compiling::compile;
