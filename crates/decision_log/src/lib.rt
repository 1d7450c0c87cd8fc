//! The decisions that stand, and the steps by which they came to stand: `log.push(decision)?`.
//! In comes a decision, or a flag for each that stands; out goes the list that stands, and behind `undo` the one before.
//! Called by db_history; plan_db and conflict_core keep a `Log`.
//! Knows nothing of whether a decision may be taken, and of what it leaves. How former lists are rebuilt may change.
#![tactic(auto)]

pub mod log;
mod steps;

pub use log::{Log, LogStep};

/// Why there was nothing to give.
#[derive(Clone, Copy, Debug, PartialEq, Eq)]
pub enum LogFault {
    /// No step was made that could be undone.
    Nothing,
    Memory,
}
