//! What steps on a database answer, in plain values.

use plan_db::DbFault;
use std::alloc::AllocError;

/// Whether these are the words.
pub fn is_text(found: Result<String, AllocError>, wanted: &str) -> bool {
    match found {
        Ok(found) => found.as_str() == wanted,
        Err(_none) => false,
    }
}

/// What a call that changes decisions answers.
#[derive(Clone, Copy, Debug, PartialEq, Eq)]
pub enum Said {
    Fits,
    /// The decisions that then stand leave nothing possible.
    Fails,
    /// A decision was taken back with no memory, or all was built anew.
    Done,
    Refused(DbFault),
}

/// Whether a decision was taken, whatever it leaves.
pub fn is_taken(said: Option<Said>) -> bool {
    match said {
        Some(Said::Fits) => true,
        Some(Said::Fails) => true,
        _ => false,
    }
}

/// What has become of a token; one that is merged is the token at this place in the order of names.
#[derive(Clone, Copy, Debug, PartialEq, Eq)]
pub enum Fate {
    Absent,
    Inactive,
    Active,
    Fact,
    Merged(u32),
    Rejected,
}
