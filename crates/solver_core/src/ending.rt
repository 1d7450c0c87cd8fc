//! Why no search is made.

use thiserror::Error;

/// Why no search was made, in the order in which the reasons are looked for.
#[derive(Clone, Copy, Debug, PartialEq, Eq, Error)]
pub enum SolveFault {
    #[error("memory was wanting before, and the database has to be rebuilt")]
    Behind,
    #[error("the decisions leave nothing possible")]
    InInconsistent,
    #[error("out of memory")]
    Memory,
}
