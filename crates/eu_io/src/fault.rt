//! The answer of a read or a write that failed.

/// The call failed, and moved no byte. The object has counted it.
#[derive(Clone, Copy, Debug, PartialEq, Eq)]
pub struct Failed;
