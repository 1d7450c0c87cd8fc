//! Where a declaration stands.

/// The number of a file among those that were read, and the number of a declaration in it.
#[derive(Clone, Copy, Debug, PartialEq, Eq)]
pub struct Site {
    pub file: usize,
    pub decl: usize,
}
