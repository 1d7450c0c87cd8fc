//! Where a search stands.

use flaw_core::Flaw;

/// A flaw on the way to the list that stands, and how far its choices were gone through.
#[derive(Clone, Copy)]
pub struct Branch {
    pub flaw: Flaw,
    /// The number of the choice that is taken next.
    pub next: u32,
}

/// How far a search has come.
#[derive(Drop)]
pub struct Course {
    /// The flaws on the way, the latest last.
    pub branches: Vec<Branch>,
    /// The visits made so far.
    pub visits: u32,
    /// Whether an activation was left out for the bound.
    pub left_out: bool,
}
