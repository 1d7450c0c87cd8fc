//! How a search ends.

/// How a search ended, with the visits that it made.
#[derive(Clone, Copy, Debug, PartialEq, Eq)]
pub enum SearchEnd {
    /// With a list whose least state has no flaw.
    Found(u32),
    /// With all lists visited, and whether an activation was left out as so many tokens were active already.
    Exhausted(u32, bool),
    /// Before a further visit.
    Budget(u32),
}
