//! Points in time, and edges between them.

use eu_name::name::TokenName;

/// A point in time.
#[derive(PartialEq, Eq, Drop)]
pub enum Point {
    /// Instant 0.
    Origin,
    /// The start of a token that takes place by itself.
    Start(TokenName),
    /// Its end.
    End(TokenName),
}

/// The one point comes at least `gap` instants before the other: `from + gap <= to`.
#[derive(Drop)]
pub struct NamedEdge {
    pub from: Point,
    pub to: Point,
    pub gap: i32,
}
