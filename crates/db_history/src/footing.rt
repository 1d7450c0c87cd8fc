//! How a list stands.

/// How a list of decisions stands.
#[derive(Clone, Copy, Debug, PartialEq, Eq)]
pub enum Footing {
    /// It leaves a least state.
    Rest,
    /// It leaves none, and without its last decision it leaves one.
    Fallen,
    /// There is no decision, and even so nothing is left.
    Void,
}
