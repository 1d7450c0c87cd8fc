//! Where rules are written.

/// The declaration in which a rule is written, by its number, and the member of the class, where it stands in the body of
/// a predicate.
#[derive(Clone, Copy, Debug, PartialEq, Eq)]
pub struct TextPlace {
    pub decl: usize,
    pub member: Option<usize>,
}
