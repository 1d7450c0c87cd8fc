//! The kinds of constraint.

/// The kinds of constraint.
#[derive(Clone, Copy, PartialEq, Eq)]
pub enum Kind {
    Eq,
    Neq,
    Lt,
    Leq,
    AddEq,
    MulEq,
    TestEq,
    TestLeq,
    /// Stands in no item, as its inequalities do.
    AllDiff,
    /// The second argument is the value of this field of the object that is the first.
    Field(u32),
}
