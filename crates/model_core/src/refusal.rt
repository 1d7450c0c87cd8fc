//! Why decisions are refused.

/// Why a decision is refused, in the order in which the reasons are looked for.
#[derive(Clone, Copy, Debug, PartialEq, Eq)]
pub enum Refusal {
    /// A token or a variable that it names isn't there.
    Unknown,
    /// The constraint doesn't take these arguments: they are too few or too many, or not of the kinds that it takes.
    WrongType,
    /// What it is about is decided already.
    Decided,
    /// The variable isn't declared with the value, or the value is none of the kind in which the constraint reads it.
    NotInDomain,
    /// A token would have to be active, or taken, that isn't.
    NotActive,
    /// The token and its target are of two predicates.
    NotSamePredicate,
    /// The token isn't a rejectable.
    NotRejectable,
    /// It puts a token before itself, or relates it to itself.
    SameToken,
    /// As many tokens are active as there may be.
    ActiveFull,
}
