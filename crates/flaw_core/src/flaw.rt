//! Flaws by places in a view.

use eu_name::name::Part;

/// A variable, by the place of its token in a view.
#[derive(Clone, Copy)]
pub enum VarPlace {
    Global(u32),
    /// A part of the token at this place.
    Part(u32, Part),
    /// A local of a rule of the token at this place, by its number in the rule.
    Local { token: u32, rule: u16, number: u16 },
}

/// What a search has to decide.
#[derive(Clone, Copy)]
pub enum Flaw {
    /// The token at this place, of which nothing is decided.
    Token(u32),
    /// A global, an object, a parameter or a local with more than one value.
    Value(VarPlace),
    /// The tokens at these two places, of one timeline and without an order.
    Pair(u32, u32),
    /// A start or a duration with more than one value.
    Time(VarPlace),
}
