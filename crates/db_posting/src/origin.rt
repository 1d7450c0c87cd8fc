//! Where items stand.

use eu_name::name::Part;

/// Where an item stands.
#[derive(Clone, Copy)]
pub enum Origin {
    Problem,
    /// A rule of the token at this place, by its number in the list of the token's predicate.
    Rule { token: u32, rule: u16 },
}

/// A part of the token at this place.
#[derive(Clone, Copy)]
pub struct PartAt {
    pub token: u32,
    pub part: Part,
}
