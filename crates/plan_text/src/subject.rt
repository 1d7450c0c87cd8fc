//! What a line is about.

use eu_name::name::{TokenName, VarName};
use model_core::variable::ValueKind;

/// A global by its number, with the kind of its values.
#[derive(Clone, Copy)]
pub struct NamedGlobal {
    pub number: u32,
    pub kind: ValueKind,
}

/// A token, with the number of its predicate.
#[derive(Drop)]
pub struct NamedToken {
    pub name: TokenName,
    pub pred: u32,
}

/// A local of a token, with the kind of its values.
#[derive(Drop)]
pub struct NamedLocal {
    pub name: VarName,
    pub kind: ValueKind,
}
