//! Where faults of a program are looked for.

use super::basis::Basis;

/// A declaration by its number, with what is known of its program.
#[derive(Clone, Copy)]
pub struct Spot<'a> {
    pub basis: Basis<'a>,
    pub decl: usize,
}
