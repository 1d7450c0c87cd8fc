//! The typedefs among the names of the files, and which of them mean the same.

ghost use Rattle.std.specs.Prelude.{◌≡◌, ◌++◌, ◌∷◌, [], IfSome, IsTrue, None, OnOk, Some, slice_get};
ghost use Rattle.nddl_typeexpr.specs.Bases.{typedef_meaning};
ghost use Rattle.nddl_env.specs.Sharing.{IsAlike};

use super::alike::are_alike;
use nddl_hierarchy::Basis;
use nddl_typeexpr::TypeMeaning;
use std::alloc::{AllocError, Global};

/// What is known of the typedefs among the names so far.
#[derive(Drop)]
pub struct Typedefs {
    /// The number of each name among those that types are kept for, if it is a typedef that means something.
    pub numbers: Vec<Option<usize>>,
    /// The last typedef that shares with none before it. It is a hint: what it means is looked at.
    pub last: usize,
}

impl Typedefs {
    /// No names.
    pub fn new(alloc: Global) -> Typedefs
        ensures { result.numbers.items ≡ [] }
    {
        Typedefs {
            numbers: Vec::new(alloc),
            last: 0,
        }
    }

    /// One more name, which is no typedef or means nothing.
    pub fn push_none(&mut self) -> Result<(), AllocError>
        ensures { OnOk result (self.new.numbers.items ≡ self.old.numbers.items ++ None ∷ []) }
    {
        self.numbers.push(None)?;
        Ok(())
    }

    /// One more name, which is a typedef of this number, and may share with one before it.
    pub fn push(&mut self, number: usize, shares: bool) -> Result<(), AllocError>
        ensures { OnOk result (self.new.numbers.items ≡ self.old.numbers.items ++ Some number ∷ []) }
    {
        if !shares {
            self.last = self.numbers.len();
        }
        self.numbers.push(Some(number))?;
        Ok(())
    }

    /// The number of a typedef before this one that means this: of the one under which it stands, or else of the last that
    /// shares with none. That one is found wherever there is one isn't promised.
    pub fn alike(&self, basis: &Basis<'_>, entry: usize, meaning: &TypeMeaning) -> Option<usize>
        ensures { IfSome result (IsAlike basis.now.types.known.now self.now.numbers.items meaning.now) }
    {
        let numbers = self.numbers.as_slice();
        match number_under(basis, numbers, entry, meaning) {
            Some(number) => Some(number),
            None => number_if_alike(basis.types.known, numbers, self.last, meaning),
        }
    }
}

// The number of the typedef under which this one stands, if it means the same.
fn number_under(
    basis: &Basis<'_>,
    numbers: &[Option<usize>],
    entry: usize,
    meaning: &TypeMeaning,
) -> Option<usize>
    ensures { IfSome result (IsAlike basis.now.types.known.now numbers.now meaning.now) }
{
    match basis.parents.as_slice().get(entry) {
        Some(Some(parent)) => number_if_alike(basis.types.known, numbers, *parent, meaning),
        _ => None,
    }
}

// The number of the typedef, if it means this.
fn number_if_alike(
    known: &[Option<TypeMeaning>],
    numbers: &[Option<usize>],
    entry: usize,
    meaning: &TypeMeaning,
) -> Option<usize>
    ensures { IfSome result (IsAlike known.now numbers.now meaning.now) }
{
    if means(known, entry, meaning) {
        number_of(numbers, entry)
    } else {
        None
    }
}

// Whether the typedef means this.
fn means(known: &[Option<TypeMeaning>], entry: usize, meaning: &TypeMeaning) -> bool
    ensures { IsTrue result → typedef_meaning known.now entry ≡ Some meaning.now }
{
    match known.get(entry) {
        Some(Some(other)) => are_alike(other, meaning),
        _ => false,
    }
}

// The number of the name, if it has one.
fn number_of(numbers: &[Option<usize>], entry: usize) -> Option<usize>
    ensures { IfSome result (λ number. slice_get numbers.now entry ≡ Some (Some number)) }
{
    match numbers.get(entry) {
        Some(number) => *number,
        None => None,
    }
}
