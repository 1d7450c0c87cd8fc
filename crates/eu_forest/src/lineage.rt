//! Which things are rooted, and their order.

ghost use Rattle.std.specs.Prelude.{◌≡◌, ◌<◌, ◌↔◌, ℕ, Some, IfOk, length, slice_get};
ghost use Rattle.eu_forest.specs.Lines.{AreParents, IsLineageOf, rootedness_in};

use super::walk::{Mark, begin, walk};
use std::alloc::{AllocError, Global};

/// Where the line leads on which a thing stands.
#[derive(Clone, Copy, Debug, PartialEq, Eq)]
pub enum Rootedness {
    /// What it stands under leads up to a thing that stands under none.
    Rooted,
    /// It stands under itself, at once or over others.
    OnCircle,
    /// It leads to a circle, and isn't on it.
    Leading,
}

/// The rootedness of things, and the rooted ones in an order in which each comes after the one that it stands under.
#[derive(Drop)]
pub struct Lineage {
    pub marks: Vec<Mark>,
    pub order: Vec<usize>,
}

impl Lineage {
    /// Of things that stand under those of these numbers.
    pub fn of(alloc: Global, parents: &[Option<usize>]) -> Result<Lineage, AllocError>
        requires { AreParents parents.now }
        ensures { IfOk result (λ lineage. IsLineageOf parents.now lineage.marks.items lineage.order.items) }
    {
        let mut marks = Vec::new(alloc);
        let mut order = Vec::new(alloc);
        begin(parents, &mut marks, &mut order)?;
        for number in 0..parents.len() {
            walk(alloc, parents, number, marks.as_mut_slice(), &mut order)?;
        }
        Ok(Lineage { marks, order })
    }

    /// The rootedness of the thing of this number.
    pub fn rootedness(&self, number: usize) -> Option<Rootedness>
        ensures { result ≡ rootedness_in self.now.marks.items number }
    {
        match self.marks.get(number)? {
            Mark::Known(rootedness) => Some(*rootedness),
            _ => None,
        }
    }

    /// The rooted things.
    pub fn order(&self) -> &[usize]
        ensures { result.now ≡ self.now.order.items }
    {
        self.order.as_slice()
    }
}
