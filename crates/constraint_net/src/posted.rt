//! The constraints that were posted.

ghost use Rattle.std.specs.Prelude.{◌≡◌, ℕ, [], ◌∷◌, ◌++◌, length, option_copied, slice_get, Contains, IsTrue, IfSome, OnOk, OnErr, MatchOption};
ghost use Rattle.domain_core.specs.declared.kind.Kind.TheVariants.{Leq};
ghost use Rattle.constraint_net.specs.declared.constraint.NetArg.TheVariants.{Var};

use super::constraint::{Arguments, Constraint, NetArg};
use cell_store::numbers::short;
use domain_core::kind::Kind;
use indexmap::IndexMap;
use slab::Slab;
use std::alloc::{AllocError, Global};
use std::marker::Model;

/// Constraints by number, in the order in which they were posted. Each stays where it is stored until it is taken off.
#[derive(Drop)]
pub struct Posted {
    kept: Slab<Constraint>,
    // The key of each constraint, by number.
    keys: Vec<u32>,
    // The number of a constraint that the one variable is at most the other, under the two. What stands there is looked up
    // before it is relied on.
    places: IndexMap<(usize, usize), u32>,
}

impl Model for Posted {
    ghost use Rattle.std.specs.Prelude.{List};
    ghost use Rattle.constraint_net.specs.Stored.{constraints_of, IsStored};
    ghost use Rattle.constraint_net.specs.declared.constraint.Constraint.{Constraint};

    ghost Value = { List Constraint };

    ghost view = { λ posted. constraints_of posted.kept posted.keys.items };

    ghost invariant = { λ posted. IsStored posted.kept posted.keys.items };
}

impl Posted {
    /// No constraints, which take no memory.
    pub fn new(alloc: Global) -> Posted
        ensures { result ≡ [] }
    {
        Posted {
            kept: Slab::new(alloc),
            keys: Vec::new(alloc),
            places: IndexMap::new(alloc),
        }
    }

    pub fn len(&self) -> usize
        ensures { result ≡ length self.now }
    {
        self.keys.len()
    }

    /// Puts a constraint behind the others.
    pub fn push(&mut self, kind: Kind, args: &[NetArg]) -> Result<(), AllocError>
        ensures ok { OnOk result (self.new ≡ self.old ++ record { kind = kind; args = args.now } ∷ []) }
        ensures err { OnErr result (self.new ≡ self.old) }
    {
        self.note_place(kind, args)?;
        let args = Arguments::copied_from(*self.keys.allocator(), args)?;
        self.store(Constraint { kind, args })
    }

    // Notes where the constraint is going to stand, if it is of those that can be found, and isn't there already.
    fn note_place(&mut self, kind: Kind, args: &[NetArg]) -> Result<(), AllocError>
        ensures { self.new ≡ self.old }
    {
        let Some(pair) = at_most_pair(kind, args) else {
            return Ok(());
        };
        if self.stands(pair) {
            return Ok(());
        }
        let number = short(self.keys.len())?;
        self.places.insert(pair, number)?;
        Ok(())
    }

    // Whether at the place that is noted for the two variables there is the constraint that the one is at most the other.
    fn stands(&self, pair: (usize, usize)) -> bool
        ensures { IsTrue result → Contains self.now (record { kind = Leq; args = Var pair.0 ∷ Var pair.1 ∷ [] }) }
    {
        let Some(number) = self.places.get(&pair) else {
            return false;
        };
        match self.get(*number as usize) {
            Some(constraint) => is_at_most(constraint, pair),
            None => false,
        }
    }

    /// Whether the constraint is known to be among them. Only those that one variable is at most another can be known, and even
    /// these not for sure.
    pub fn is_known(&self, kind: Kind, args: &[NetArg]) -> bool
        ensures { IsTrue result → Contains self.now (record { kind = kind; args = args.now }) }
    {
        match at_most_pair(kind, args) {
            Some(pair) => self.stands(pair),
            None => false,
        }
    }

    // Puts a constraint that is at hand behind the others, or changes nothing.
    fn store(&mut self, constraint: Constraint) -> Result<(), AllocError>
        ensures ok { OnOk result (self.new ≡ self.old ++ constraint ∷ []) }
        ensures err { OnErr result (self.new ≡ self.old) }
    {
        self.keys.reserve(1)?;
        let key = short(self.kept.vacant_key())?;
        self.kept.insert(constraint)?;
        self.keys.push_reserved(key);
        Ok(())
    }

    /// The constraint of this number. None where there is no such constraint.
    pub fn get(&self, number: usize) -> Option<&Constraint>
        ensures { option_copied result ≡ slice_get self.now number }
    {
        match self.keys.get(number) {
            Some(key) => self.kept.get(*key as usize),
            None => None,
        }
    }

    /// Takes the last constraint off. None where there is no constraint.
    pub fn pop(&mut self) -> Option<Constraint>
        ensures { MatchOption result ((self.old ≡ []) × (self.new ≡ self.old))
            (λ constraint. self.old ≡ self.new ++ constraint ∷ []) }
    {
        let key = self.keys.pop()?;
        forget_last(&mut self.places, self.keys.len());
        self.kept.try_remove(key as usize)
    }
}

// The two variables, where the constraint is that the one is at most the other.
fn at_most_pair(kind: Kind, args: &[NetArg]) -> Option<(usize, usize)>
    ensures { IfSome result (λ pair. (kind ≡ Leq) × (args.now ≡ Var pair.0 ∷ Var pair.1 ∷ [])) }
{
    match (kind, args) {
        (Kind::Leq, [NetArg::Var(one), NetArg::Var(other)]) => Some((*one, *other)),
        _ => None,
    }
}

// Whether the constraint is that the one variable is at most the other.
fn is_at_most(constraint: &Constraint, pair: (usize, usize)) -> bool
    ensures { IsTrue result → constraint.now ≡ record { kind = Leq; args = Var pair.0 ∷ Var pair.1 ∷ [] } }
{
    match at_most_pair(constraint.kind, constraint.args.as_slice()) {
        Some(found) => found.0 == pair.0 && found.1 == pair.1,
        None => false,
    }
}

// Takes the last place off, if it isn't below the count. Places are noted as they rise, so none stays behind.
fn forget_last(places: &mut IndexMap<(usize, usize), u32>, count: usize) {
    if let Some((_pair, number)) = places.last() {
        if *number as usize >= count {
            let _last = places.pop();
        }
    }
}
