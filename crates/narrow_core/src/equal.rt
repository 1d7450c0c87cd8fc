//! Equality and its opposite.

ghost use Rattle.std.specs.Prelude.{◌≡◌, ◌↔◌, ℤ, IsTrue};
ghost use Rattle.domain_core.specs.Domain.{IsDomain, Has};
ghost use Rattle.domain_core.specs.Narrowing.{Keeps};
ghost use Rattle.narrow_core.specs.Sweeps.{AllTested};

use super::narrow::Narrow;
use super::passing::is_tested;
use domain_core::Change;
use domain_core::domain::Dom;

/// Keeps the values from which a value of the other domain differs: all, unless the other domain has one value alone.
pub fn keep_apart(own: &mut Dom, other: &Dom) -> Change
    ensures kept { Keeps (λ value. (w : ℤ) × Has other.now w × (value ≡ w → ⊥)) own.old result own.new }
    ensures domain { IsDomain own.old → IsDomain own.new }
{
    let value = other.lo();
    if value == other.hi() {
        own.drop_value(value)
    } else {
        Change::Same
    }
}

/// Whether `keep_apart` would take nothing.
pub fn lies_apart(own: &Dom, other: &Dom) -> bool
    ensures { IsTrue result ↔ AllTested (λ value. (w : ℤ) × Has other.now w × (value ≡ w → ⊥)) own.now }
{
    let value = other.lo();
    if value == other.hi() {
        !is_tested(own, value)
    } else {
        true
    }
}

/// The arguments are equal.
#[derive(Clone, Copy)]
pub struct Eq;

impl Narrow for Eq {
    ghost use Rattle.std.proofs.Common.{lit<};
    ghost use Rattle.domain_core.specs.Constraints.{HoldsOf, arity_of, reach_of};
    ghost use Rattle.domain_core.specs.declared.kind.Kind.TheVariants as kind;

    ghost count = { λ _. arity_of kind.Eq };

    ghost reach = { λ _. reach_of kind.Eq };

    ghost holds = { λ _. HoldsOf kind.Eq };

    ghost few = { λ _. (lit< tt, lit< tt) };

    fn keep_supported(&self, before: &[&Dom], own: &mut Dom, after: &[&Dom]) -> Change {
        match (before, after) {
            ([], [other]) => own.meet_set(other),
            ([other], []) => own.meet_set(other),
            _ => unreachable!(),
        }
    }

    fn supports(&self, before: &[&Dom], own: &Dom, after: &[&Dom]) -> bool {
        match (before, after) {
            ([], [other]) => own.lies_in(other),
            ([other], []) => own.lies_in(other),
            _ => unreachable!(),
        }
    }
}

/// The arguments aren't equal.
#[derive(Clone, Copy)]
pub struct Neq;

impl Narrow for Neq {
    ghost use Rattle.std.proofs.Common.{lit<};
    ghost use Rattle.domain_core.specs.Constraints.{HoldsOf, arity_of, reach_of};
    ghost use Rattle.domain_core.specs.declared.kind.Kind.TheVariants as kind;

    ghost count = { λ _. arity_of kind.Neq };

    ghost reach = { λ _. reach_of kind.Neq };

    ghost holds = { λ _. HoldsOf kind.Neq };

    ghost few = { λ _. (lit< tt, lit< tt) };

    fn keep_supported(&self, before: &[&Dom], own: &mut Dom, after: &[&Dom]) -> Change {
        match (before, after) {
            ([], [other]) => keep_apart(own, other),
            ([other], []) => keep_apart(own, other),
            _ => unreachable!(),
        }
    }

    fn supports(&self, before: &[&Dom], own: &Dom, after: &[&Dom]) -> bool {
        match (before, after) {
            ([], [other]) => lies_apart(own, other),
            ([other], []) => lies_apart(own, other),
            _ => unreachable!(),
        }
    }
}
