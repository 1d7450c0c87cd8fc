//! Sums.

ghost use Rattle.std.specs.Prelude.{◌≡◌, ◌↔◌, ℤ, ◌+ℤ◌, IsTrue};
ghost use Rattle.domain_core.specs.Domain.{IsDomain, IsBetweenEnds};
ghost use Rattle.domain_core.specs.Narrowing.{Keeps};
ghost use Rattle.narrow_core.specs.Sweeps.{AllTested};

use super::limits::lies_between;
use super::narrow::Narrow;
use domain_core::Change;
use domain_core::domain::Dom;

// Keeps the values to which something can be added that gives the sum.
fn keep_differences(own: &mut Dom, added: &Dom, sum: &Dom) -> Change
    ensures kept { Keeps (λ value. (w u : ℤ)
        × IsBetweenEnds added.now w × IsBetweenEnds sum.now u × ((value +ℤ w) ≡ u))
        own.old result own.new }
    ensures domain { IsDomain own.new }
{
    own.meet_range(sum.lo() - added.hi(), sum.hi() - added.lo())
}

// Whether `keep_differences` would take nothing.
fn are_differences(own: &Dom, added: &Dom, sum: &Dom) -> bool
    ensures { IsTrue result ↔ AllTested (λ value. (w u : ℤ)
        × IsBetweenEnds added.now w × IsBetweenEnds sum.now u × ((value +ℤ w) ≡ u)) own.now }
{
    lies_between(own, sum.lo() - added.hi(), sum.hi() - added.lo())
}

/// The first argument and the second sum to the third.
#[derive(Clone, Copy)]
pub struct AddEq;

impl Narrow for AddEq {
    ghost use Rattle.std.proofs.Common.{lit<};
    ghost use Rattle.domain_core.specs.Constraints.{HoldsOf, arity_of, reach_of};
    ghost use Rattle.domain_core.specs.declared.kind.Kind.TheVariants as kind;

    ghost count = { λ _. arity_of kind.AddEq };

    ghost reach = { λ _. reach_of kind.AddEq };

    ghost holds = { λ _. HoldsOf kind.AddEq };

    ghost few = { λ _. (lit< tt, lit< tt) };

    fn keep_supported(&self, before: &[&Dom], own: &mut Dom, after: &[&Dom]) -> Change {
        match (before, after) {
            ([], [y, z]) => keep_differences(own, y, z),
            ([x], [z]) => keep_differences(own, x, z),
            ([x, y], []) => own.meet_range(x.lo() + y.lo(), x.hi() + y.hi()),
            _ => unreachable!(),
        }
    }

    fn supports(&self, before: &[&Dom], own: &Dom, after: &[&Dom]) -> bool {
        match (before, after) {
            ([], [y, z]) => are_differences(own, y, z),
            ([x], [z]) => are_differences(own, x, z),
            ([x, y], []) => lies_between(own, x.lo() + y.lo(), x.hi() + y.hi()),
            _ => unreachable!(),
        }
    }
}
