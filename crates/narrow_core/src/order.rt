//! Order. An argument is cut where the end of the other one is.

use super::limits::{keep_from, keep_up_to, lies_from, lies_up_to};
use super::narrow::Narrow;
use domain_core::Change;
use domain_core::domain::Dom;

/// The first argument is less than the second.
#[derive(Clone, Copy)]
pub struct Lt;

impl Narrow for Lt {
    ghost use Rattle.std.proofs.Common.{lit<};
    ghost use Rattle.domain_core.specs.Constraints.{HoldsOf, arity_of, reach_of};
    ghost use Rattle.domain_core.specs.declared.kind.Kind.TheVariants as kind;

    ghost count = { λ _. arity_of kind.Lt };

    ghost reach = { λ _. reach_of kind.Lt };

    ghost holds = { λ _. HoldsOf kind.Lt };

    ghost few = { λ _. (lit< tt, lit< tt) };

    fn keep_supported(&self, before: &[&Dom], own: &mut Dom, after: &[&Dom]) -> Change {
        match (before, after) {
            ([], [y]) => keep_up_to(own, y.hi() - 1),
            ([x], []) => keep_from(own, x.lo() + 1),
            _ => unreachable!(),
        }
    }

    fn supports(&self, before: &[&Dom], own: &Dom, after: &[&Dom]) -> bool {
        match (before, after) {
            ([], [y]) => lies_up_to(own, y.hi() - 1),
            ([x], []) => lies_from(own, x.lo() + 1),
            _ => unreachable!(),
        }
    }
}

/// The first argument is at most the second.
#[derive(Clone, Copy)]
pub struct Leq;

impl Narrow for Leq {
    ghost use Rattle.std.proofs.Common.{lit<};
    ghost use Rattle.domain_core.specs.Constraints.{HoldsOf, arity_of, reach_of};
    ghost use Rattle.domain_core.specs.declared.kind.Kind.TheVariants as kind;

    ghost count = { λ _. arity_of kind.Leq };

    ghost reach = { λ _. reach_of kind.Leq };

    ghost holds = { λ _. HoldsOf kind.Leq };

    ghost few = { λ _. (lit< tt, lit< tt) };

    fn keep_supported(&self, before: &[&Dom], own: &mut Dom, after: &[&Dom]) -> Change {
        match (before, after) {
            ([], [y]) => keep_up_to(own, y.hi()),
            ([x], []) => keep_from(own, x.lo()),
            _ => unreachable!(),
        }
    }

    fn supports(&self, before: &[&Dom], own: &Dom, after: &[&Dom]) -> bool {
        match (before, after) {
            ([], [y]) => lies_up_to(own, y.hi()),
            ([x], []) => lies_from(own, x.lo()),
            _ => unreachable!(),
        }
    }
}
