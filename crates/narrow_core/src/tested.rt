//! Constraints that say of others whether they hold: the first argument is 1 exactly where the test of the two
//! others comes true.

ghost use Rattle.std.specs.Prelude.{◌≡◌, ◌↔◌, ℤ, pos, ◌≤ℤ◌, IsTrue};
ghost use Rattle.domain_core.specs.Domain.{IsDomain, IsBetweenEnds, Has};
ghost use Rattle.domain_core.specs.Narrowing.{Keeps};
ghost use Rattle.narrow_core.specs.Sweeps.{AllTested};
ghost use Rattle.narrow_core.specs.Truths.{HasBesideOne, SaysOf, PassesTest};

use super::equal::{keep_apart, lies_apart};
use super::limits::{keep_from, keep_up_to, lies_from, lies_up_to};
use super::narrow::Narrow;
use super::passing::is_tested;
use domain_core::Change;
use domain_core::domain::Dom;

/// What the first argument says of the test.
#[derive(Clone, Copy)]
enum Verdict {
    /// It comes true.
    Holds,
    /// It comes false.
    Fails,
    /// It may come true or false.
    Open,
}

// Whether the domain has a value that isn't 1.
fn has_beside_one(domain: &Dom) -> bool
    ensures beside { IsTrue result ↔ HasBesideOne domain.now }
    ensures domain { IsDomain domain.now }
{
    domain.lo() < 1 || 1 < domain.hi()
}

// What the domain says, of which it is known whether it admits 1.
fn verdict_of(domain: &Dom, admits_one: bool) -> Verdict
    ensures says { SaysOf domain.now admits_one result }
    ensures domain { IsDomain domain.now }
{
    let open = has_beside_one(domain);
    if !admits_one {
        Verdict::Fails
    } else if open {
        Verdict::Open
    } else {
        Verdict::Holds
    }
}

// Keeps 1 where the test may come true, and the other values where it may come false.
fn keep_outcomes(domain: &mut Dom, may_hold: bool, may_fail: bool) -> Change
    ensures kept { Keeps (PassesTest may_hold may_fail) domain.old result domain.new }
    ensures domain { IsDomain domain.old → IsDomain domain.new }
{
    if may_hold {
        if may_fail {
            return Change::Same;
        }
        return domain.meet_range(1, 1);
    }
    if may_fail {
        return domain.drop_value(1);
    }
    Change::Empty
}

// Whether `keep_outcomes` would take nothing.
fn are_outcomes(domain: &Dom, may_hold: bool, may_fail: bool) -> bool
    ensures { IsTrue result ↔ AllTested (PassesTest may_hold may_fail) domain.now }
{
    // A domain is never empty.
    let _least = domain.lo();
    if may_hold {
        if may_fail {
            return true;
        }
        return !has_beside_one(domain);
    }
    if may_fail {
        return !is_tested(domain, 1);
    }
    false
}

// Whether there are values of the two domains that differ.
fn may_differ(x: &Dom, y: &Dom) -> bool
    ensures { IsTrue result ↔ ((v w : ℤ) × Has x.now v × Has y.now w × (v ≡ w → ⊥)) }
{
    x.lo() < y.hi() || y.lo() < x.hi()
}

// Keeps the values of a side of the equality that the truth and the other side support.
fn keep_side(truth: &Dom, own: &mut Dom, other: &Dom) -> Change
    ensures kept { Keeps (λ value. (t w : ℤ) × Has truth.now t × Has other.now w × ((t ≡ pos 1) ↔ (value ≡ w)))
        own.old result own.new }
    ensures domain { IsDomain own.old → IsDomain own.new }
{
    // Where the test is open, any value serves: it agrees with the other's least value or differs from it.
    let _least = other.lo();
    match verdict_of(truth, truth.has(1)) {
        Verdict::Holds => own.meet_set(other),
        Verdict::Fails => keep_apart(own, other),
        Verdict::Open => Change::Same,
    }
}

// Whether `keep_side` would take nothing.
fn side_stays(truth: &Dom, own: &Dom, other: &Dom) -> bool
    ensures { IsTrue result ↔ AllTested (λ value. (t w : ℤ)
        × Has truth.now t × Has other.now w × ((t ≡ pos 1) ↔ (value ≡ w))) own.now }
{
    let _least = other.lo();
    match verdict_of(truth, truth.has(1)) {
        Verdict::Holds => own.lies_in(other),
        Verdict::Fails => lies_apart(own, other),
        Verdict::Open => true,
    }
}

// Whether 1 lies between the domain's ends.
fn reaches_one(domain: &Dom) -> bool
    ensures { IsTrue result ↔ IsBetweenEnds domain.now (pos 1) }
{
    domain.lo() <= 1 && 1 <= domain.hi()
}

// Keeps the values of the lower side of the order that the truth and the upper side support.
fn keep_lower(truth: &Dom, own: &mut Dom, upper: &Dom) -> Change
    ensures kept { Keeps (λ value. (t w : ℤ)
        × IsBetweenEnds truth.now t × IsBetweenEnds upper.now w × ((t ≡ pos 1) ↔ (value ≤ℤ w)))
        own.old result own.new }
    ensures domain { IsDomain own.old → IsDomain own.new }
{
    let least = upper.lo();
    match verdict_of(truth, reaches_one(truth)) {
        Verdict::Holds => keep_up_to(own, upper.hi()),
        Verdict::Fails => keep_from(own, least + 1),
        Verdict::Open => Change::Same,
    }
}

// Keeps the values of the upper side of the order that the truth and the lower side support.
fn keep_upper(truth: &Dom, own: &mut Dom, lower: &Dom) -> Change
    ensures kept { Keeps (λ value. (t w : ℤ)
        × IsBetweenEnds truth.now t × IsBetweenEnds lower.now w × ((t ≡ pos 1) ↔ (w ≤ℤ value)))
        own.old result own.new }
    ensures domain { IsDomain own.old → IsDomain own.new }
{
    let least = lower.lo();
    match verdict_of(truth, reaches_one(truth)) {
        Verdict::Holds => keep_from(own, least),
        Verdict::Fails => keep_up_to(own, lower.hi() - 1),
        Verdict::Open => Change::Same,
    }
}

// Whether `keep_lower` would take nothing.
fn lower_stays(truth: &Dom, own: &Dom, upper: &Dom) -> bool
    ensures { IsTrue result ↔ AllTested (λ value. (t w : ℤ)
        × IsBetweenEnds truth.now t × IsBetweenEnds upper.now w × ((t ≡ pos 1) ↔ (value ≤ℤ w))) own.now }
{
    let least = upper.lo();
    match verdict_of(truth, reaches_one(truth)) {
        Verdict::Holds => lies_up_to(own, upper.hi()),
        Verdict::Fails => lies_from(own, least + 1),
        Verdict::Open => true,
    }
}

// Whether `keep_upper` would take nothing.
fn upper_stays(truth: &Dom, own: &Dom, lower: &Dom) -> bool
    ensures { IsTrue result ↔ AllTested (λ value. (t w : ℤ)
        × IsBetweenEnds truth.now t × IsBetweenEnds lower.now w × ((t ≡ pos 1) ↔ (w ≤ℤ value))) own.now }
{
    let least = lower.lo();
    match verdict_of(truth, reaches_one(truth)) {
        Verdict::Holds => lies_from(own, least),
        Verdict::Fails => lies_up_to(own, lower.hi() - 1),
        Verdict::Open => true,
    }
}

/// The first argument is 1 exactly where the two others are equal.
#[derive(Clone, Copy)]
pub struct TestEq;

impl Narrow for TestEq {
    ghost use Rattle.std.proofs.Common.{lit<};
    ghost use Rattle.domain_core.specs.Constraints.{HoldsOf, arity_of, reach_of};
    ghost use Rattle.domain_core.specs.declared.kind.Kind.TheVariants as kind;

    ghost count = { λ _. arity_of kind.TestEq };

    ghost reach = { λ _. reach_of kind.TestEq };

    ghost holds = { λ _. HoldsOf kind.TestEq };

    ghost few = { λ _. (lit< tt, lit< tt) };

    fn keep_supported(&self, before: &[&Dom], own: &mut Dom, after: &[&Dom]) -> Change {
        match (before, after) {
            ([], [x, y]) => keep_outcomes(own, x.has_common(y), may_differ(x, y)),
            ([b], [y]) => keep_side(b, own, y),
            ([b, x], []) => keep_side(b, own, x),
            _ => unreachable!(),
        }
    }

    fn supports(&self, before: &[&Dom], own: &Dom, after: &[&Dom]) -> bool {
        match (before, after) {
            ([], [x, y]) => are_outcomes(own, x.has_common(y), may_differ(x, y)),
            ([b], [y]) => side_stays(b, own, y),
            ([b, x], []) => side_stays(b, own, x),
            _ => unreachable!(),
        }
    }
}

/// The first argument is 1 exactly where the second is at most the third.
#[derive(Clone, Copy)]
pub struct TestLeq;

impl Narrow for TestLeq {
    ghost use Rattle.std.proofs.Common.{lit<};
    ghost use Rattle.domain_core.specs.Constraints.{HoldsOf, arity_of, reach_of};
    ghost use Rattle.domain_core.specs.declared.kind.Kind.TheVariants as kind;

    ghost count = { λ _. arity_of kind.TestLeq };

    ghost reach = { λ _. reach_of kind.TestLeq };

    ghost holds = { λ _. HoldsOf kind.TestLeq };

    ghost few = { λ _. (lit< tt, lit< tt) };

    fn keep_supported(&self, before: &[&Dom], own: &mut Dom, after: &[&Dom]) -> Change {
        match (before, after) {
            ([], [x, y]) => keep_outcomes(own, x.lo() <= y.hi(), y.lo() < x.hi()),
            ([b], [y]) => keep_lower(b, own, y),
            ([b, x], []) => keep_upper(b, own, x),
            _ => unreachable!(),
        }
    }

    fn supports(&self, before: &[&Dom], own: &Dom, after: &[&Dom]) -> bool {
        match (before, after) {
            ([], [x, y]) => are_outcomes(own, x.lo() <= y.hi(), y.lo() < x.hi()),
            ([b], [y]) => lower_stays(b, own, y),
            ([b, x], []) => upper_stays(b, own, x),
            _ => unreachable!(),
        }
    }
}
