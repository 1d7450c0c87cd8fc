//! Which limits the rules of predicates pass.

ghost use Rattle.std.specs.Prelude.{◌≡◌};
ghost use Rattle.nddl_symbols.specs.Finding.{earliest_fault};
ghost use Rattle.nddl_unroll.specs.Limits.{limit_faults, limits_passed, no_rules, passes, rule_limits, tally_of, with_rule};

use super::amounts::Amounts;
use nddl_ast::TextKind;
use nddl_symbols::{Fault, Place, kind_if, note_at};

/// A rule of a predicate: where its text stands, and how much it has.
#[derive(Clone, Copy)]
pub struct Weighed {
    pub pred: u32,
    pub place: Place,
    pub amounts: Amounts,
}

/// How many rules a predicate has so far, and how much these have.
#[derive(Clone, Copy)]
pub struct Tally {
    pub rules: u64,
    pub amounts: Amounts,
}

fn no_rules() -> Tally
    ensures { result ≡ no_rules }
{
    Tally {
        rules: 0,
        amounts: Amounts::none(),
    }
}

// A rule more.
fn with_rule(tally: Tally, amounts: Amounts) -> Tally
    ensures { result ≡ with_rule tally amounts }
{
    Tally {
        rules: tally.rules.saturating_add(1),
        amounts: tally.amounts.and(amounts),
    }
}

fn passes(limit: u64, before: u64, after: u64) -> bool
    ensures { result ≡ passes limit before after }
{
    before <= limit && limit < after
}

// Notes the limit that a rule at this place passes.
fn note_limit(
    place: Place,
    kind: TextKind,
    limit: u64,
    before: u64,
    after: u64,
    first: &mut Option<Fault>,
)
    ensures { first.new ≡ earliest_fault first.old (limit_faults place kind limit before after) }
{
    let passed = passes(limit, before, after);
    note_at(first, place.decl, place.at, kind_if(passed, kind));
}

// Notes the limits that a rule at this place passes.
#[tactic(auto, using(nddl_symbols::proofs::Earliest::earliest_append))]
fn note_rule_limits(place: Place, before: Tally, after: Tally, first: &mut Option<Fault>)
    ensures { first.new ≡ earliest_fault first.old (rule_limits place before after) }
{
    let (old, new) = (before.amounts, after.amounts);
    note_limit(
        place,
        TextKind::LimitRules,
        1024,
        before.rules,
        after.rules,
        first,
    );
    note_limit(
        place,
        TextKind::LimitGuards,
        1024,
        old.guards,
        new.guards,
        first,
    );
    note_limit(
        place,
        TextKind::LimitSlots,
        128,
        old.slots,
        new.slots,
        first,
    );
    note_limit(
        place,
        TextKind::LimitLocals,
        128,
        old.locals,
        new.locals,
        first,
    );
    note_limit(
        place,
        TextKind::LimitItems,
        1024,
        old.items,
        new.items,
        first,
    );
    note_limit(
        place,
        TextKind::LimitTurns,
        65_536,
        old.turns,
        new.turns,
        first,
    );
}

// What a predicate has so far, where the rules of the other have so much.
fn tally_of(pred: u32, other: u32, tally: Tally) -> Tally
    ensures { result ≡ tally_of pred other tally }
{
    if pred == other { tally } else { no_rules() }
}

/// Notes the limits that are passed by rules which go by predicate.
#[tactic(auto, using(nddl_symbols::proofs::Earliest::earliest_append))]
pub fn note_limits(rules: &[Weighed], first: &mut Option<Fault>)
    ensures { first.new ≡ earliest_fault first.old (limits_passed 0 no_rules rules.now) }
{
    let mut pred = 0;
    let mut tally = no_rules();
    for weighed in rules {
        let before = tally_of(weighed.pred, pred, tally);
        pred = weighed.pred;
        tally = with_rule(before, weighed.amounts);
        note_rule_limits(weighed.place, before, tally, first);
    }
}
