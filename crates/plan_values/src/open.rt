//! Which blocks of rules are open by the values of a plan.

ghost use Rattle.std.specs.Prelude.{◌≡◌, ◌≢◌, ◌↔◌, ℤ, MatchBool, MatchOption};
ghost use Rattle.model_core.specs.declared.rule.Side.{Side};
ghost use Rattle.plan_defs.specs.Plans.{plan_situation};
ghost use Rattle.plan_defs.specs.Support.{Opens, side_when};
ghost use Rattle.plan_values.specs.Keys.{IsOrderly};
ghost use Rattle.plan_values.specs.Meanings.{context_of};
ghost use Rattle.plan_values.specs.Openings.{IsRead, AreRead};

use super::terms::{Standpoint, term_counts, term_value};
use model_core::item::Term;
use model_core::model::Model;
use model_core::rule::{Guard, Side};
use plan_defs::plan::Plan;

// The value of the term, where what is said of it counts.
fn read(model: &Model, plan: &Plan, at: Standpoint, term: Term) -> Option<i32>
    requires { IsOrderly plan.now }
    ensures { MatchOption result
        ((value : ℤ) → IsRead model.now plan.now (context_of at.entry) term value → ⊥)
        (λ value. IsRead model.now plan.now (context_of at.entry) term value) }
{
    if term_counts(model, plan, at, term) {
        term_value(plan, at, term)
    } else {
        None
    }
}

// Whether the two values are one.
fn is_same_value(one: i32, other: i32) -> bool
    ensures { MatchBool result (one ≡ other) (one ≢ other) }
{
    one == other
}

// Whether the two terms have one value, where both have one and what is said of them counts.
fn are_equal(model: &Model, plan: &Plan, at: Standpoint, one: Term, other: Term) -> Option<bool>
    requires { IsOrderly plan.now }
    ensures { MatchOption result
        ((v w : ℤ) → AreRead model.now plan.now (context_of at.entry) one other v w → ⊥)
        (λ same. (v w : ℤ) × (AreRead model.now plan.now (context_of at.entry) one other v w
        × MatchBool same (v ≡ w) (v ≢ w))) }
{
    match read(model, plan, at, one) {
        Some(value) => match read(model, plan, at, other) {
            Some(found) => Some(is_same_value(value, found)),
            None => None,
        },
        None => None,
    }
}

/// The side of the guard that is open there.
pub fn opened_side(model: &Model, plan: &Plan, at: Standpoint, guard: Guard) -> Option<Side>
    requires { IsOrderly plan.now }
    ensures { MatchOption result
        ((side : Side) → Opens model.now (plan_situation plan.now) (context_of at.entry) guard side → ⊥)
        (λ found. (side : Side)
        → Opens model.now (plan_situation plan.now) (context_of at.entry) guard side ↔ (side ≡ found)) }
{
    match guard {
        Guard::Equal(one, other) => match are_equal(model, plan, at, one, other) {
            Some(same) => Some(side_where(same)),
            None => None,
        },
        Guard::Differ(one, other) => match are_equal(model, plan, at, one, other) {
            Some(same) => Some(side_where(!same)),
            None => None,
        },
    }
}

// The side that opens where the guard is true, or where it is false.
fn side_where(truth: bool) -> Side
    ensures { result ≡ side_when truth }
{
    if truth { Side::Then } else { Side::Otherwise }
}
