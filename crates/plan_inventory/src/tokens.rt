//! Clauses V3 and V4: what takes place, and what is merged, has values that it is declared with.

ghost use Rattle.std.specs.Prelude.{◌≡◌, Contains, MatchBool};
ghost use Rattle.model_core.specs.Lawful.{IsLawful};
ghost use Rattle.plan_defs.specs.declared.plan.Clause.TheVariants.{V3, V4};
ghost use Rattle.plan_defs.specs.declared.plan.Line.TheVariants as lines;
ghost use Rattle.plan_defs.specs.Claims.{lasts};
ghost use Rattle.plan_defs.specs.Plans.{IsPlanOf, TakesPlaceWith};
ghost use Rattle.plan_defs.specs.Valid.{IsClaimTrue, SuitsToken, SuitsMerge, SuitsIfToken, SuitsIfMerged};
ghost use Rattle.plan_values.specs.Keys.{IsOrderly};
ghost use Rattle.plan_inventory.specs.Breaks.{FindsBreak, FindsLine};

use super::bases::are_declared;
use domain_core::kind::Kind;
use eu_name::name::{Part, TokenName};
use eu_name::name_order::order;
use model_core::item::Term;
use model_core::model::Model;
use plan_defs::plan::{Line, Place, Plan};
use plan_values::claims::are_true;
use plan_values::have_same_predicate;
use plan_values::key::TokenKey;
use plan_values::lines::own_values;
use plan_values::terms::Standpoint;
use std::cmp::Ordering;

// Whether the token ends its duration after its start.
fn lasts_as_said(model: &Model, plan: &Plan, token: &TokenName) -> bool
    requires { IsOrderly plan.now }
    ensures { MatchBool result
        (IsClaimTrue model.now plan.now (lasts token.now))
        (IsClaimTrue model.now plan.now (lasts token.now) → ⊥) }
{
    let at = Standpoint::Rule { token, rule: 0 };
    let terms = [
        Term::Here(Part::Start),
        Term::Here(Part::Duration),
        Term::Here(Part::End),
    ];
    are_true(model, plan, at, Kind::AddEq, &terms)
}

// Whether the token, which takes place with these values, has values that it is declared with, and lasts as it says.
fn suits_token(model: &Model, plan: &Plan, token: &TokenName, values: &[i32]) -> bool
    requires lawful { IsLawful model.now }
    requires orderly { IsOrderly plan.now }
    requires takes_place { TakesPlaceWith plan.now token.now values.now }
    ensures { MatchBool result
        (SuitsToken model.now plan.now token.now)
        (SuitsToken model.now plan.now token.now → ⊥) }
{
    if are_declared(model, token, values) {
        lasts_as_said(model, plan, token)
    } else {
        false
    }
}

// Whether what the line says, if a token takes place by it, suits the token.
fn suits_if_token(model: &Model, plan: &Plan, line: &Line) -> bool
    requires lawful { IsLawful model.now }
    requires orderly { IsOrderly plan.now }
    requires there { Contains plan.now.lines line.now }
    ensures { MatchBool result
        (SuitsIfToken model.now plan.now line.now)
        (SuitsIfToken model.now plan.now line.now → ⊥) }
{
    match line {
        Line::Token { name, values, .. } => suits_token(model, plan, name, values.as_slice()),
        Line::Merged { .. } | Line::Rejected { .. } | Line::Local { .. } => true,
    }
}

// The place of the first line that doesn't suit its token.
fn unsuited_token(model: &Model, plan: &Plan) -> Option<u32>
    requires lawful { IsLawful model.now }
    requires is_plan { IsPlanOf model.now plan.now }
    requires orderly { IsOrderly plan.now }
    ensures { FindsLine plan.now (SuitsIfToken model.now plan.now) result }
{
    for (place, line) in plan.lines.as_slice().iter().enumerate() {
        if !suits_if_token(model, plan, line) {
            return Some(place as u32);
        }
    }
    None
}

/// The first token that takes place with a value that isn't of its base, or doesn't last as it says.
pub fn broken_token(model: &Model, plan: &Plan) -> Option<Place>
    requires lawful { IsLawful model.now }
    requires is_plan { IsPlanOf model.now plan.now }
    requires orderly { IsOrderly plan.now }
    ensures { FindsBreak model.now plan.now V3 result }
{
    match unsuited_token(model, plan) {
        Some(place) => Some(Place::Line(place)),
        None => None,
    }
}

// Whether the two are one token.
fn is_same_token(one: &TokenName, other: &TokenName) -> bool
    ensures { MatchBool result (one.now ≡ other.now) (one.now ≡ other.now → ⊥) }
{
    match order(one, other) {
        Ordering::Equal => true,
        Ordering::Less | Ordering::Greater => false,
    }
}

// Whether the token, which is merged into the target, can be it.
fn suits_merge(model: &Model, plan: &Plan, token: &TokenName, target: &TokenName) -> bool
    requires lawful { IsLawful model.now }
    requires orderly { IsOrderly plan.now }
    requires merged { Contains plan.now.lines (lines.Merged token.now target.now) }
    ensures { MatchBool result
        (SuitsMerge model.now plan.now token.now target.now)
        (SuitsMerge model.now plan.now token.now target.now → ⊥) }
{
    if is_same_token(target, token) {
        return false;
    }
    if !have_same_predicate(model, token, target) {
        return false;
    }
    match own_values(plan, TokenKey::of(target)) {
        Some(values) => are_declared(model, token, values),
        None => false,
    }
}

// Whether what the line says, if a token is merged by it, suits the token.
fn suits_if_merged(model: &Model, plan: &Plan, line: &Line) -> bool
    requires lawful { IsLawful model.now }
    requires orderly { IsOrderly plan.now }
    requires there { Contains plan.now.lines line.now }
    ensures { MatchBool result
        (SuitsIfMerged model.now plan.now line.now)
        (SuitsIfMerged model.now plan.now line.now → ⊥) }
{
    match line {
        Line::Merged { name, target } => suits_merge(model, plan, name, target),
        Line::Token { .. } | Line::Rejected { .. } | Line::Local { .. } => true,
    }
}

// The place of the first line by which a token is merged into one that it can't be.
fn unsuited_merge(model: &Model, plan: &Plan) -> Option<u32>
    requires lawful { IsLawful model.now }
    requires is_plan { IsPlanOf model.now plan.now }
    requires orderly { IsOrderly plan.now }
    ensures { FindsLine plan.now (SuitsIfMerged model.now plan.now) result }
{
    for (place, line) in plan.lines.as_slice().iter().enumerate() {
        if !suits_if_merged(model, plan, line) {
            return Some(place as u32);
        }
    }
    None
}

/// The first token that is merged into one that it can't be.
pub fn broken_merge(model: &Model, plan: &Plan) -> Option<Place>
    requires lawful { IsLawful model.now }
    requires is_plan { IsPlanOf model.now plan.now }
    requires orderly { IsOrderly plan.now }
    ensures { FindsBreak model.now plan.now V4 result }
{
    match unsuited_merge(model, plan) {
        Some(place) => Some(Place::Line(place)),
        None => None,
    }
}
