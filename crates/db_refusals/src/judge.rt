//! The first reason against a decision.

ghost use Rattle.std.specs.Prelude.{◌≡◌, ◌↔◌, List, All, IsTrue, MatchBool};
ghost use Rattle.domain_core.specs.Domain.{Domain};
ghost use Rattle.model_core.specs.State.{Gives};
ghost use Rattle.model_core.specs.declared.model.Model.{Model as Problem};
ghost use Rattle.model_core.specs.declared.decision.Decision.{Decision as Decided};
ghost use Rattle.model_core.specs.declared.item.Rel.{Rel as Related};
ghost use Rattle.model_core.specs.declared.decision.Decision.TheVariants.{Specify, Activate, Merge, Reject, Order, Constrain, Relate};
ghost use Rattle.plan_defs.specs.Refusals.{IsArgumentKnown};
ghost use Rattle.plan_defs.specs.Settling.{IsSettled};
ghost use Rattle.model_core.specs.Content.{shown};
ghost use Rattle.db_posting.specs.Underway.{IsAtRest};
ghost use Rattle.db_store.specs.Stores.{snapshot_of, named_content};
ghost use Rattle.db_refusals.specs.Judging.{AreTold};
ghost use Rattle.db_refusals.specs.Reasons.{IsFirstReason};

use super::arguments::{Reading, takes};
use super::checks::{is_same_token, is_specified, stands};
use super::tokens::{
    arguments_count, has_tokens, is_full, state_of, tokens_count, undecided, variable_counts,
};
use crate::are_ordered;
use db_posting::is_rejectable;
use db_store::Store;
use domain_core::kind::Kind;
use eu_name::name::{TokenName, VarName};
use model_core::decision::{ConArg, Decision};
use model_core::model::Model;
use model_core::refusal::Refusal;
use plan_values::{have_same_predicate, is_declared};
use timeline_core::takes_place;
use timeline_core::unordered::settled_lists_decide_once;

// Whether the variable is there.
fn has_variable(store: &Store, name: &VarName) -> bool
    ensures { MatchBool result
        ((domain : Domain) × Gives (shown (named_content (snapshot_of store.now))) name.now domain)
        ((domain : Domain) → Gives (shown (named_content (snapshot_of store.now))) name.now domain → ⊥) }
{
    store.is_sound();
    match store.find_named(name) {
        Some(_number) => true,
        None => false,
    }
}

// Whether the argument is there, if it is a variable.
fn has_argument(store: &Store, argument: &ConArg) -> bool
    ensures { IsTrue result ↔ IsArgumentKnown (shown (named_content (snapshot_of store.now))) argument.now }
{
    match argument {
        ConArg::Var(name) => has_variable(store, name),
        ConArg::Value(_) => true,
    }
}

// Whether all the arguments are there.
fn has_arguments(store: &Store, arguments: &[ConArg]) -> bool
    ensures { IsTrue result ↔ All (IsArgumentKnown (shown (named_content (snapshot_of store.now)))) arguments.now }
{
    arguments
        .iter()
        .all(|argument| has_argument(store, argument))
}

// The first reason against giving the variable the value.
fn against_specify(
    model: &Model,
    store: &Store,
    decisions: &[Decision],
    name: &VarName,
    value: i32,
) -> Option<Refusal>
    requires { AreTold model.now decisions.now (snapshot_of store.now) }
    ensures { let state = shown (named_content (snapshot_of store.now)) in
        IsFirstReason model.now decisions.now state (Specify name.now value) result }
{
    if !has_variable(store, name) {
        return Some(Refusal::Unknown);
    }
    if is_specified(decisions, name) {
        return Some(Refusal::Decided);
    }
    if !is_declared(model, name, value) {
        return Some(Refusal::NotInDomain);
    }
    if !variable_counts(model, store.tokens(), name) {
        return Some(Refusal::NotActive);
    }
    None
}

// The first reason against letting the token take place.
fn against_activate(store: &Store, token: &TokenName) -> Option<Refusal>
    ensures { (model : Problem) (decisions : List Decided) → AreTold model decisions (snapshot_of store.now)
        → (let state = shown (named_content (snapshot_of store.now)) in
        IsFirstReason model decisions state (Activate token.now) result) }
{
    store.is_sound();
    if let Some(reason) = undecided(store.tokens(), token) {
        return Some(reason);
    }
    if is_full(store.tokens()) {
        return Some(Refusal::ActiveFull);
    }
    None
}

// The first reason against letting the token be the target.
fn against_merge(
    model: &Model,
    store: &Store,
    token: &TokenName,
    target: &TokenName,
) -> Option<Refusal>
    ensures { (decisions : List Decided) → AreTold model.now decisions (snapshot_of store.now)
        → (let state = shown (named_content (snapshot_of store.now)) in
        IsFirstReason model.now decisions state (Merge token.now target.now) result) }
{
    let Some(kept) = state_of(store.tokens(), target) else {
        return Some(Refusal::Unknown);
    };
    if let Some(reason) = undecided(store.tokens(), token) {
        return Some(reason);
    }
    if !takes_place(kept) {
        return Some(Refusal::NotActive);
    }
    if !have_same_predicate(model, token, target) {
        return Some(Refusal::NotSamePredicate);
    }
    None
}

// The first reason against letting the token not take place.
fn against_reject(model: &Model, store: &Store, token: &TokenName) -> Option<Refusal>
    ensures { (decisions : List Decided) → AreTold model.now decisions (snapshot_of store.now)
        → (let state = shown (named_content (snapshot_of store.now)) in
        IsFirstReason model.now decisions state (Reject token.now) result) }
{
    if let Some(reason) = undecided(store.tokens(), token) {
        return Some(reason);
    }
    if !is_rejectable(model, token) {
        return Some(Refusal::NotRejectable);
    }
    None
}

// The first reason against putting the one token before the other.
fn against_order(
    store: &Store,
    decisions: &[Decision],
    one: &TokenName,
    other: &TokenName,
) -> Option<Refusal>
    ensures { (model : Problem) → AreTold model decisions.now (snapshot_of store.now)
        → (let state = shown (named_content (snapshot_of store.now)) in
        IsFirstReason model decisions.now state (Order one.now other.now) result) }
{
    let Some(first) = state_of(store.tokens(), one) else {
        return Some(Refusal::Unknown);
    };
    let Some(second) = state_of(store.tokens(), other) else {
        return Some(Refusal::Unknown);
    };
    if are_ordered(decisions, one, other) {
        return Some(Refusal::Decided);
    }
    if !takes_place(first) {
        return Some(Refusal::NotActive);
    }
    if !takes_place(second) {
        return Some(Refusal::NotActive);
    }
    if is_same_token(one, other) {
        return Some(Refusal::SameToken);
    }
    None
}

// The first reason against letting the constraint hold of the arguments.
fn against_constrain(
    model: &Model,
    store: &Store,
    decisions: &[Decision],
    decision: &Decision,
    kind: Kind,
    arguments: &[ConArg],
) -> Option<Refusal>
    requires told { AreTold model.now decisions.now (snapshot_of store.now) }
    requires is { decision.now ≡ Constrain kind arguments.now }
    ensures { let state = shown (named_content (snapshot_of store.now)) in
        IsFirstReason model.now decisions.now state decision.now result }
{
    if !has_arguments(store, arguments) {
        return Some(Refusal::Unknown);
    }
    if !takes(model, Reading::Types, kind, arguments) {
        return Some(Refusal::WrongType);
    }
    if stands(decisions, decision) {
        return Some(Refusal::Decided);
    }
    if !takes(model, Reading::Values, kind, arguments) {
        return Some(Refusal::NotInDomain);
    }
    if !arguments_count(model, store.tokens(), arguments) {
        return Some(Refusal::NotActive);
    }
    None
}

// The first reason against letting a relation hold between the two tokens.
fn against_relate(
    model: &Model,
    store: &Store,
    decisions: &[Decision],
    decision: &Decision,
    one: &TokenName,
    other: &TokenName,
) -> Option<Refusal>
    requires told { AreTold model.now decisions.now (snapshot_of store.now) }
    requires is { (relation : Related) × (decision.now ≡ Relate relation one.now other.now) }
    ensures { let state = shown (named_content (snapshot_of store.now)) in
        IsFirstReason model.now decisions.now state decision.now result }
{
    if !has_tokens(store.tokens(), one, other) {
        return Some(Refusal::Unknown);
    }
    if stands(decisions, decision) {
        return Some(Refusal::Decided);
    }
    if !tokens_count(model, store.tokens(), one, other) {
        return Some(Refusal::NotActive);
    }
    if is_same_token(one, other) {
        return Some(Refusal::SameToken);
    }
    None
}

/// The first reason against the decision, where the store is at rest for a settled list of decisions.
pub fn first_reason(
    model: &Model,
    store: &Store,
    decisions: &[Decision],
    decision: &Decision,
) -> Option<Refusal>
    requires settled { IsSettled model.now decisions.now }
    requires rest { IsAtRest model.now decisions.now store.now.net.tables (snapshot_of store.now) }
    ensures { let state = shown (named_content (snapshot_of store.now)) in
        IsFirstReason model.now decisions.now state decision.now result }
{
    settled_lists_decide_once();
    match decision {
        Decision::Specify(name, value) => against_specify(model, store, decisions, name, *value),
        Decision::Activate(token) => against_activate(store, token),
        Decision::Merge(token, target) => against_merge(model, store, token, target),
        Decision::Reject(token) => against_reject(model, store, token),
        Decision::Order(one, other) => against_order(store, decisions, one, other),
        Decision::Constrain(kind, arguments) => {
            against_constrain(
                model,
                store,
                decisions,
                decision,
                *kind,
                arguments.as_slice(),
            )
        }
        Decision::Relate(_, one, other) => {
            against_relate(model, store, decisions, decision, one, other)
        }
    }
}
