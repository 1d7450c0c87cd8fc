//! What a database tells of its state, in plain values.

ghost use Rattle.std.specs.Prelude.{◌≡◌, IfOk};
ghost use Rattle.model_core.specs.Lawful.{IsLawful};
ghost use Rattle.plan_db.specs.Database.{IsSound};
ghost use Rattle.plan_defs.specs.Plans.{IsPlanOf};
ghost use Rattle.tests_database.specs.Seen.{IsSeenOf};

use super::names::{decision, token, variable};
use super::steps::Fate;
use domain_core::domain::Dom;
use eu_name::name::{TokenName, VarName};
use model_core::decision::Decision;
use model_core::model::Model;
use model_core::view::{TokenState, View};
use plan_db::{Db, QueryFault, StoreView};
use plan_defs::plan::Plan;
use plan_states::{PlanOfFault, plan_of};
use plan_text::write_plan;
use std::alloc::Global;

/// The model of the database.
pub fn model_of(db: &Db) -> &Model
    ensures lawful { IsLawful result.now }
    ensures model { result.now ≡ db.now.database.model }
    ensures sound { IsSound db.now.database }
{
    db.model()
}

// The least value, the greatest, and how many there are.
type Values = (i32, i32, u32);

fn values(domain: Option<&Dom>) -> Option<Values> {
    match domain {
        Some(domain) => Some((domain.lo(), domain.hi(), domain.count())),
        None => None,
    }
}

// The place of the token in the order of names.
fn place_of(view: &StoreView<'_>, token: &TokenName) -> Option<u32> {
    for place in 0..view.count() {
        if let Some(name) = view.token_at(place) {
            if name == token {
                return Some(place);
            }
        }
    }
    None
}

// What is seen of the variable at the place of its token; a global has no token.
fn seen_at_place(view: &StoreView<'_>, variable: &VarName) -> Option<Values> {
    match variable {
        VarName::Token(token, part) => match place_of(view, token) {
            Some(place) => values(view.domain_at(place, *part)),
            None => None,
        },
        VarName::Local {
            token,
            rule,
            number,
        } => match place_of(view, token) {
            Some(place) => values(view.local_at(place, *rule, *number)),
            None => None,
        },
        VarName::Global(_) => values(view.domain(variable)),
    }
}

// What is seen of the variable, where it is seen alike by its name and at its place.
fn seen(view: &StoreView<'_>, variable: &VarName) -> Option<Values> {
    let named = values(view.domain(variable));
    if named == seen_at_place(view, variable) {
        named
    } else {
        None
    }
}

// The values that the variable may still have, where the view and the database tell the same.
fn told(db: &Db, variable: &VarName) -> Option<Values> {
    let Ok(view) = db.view() else {
        return None;
    };
    let Ok(domain) = db.domain(variable) else {
        return None;
    };
    let told = values(Some(domain));
    if told == seen(&view, variable) {
        told
    } else {
        None
    }
}

/// The values that the variable of this name may still have.
pub fn domain(alloc: Global, db: &Db, name: &str) -> Option<Values> {
    match variable(alloc, model_of(db), name) {
        Some(variable) => told(db, &variable),
        None => None,
    }
}

/// Whether nothing is told of the variable of this name, which the model has, for this reason.
pub fn is_untold(alloc: Global, db: &Db, name: &str, reason: QueryFault) -> bool {
    match variable(alloc, model_of(db), name) {
        Some(variable) => matches!(db.domain(&variable), Err(fault) if fault == reason),
        None => false,
    }
}

/// Whether there is nothing to be seen, since nothing is possible.
pub fn is_unseen(db: &Db) -> bool {
    !db.is_consistent() && matches!(db.view(), Err(QueryFault::Inconsistent))
}

fn fate(state: Option<TokenState>) -> Fate {
    match state {
        None => Fate::Absent,
        Some(TokenState::Inactive) => Fate::Inactive,
        Some(TokenState::Active) => Fate::Active,
        Some(TokenState::Fact) => Fate::Fact,
        Some(TokenState::Merged(place)) => Fate::Merged(place),
        Some(TokenState::Rejected) => Fate::Rejected,
    }
}

fn fate_in(view: &StoreView<'_>, token: &TokenName) -> Fate {
    match place_of(view, token) {
        Some(place) => fate(view.state_at(place)),
        None => Fate::Absent,
    }
}

fn fate_of(db: &Db, token: &TokenName) -> Option<Fate> {
    match db.view() {
        Ok(view) => Some(fate_in(&view, token)),
        Err(_fault) => None,
    }
}

/// What has become of the token of this name, which the model has.
pub fn token_fate(alloc: Global, db: &Db, name: &str) -> Option<Fate> {
    match token(alloc, model_of(db), name) {
        Some(token) => fate_of(db, &token),
        None => None,
    }
}

// Whether the token at the place is the one of this name.
fn is_token_at(
    alloc: Global,
    model: &Model,
    view: &StoreView<'_>,
    place: u32,
    name: Option<&str>,
) -> bool
    requires { IsLawful model.now }
{
    let Some(name) = name else {
        return false;
    };
    match token(alloc, model, name) {
        Some(token) => matches!(view.token_at(place), Some(found) if found == &token),
        None => false,
    }
}

fn are_tokens(alloc: Global, model: &Model, view: &StoreView<'_>, names: &str) -> bool
    requires { IsLawful model.now }
{
    let mut names = names.split(' ');
    let mut all = true;
    for place in 0..view.count() {
        all = all && is_token_at(alloc, model, view, place, names.next());
    }
    all && names.next().is_none()
}

/// Whether the tokens are those of these names, in this order, between blanks.
pub fn has_tokens(alloc: Global, db: &Db, names: &str) -> bool {
    match db.view() {
        Ok(view) => are_tokens(alloc, model_of(db), &view, names),
        Err(_fault) => false,
    }
}

fn ordered_in(view: &StoreView<'_>, first: &TokenName, second: &TokenName) -> Option<bool> {
    match place_of(view, first) {
        Some(one) => match place_of(view, second) {
            Some(other) => Some(view.ordered(one, other)),
            None => None,
        },
        None => None,
    }
}

fn are_ordered(
    alloc: Global,
    model: &Model,
    view: &StoreView<'_>,
    first: &str,
    second: &str,
) -> Option<bool>
    requires { IsLawful model.now }
{
    match token(alloc, model, first) {
        Some(one) => match token(alloc, model, second) {
            Some(other) => ordered_in(view, &one, &other),
            None => None,
        },
        None => None,
    }
}

/// Whether the decisions put the one token before the other.
pub fn ordered(alloc: Global, db: &Db, first: &str, second: &str) -> Option<bool> {
    match db.view() {
        Ok(view) => are_ordered(alloc, model_of(db), &view, first, second),
        Err(_fault) => None,
    }
}

fn is_choice(alloc: Global, model: &Model, found: &Decision, choice: Option<&str>) -> bool
    requires { IsLawful model.now }
{
    let Some(choice) = choice else {
        return false;
    };
    match decision(alloc, model, choice) {
        Some(wanted) => found == &wanted,
        None => false,
    }
}

/// Whether these decisions stand, as they are named between commas.
pub fn stand(alloc: Global, model: &Model, decisions: &[Decision], choices: &str) -> bool
    requires { IsLawful model.now }
{
    let mut choices = choices.split_terminator(", ");
    let mut all = true;
    for found in decisions {
        all = all && is_choice(alloc, model, found, choices.next());
    }
    all && choices.next().is_none()
}

fn is_written(alloc: Global, model: &Model, plan: &Plan, text: &str) -> bool
    requires lawful { IsLawful model.now }
    requires plan { IsPlanOf model.now plan.now }
{
    match write_plan(alloc, model, plan) {
        Ok(written) => written.as_slice() == text.as_bytes(),
        Err(_none) => false,
    }
}

// The plan of what is seen.
fn seen_plan(alloc: Global, model: &Model, view: &StoreView<'_>) -> Result<Plan, PlanOfFault>
    requires { IsSeenOf model.now view.now }
    ensures { IfOk result (IsPlanOf model.now) }
{
    plan_of(alloc, model, view)
}

// Whether this is the text of the plan.
fn has_text(alloc: Global, model: &Model, plan: Result<Plan, PlanOfFault>, text: &str) -> bool
    requires lawful { IsLawful model.now }
    requires plan { IfOk plan (IsPlanOf model.now) }
{
    match plan {
        Ok(plan) => is_written(alloc, model, &plan, text),
        Err(_fault) => false,
    }
}

// The plan of what the database shows.
fn plan_seen(alloc: Global, db: &Db, model: &Model) -> Result<Plan, PlanOfFault>
    requires model { db.now.database.model ≡ model.now }
    requires sound { IsSound db.now.database }
    ensures { IfOk result (IsPlanOf model.now) }
{
    match db.view() {
        Ok(view) => seen_plan(alloc, model, &view),
        Err(_fault) => Err(PlanOfFault::Memory),
    }
}

/// Whether the state has no flaw, and this is the text of its plan.
pub fn has_plan(alloc: Global, db: &Db, text: &str) -> bool {
    let model = model_of(db);
    has_text(alloc, model, plan_seen(alloc, db, model), text)
}

/// Whether the state has a flaw.
pub fn is_flawed(alloc: Global, db: &Db) -> bool {
    matches!(plan_seen(alloc, db, model_of(db)), Err(PlanOfFault::Open))
}
