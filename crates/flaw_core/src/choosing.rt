//! The choices of a flaw, by places in a view.

ghost use Rattle.std.specs.Prelude.{◌≡◌, List, [], ◌∷◌, ◌++◌, Some, IfOk, MatchBool, slice_get};
ghost use Rattle.eu_name.specs.declared.name.TokenName.{TokenName as Token};
ghost use Rattle.eu_name.specs.declared.name.VarName.{VarName as Variable};
ghost use Rattle.model_core.specs.declared.decision.Decision.{Decision as Named};
ghost use Rattle.model_core.specs.Tokens.{IsRejectable};
ghost use Rattle.model_core.specs.Views.{IsTokenAt};
ghost use Rattle.law_search.specs.Choices.{IsActivationLeft, IsRejectionLeft, AreTokenChoices, AreValueChoices};
ghost use Rattle.flaw_core.specs.Rules.{IsLeastFor, IsFirstAt, AreChoicesAt};
ghost use Rattle.flaw_core.specs.declared.choosing.Choice.TheVariants as by_places;
ghost use Rattle.flaw_core.specs.Gathering.{IsTarget};
ghost use Rattle.flaw_core.specs.Places.{IsVarAt};
ghost use Rattle.flaw_core.specs.Picking.{IsNamedBy, PicksChoice, PicksTarget};

use super::counting::are_active;
use super::flaw::{Flaw, VarPlace};
use super::variables::{domain_of, pred_at, token_name, variable_name};
use eu_name::name::TokenName;
use model_core::decision::Decision;
use model_core::model::{Model, RootKind};
use model_core::view::View;
use plan_values::tokens::root_at;
use std::alloc::AllocError;
use timeline_core::is_active;

/// A decision, by places in a view.
#[derive(Clone, Copy)]
pub enum Choice {
    Specify(VarPlace, i32),
    Activate(u32),
    Merge(u32, u32),
    Reject(u32),
    Order(u32, u32),
}

/// What stands at a number among the targets of a merge.
#[derive(Clone, Copy)]
pub enum Target {
    /// The token at this place.
    At(u32),
    /// There are fewer, so many less than the number.
    Past(u32),
}

// Whether the token at the place is active and of the predicate.
fn is_target<V: View>(model: &Model, view: &V, pred: u32, place: u32) -> bool
    requires model { V.model view.now ≡ model.now }
    requires least { IsLeastFor (V.model view.now) (V.decisions view.now) (V.state view.now) }
    ensures { MatchBool result
        ((token : Token) × IsTokenAt (V.state view.now) place token × IsTarget model.now (V.decisions view.now) pred token)
        ((token : Token) → IsTokenAt (V.state view.now) place token → IsTarget model.now (V.decisions view.now) pred token → ⊥) }
{
    if !is_active(view, place) {
        return false;
    }
    match pred_at(model, view, place) {
        Some(found) => found == pred,
        None => false,
    }
}

// What stands at this number among the active tokens of the predicate.
fn nth_target<V: View>(model: &Model, view: &V, pred: u32, number: u32) -> Target
    requires model { V.model view.now ≡ model.now }
    requires least { IsLeastFor (V.model view.now) (V.decisions view.now) (V.state view.now) }
    ensures { PicksTarget model.now (V.decisions view.now) (V.state view.now) pred number result }
{
    let mut left = number;
    for place in 0..view.count() {
        if !is_target(model, view, pred, place) {
            continue;
        }
        if left == 0 {
            return Target::At(place);
        }
        left -= 1;
    }
    Target::Past(left)
}

// Whether the token may be rejected.
fn may_be_rejected(model: &Model, token: &TokenName) -> bool
    ensures { MatchBool result (IsRejectable model.now token.now) (IsRejectable model.now token.now → ⊥) }
{
    if !token.steps.as_slice().is_empty() {
        return false;
    }
    match root_at(model, token.root) {
        Some(root) => matches!(root.kind, RootKind::Rejectable),
        None => false,
    }
}

// The rejection of the token at the place, if it may be rejected and the number is that of the first choice.
fn rejection<V: View>(model: &Model, view: &V, place: u32, number: u32) -> Option<Choice>
    requires { V.model view.now ≡ model.now }
    ensures { (token : Token) (choices : List Named) → IsTokenAt (V.state view.now) place token
        → IsRejectionLeft model.now token choices → PicksChoice (V.state view.now) choices number result }
{
    if number > 0 {
        return None;
    }
    match view.token_at(place) {
        Some(token) => {
            if may_be_rejected(model, token) {
                Some(Choice::Reject(place))
            } else {
                None
            }
        }
        None => None,
    }
}

// The choice of this number among the activation and the rejection of the token at the place.
fn own_choice<V: View>(
    model: &Model,
    view: &V,
    place: u32,
    number: u32,
    bound: u32,
) -> Option<Choice>
    requires model { V.model view.now ≡ model.now }
    requires least { IsLeastFor (V.model view.now) (V.decisions view.now) (V.state view.now) }
    ensures { (token : Token) (activation rejection : List Named) → IsTokenAt (V.state view.now) place token
        → IsActivationLeft model.now (V.decisions view.now) bound token activation → IsRejectionLeft model.now token rejection
        → PicksChoice (V.state view.now) (activation ++ rejection) number result }
{
    if are_active(view, bound) {
        return rejection(model, view, place, number);
    }
    if number == 0 {
        return Some(Choice::Activate(place));
    }
    rejection(model, view, place, number - 1)
}

// The choice of this number for the token at the place, of which nothing is decided.
fn token_choice<V: View>(
    model: &Model,
    view: &V,
    place: u32,
    number: u32,
    bound: u32,
) -> Option<Choice>
    requires model { V.model view.now ≡ model.now }
    requires least { IsLeastFor (V.model view.now) (V.decisions view.now) (V.state view.now) }
    ensures { (token : Token) (choices : List Named) → IsTokenAt (V.state view.now) place token
        → AreTokenChoices model.now (V.decisions view.now) (V.state view.now) bound token choices
        → PicksChoice (V.state view.now) choices number result }
{
    let Some(pred) = pred_at(model, view, place) else {
        return None;
    };
    match nth_target(model, view, pred, number) {
        Target::At(target) => Some(Choice::Merge(place, target)),
        Target::Past(left) => own_choice(model, view, place, left, bound),
    }
}

// The value of this number of the variable at the place.
fn value_choice<V: View>(view: &V, at: VarPlace, number: u32) -> Option<Choice>
    requires { IsLeastFor (V.model view.now) (V.decisions view.now) (V.state view.now) }
    ensures { (name : Variable) (choices : List Named) → IsVarAt (V.state view.now) at name
        → AreValueChoices (V.state view.now) name choices → PicksChoice (V.state view.now) choices number result }
{
    let Some(domain) = domain_of(view, at) else {
        return None;
    };
    match domain.nth(number) {
        Some(value) => Some(Choice::Specify(at, value)),
        None => None,
    }
}

// The order of this number of the tokens at the two places.
fn order_choice(one: u32, other: u32, number: u32) -> Option<Choice>
    ensures { result ≡ slice_get (by_places.Order one other ∷ by_places.Order other one ∷ []) number }
{
    match number {
        0 => Some(Choice::Order(one, other)),
        1 => Some(Choice::Order(other, one)),
        _ => None,
    }
}

// The choice of this number for the flaw.
fn find<V: View>(model: &Model, view: &V, flaw: Flaw, number: u32, bound: u32) -> Option<Choice>
    requires model { V.model view.now ≡ model.now }
    requires least { IsLeastFor (V.model view.now) (V.decisions view.now) (V.state view.now) }
    requires first { IsFirstAt model.now (V.decisions view.now) (V.state view.now) (Some flaw) }
    ensures { (choices : List Named) → AreChoicesAt model.now (V.decisions view.now) (V.state view.now) bound flaw choices
        → PicksChoice (V.state view.now) choices number result }
{
    match flaw {
        Flaw::Token(place) => token_choice(model, view, place, number, bound),
        Flaw::Value(at) => value_choice(view, at, number),
        Flaw::Pair(one, other) => order_choice(one, other, number),
        Flaw::Time(at) => value_choice(view, at, number),
    }
}

// The order of the tokens at the two places, by names.
fn named_order<V: View>(view: &V, one: u32, other: u32) -> Result<Decision, AllocError>
    requires { (decision : Named) × IsNamedBy (V.state view.now) (by_places.Order one other) decision }
    ensures { IfOk result (IsNamedBy (V.state view.now) (by_places.Order one other)) }
{
    let first = token_name(view, one)?;
    match token_name(view, other) {
        Ok(second) => Ok(Decision::Order(first, second)),
        Err(none) => Err(none),
    }
}

// The merge of the token at the one place into the one at the other, by names.
fn named_merge<V: View>(view: &V, one: u32, other: u32) -> Result<Decision, AllocError>
    requires { (decision : Named) × IsNamedBy (V.state view.now) (by_places.Merge one other) decision }
    ensures { IfOk result (IsNamedBy (V.state view.now) (by_places.Merge one other)) }
{
    let token = token_name(view, one)?;
    match token_name(view, other) {
        Ok(target) => Ok(Decision::Merge(token, target)),
        Err(none) => Err(none),
    }
}

// The decision by names.
fn named<V: View>(view: &V, choice: Choice) -> Result<Decision, AllocError>
    requires { (decision : Named) × IsNamedBy (V.state view.now) choice decision }
    ensures { IfOk result (IsNamedBy (V.state view.now) choice) }
{
    match choice {
        Choice::Specify(at, value) => Ok(Decision::Specify(variable_name(view, at)?, value)),
        Choice::Activate(place) => Ok(Decision::Activate(token_name(view, place)?)),
        Choice::Merge(place, target) => named_merge(view, place, target),
        Choice::Reject(place) => Ok(Decision::Reject(token_name(view, place)?)),
        Choice::Order(one, other) => named_order(view, one, other),
    }
}

/// The choice of this number for the flaw, from 0.
pub fn choose<V: View>(
    model: &Model,
    view: &V,
    flaw: Flaw,
    number: u32,
    bound: u32,
) -> Result<Option<Decision>, AllocError>
    requires model { V.model view.now ≡ model.now }
    requires least { IsLeastFor (V.model view.now) (V.decisions view.now) (V.state view.now) }
    requires first { IsFirstAt model.now (V.decisions view.now) (V.state view.now) (Some flaw) }
    ensures { IfOk result (λ choice. (choices : List Named)
        → AreChoicesAt model.now (V.decisions view.now) (V.state view.now) bound flaw choices
        → choice ≡ slice_get choices number) }
{
    match find(model, view, flaw, number, bound) {
        Some(choice) => Ok(Some(named(view, choice)?)),
        None => Ok(None),
    }
}
