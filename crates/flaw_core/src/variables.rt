//! Variables by their places in a view.

ghost use Rattle.std.specs.Prelude.{◌≡◌, ◌↔◌, ◌<◌, ℕ, ℤ, length, slice_get, option_copied, Some, IfOk, IsTrue, MatchBool, MatchOption};
ghost use Rattle.domain_core.specs.Domain.{IsSingle};
ghost use Rattle.eu_name.specs.declared.name.TokenName.{TokenName};
ghost use Rattle.eu_name.specs.declared.name.VarName.{VarName as Variable};
ghost use Rattle.model_core.specs.declared.class.Pred.{Pred as Predicate};
ghost use Rattle.model_core.specs.declared.rule.Rule.{Rule};
ghost use Rattle.model_core.specs.declared.rule.Slot.{Slot};
ghost use Rattle.model_core.specs.declared.variable.VarDecl.{VarDecl};
ghost use Rattle.model_core.specs.Decided.{IsRejected};
ghost use Rattle.model_core.specs.Lawful.{IsLawful};
ghost use Rattle.model_core.specs.State.{AreInOrder};
ghost use Rattle.model_core.specs.Tokens.{HasRule, HasToken};
ghost use Rattle.model_core.specs.Variables.{HasParameter};
ghost use Rattle.model_core.specs.Views.{IsTokenAt};
ghost use Rattle.flaw_core.specs.Rules.{IsLeastFor};
ghost use Rattle.plan_defs.specs.Surveying.{IsRejectedState};
ghost use Rattle.flaw_core.specs.Places.{IsVarAt, IsAnyAt};
ghost use Rattle.flaw_core.specs.Seeking.{HasSeveral, IsDomainOf};

use super::flaw::VarPlace;
use domain_core::domain::Dom;
use eu_name::name::{TokenName, VarName};
use model_core::class::Pred;
use model_core::model::Model;
use model_core::view::{TokenState, View};
use plan_values::tokens::pred_of;
use std::alloc::AllocError;

/// The domain of the variable at the place.
pub fn domain_of<V: View>(view: &V, at: VarPlace) -> Option<&Dom>
    ensures { IsDomainOf (V.state view.now) at (option_copied result) }
{
    match at {
        VarPlace::Global(number) => view.domain(&VarName::Global(number)),
        VarPlace::Part(place, part) => view.domain_at(place, part),
        VarPlace::Local {
            token,
            rule,
            number,
        } => view.local_at(token, rule, number),
    }
}

/// Whether the variable at the place has more than one value.
pub fn has_several<V: View>(view: &V, at: VarPlace) -> bool
    requires { AreInOrder (V.state view.now) }
    ensures { MatchBool result
        ((name : Variable) × IsVarAt (V.state view.now) at name × HasSeveral (V.state view.now) name)
        ((name : Variable) → IsVarAt (V.state view.now) at name → HasSeveral (V.state view.now) name → ⊥) }
{
    match domain_of(view, at) {
        Some(domain) => is_unbound(domain),
        None => false,
    }
}

// Whether the domain has more than one value.
fn is_unbound(domain: &Dom) -> bool
    ensures { MatchBool result
        ((value : ℤ) → IsSingle domain.now value → ⊥)
        ((value : ℤ) × IsSingle domain.now value) }
{
    match domain.single() {
        Some(_) => false,
        None => true,
    }
}

/// A copy of the name of the token at the place.
pub fn token_name<V: View>(view: &V, place: u32) -> Result<TokenName, AllocError>
    requires { (token : TokenName) × IsTokenAt (V.state view.now) place token }
    ensures { IfOk result (λ name. IsTokenAt (V.state view.now) place name) }
{
    match view.token_at(place) {
        Some(token) => token.copy(),
        None => unreachable!(),
    }
}

/// The name of the variable at the place.
pub fn variable_name<V: View>(view: &V, at: VarPlace) -> Result<VarName, AllocError>
    requires { IsAnyAt (V.state view.now) at }
    ensures { IfOk result (λ name. IsVarAt (V.state view.now) at name) }
{
    match at {
        VarPlace::Global(number) => Ok(VarName::Global(number)),
        VarPlace::Part(place, part) => Ok(VarName::Token(token_name(view, place)?, part)),
        VarPlace::Local {
            token,
            rule,
            number,
        } => Ok(VarName::Local {
            token: token_name(view, token)?,
            rule,
            number,
        }),
    }
}

// Whether a token in this state is rejected.
fn says_rejected(state: TokenState) -> bool
    ensures { IsTrue result ↔ IsRejectedState state }
{
    match state {
        TokenState::Rejected => true,
        TokenState::Active => false,
        TokenState::Fact => false,
        TokenState::Inactive => false,
        TokenState::Merged(_) => false,
    }
}

/// Whether the token at the place is rejected.
pub fn is_rejected<V: View>(view: &V, place: u32) -> bool
    requires { IsLeastFor (V.model view.now) (V.decisions view.now) (V.state view.now) }
    ensures { MatchBool result
        ((token : TokenName) → IsTokenAt (V.state view.now) place token → IsRejected (V.decisions view.now) token)
        ((token : TokenName) → IsTokenAt (V.state view.now) place token → IsRejected (V.decisions view.now) token → ⊥) }
{
    match view.state_at(place) {
        Some(state) => says_rejected(state),
        None => false,
    }
}

/// The number of the predicate of the token at the place.
pub fn pred_at<V: View>(model: &Model, view: &V, place: u32) -> Option<u32>
    ensures { MatchOption result
        ((token : TokenName) (slot : Slot) → IsTokenAt (V.state view.now) place token → HasToken model.now token slot → ⊥)
        (λ pred. (token : TokenName) × IsTokenAt (V.state view.now) place token
        × ((slot : Slot) × HasToken model.now token slot × (slot.pred ≡ pred))) }
{
    match view.token_at(place) {
        Some(token) => pred_of(model, token),
        None => None,
    }
}

// The predicate of this number.
fn pred_in(model: &Model, number: u32) -> Option<&Pred>
    ensures { MatchOption result
        ((pred : Predicate) → slice_get model.now.preds number ≡ Some pred → ⊥)
        (λ pred. slice_get model.now.preds number ≡ Some pred.now) }
{
    model.preds.as_slice().get(number as usize)
}

/// How many parameters a token of the predicate of this number has.
pub fn count_params(model: &Model, pred: u32) -> u16
    requires { IsLawful model.now }
    ensures { (number : ℕ) (variable : VarDecl) → HasParameter model.now pred number variable → number < result }
{
    match pred_in(model, pred) {
        Some(found) => found.params.len() as u16,
        None => 0,
    }
}

/// How many rules it has.
pub fn count_rules(model: &Model, pred: u32) -> u16
    requires { IsLawful model.now }
    ensures { (number : ℕ) (rule : Rule) → HasRule model.now pred number rule → number < result }
{
    match pred_in(model, pred) {
        Some(found) => found.rules.len() as u16,
        None => 0,
    }
}

/// How many locals its rule of this number has.
pub fn count_locals(model: &Model, pred: u32, rule: u16) -> u16
    requires { IsLawful model.now }
    ensures { (found : Rule) (number : ℕ) (variable : VarDecl)
        → HasRule model.now pred rule found → slice_get found.locals number ≡ Some variable → number < result }
{
    match model.rule_of(pred, rule) {
        Some(found) => found.locals.len() as u16,
        None => 0,
    }
}
