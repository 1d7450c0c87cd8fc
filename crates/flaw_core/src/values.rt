//! The first variable without a value: a global, an object, a parameter or a local.

ghost use Rattle.std.specs.Prelude.{◌≡◌, ℕ};
ghost use Rattle.eu_name.specs.declared.name.TokenName.{TokenName};
ghost use Rattle.eu_name.specs.declared.name.Part.TheVariants as parts;
ghost use Rattle.model_core.specs.declared.rule.Slot.{Slot};
ghost use Rattle.model_core.specs.Tokens.{HasToken};
ghost use Rattle.model_core.specs.Views.{IsTokenAt};
ghost use Rattle.flaw_core.specs.declared.flaw.VarPlace.TheVariants as at;
ghost use Rattle.flaw_core.specs.Rules.{IsLeastFor};
ghost use Rattle.flaw_core.specs.Places.{IsOfUnrejected, IsUntimedAt};
ghost use Rattle.flaw_core.specs.Seeking.{FindsFirst, IsValueAt, IsGlobalFlaw, IsParameterFlaw, IsRuleFlawAt, IsLocalFlawAt, IsValueFlawOf, IsTokenValueFlaw, IsValueFlaw};

use super::flaw::{Flaw, VarPlace};
use super::variables::{
    count_locals, count_params, count_rules, has_several, is_rejected, pred_at,
};
use eu_name::name::Part;
use model_core::model::Model;
use model_core::view::View;

// The variable at the place, if it has more than one value.
fn unbound_at<V: View>(view: &V, at: VarPlace) -> Option<Flaw>
    requires least { IsLeastFor (V.model view.now) (V.decisions view.now) (V.state view.now) }
    requires kept { IsOfUnrejected (V.decisions view.now) (V.state view.now) at }
    requires untimed { IsUntimedAt (V.state view.now) at }
    ensures { FindsFirst (V.model view.now) (V.decisions view.now) (V.state view.now) (IsValueAt (V.state view.now) at) result }
{
    if has_several(view, at) {
        Some(Flaw::Value(at))
    } else {
        None
    }
}

// The first global that has more than one value.
fn unbound_global<V: View>(model: &Model, view: &V) -> Option<Flaw>
    requires model { V.model view.now ≡ model.now }
    requires least { IsLeastFor (V.model view.now) (V.decisions view.now) (V.state view.now) }
    ensures { FindsFirst (V.model view.now) (V.decisions view.now) (V.state view.now) (IsGlobalFlaw (V.state view.now)) result }
{
    for number in 0..model.problem.globals.len() {
        if let Some(flaw) = unbound_at(view, VarPlace::Global(number as u32)) {
            return Some(flaw);
        }
    }
    None
}

// The first parameter of the token at the place that has more than one value.
fn unbound_parameter<V: View>(model: &Model, view: &V, place: u32, pred: u32) -> Option<Flaw>
    requires model { V.model view.now ≡ model.now }
    requires least { IsLeastFor (V.model view.now) (V.decisions view.now) (V.state view.now) }
    requires at { (token : TokenName) × IsTokenAt (V.state view.now) place token
        × ((slot : Slot) × HasToken model.now token slot × (slot.pred ≡ pred)) }
    requires kept { IsOfUnrejected (V.decisions view.now) (V.state view.now) (at.Part place parts.Object) }
    ensures { FindsFirst (V.model view.now) (V.decisions view.now) (V.state view.now) (IsParameterFlaw (V.state view.now) place) result }
{
    for number in 0..count_params(model, pred) {
        if let Some(flaw) = unbound_at(view, VarPlace::Part(place, Part::Param(number))) {
            return Some(flaw);
        }
    }
    None
}

// The first local of this rule of the token at the place that has more than one value.
fn unbound_in_rule<V: View>(
    model: &Model,
    view: &V,
    place: u32,
    pred: u32,
    rule: u16,
) -> Option<Flaw>
    requires model { V.model view.now ≡ model.now }
    requires least { IsLeastFor (V.model view.now) (V.decisions view.now) (V.state view.now) }
    requires at { (token : TokenName) × IsTokenAt (V.state view.now) place token
        × ((slot : Slot) × HasToken model.now token slot × (slot.pred ≡ pred)) }
    requires kept { IsOfUnrejected (V.decisions view.now) (V.state view.now) (at.Part place parts.Object) }
    ensures { FindsFirst (V.model view.now) (V.decisions view.now) (V.state view.now) (IsRuleFlawAt (V.state view.now) place rule) result }
{
    for number in 0..count_locals(model, pred, rule) {
        let at = VarPlace::Local {
            token: place,
            rule,
            number,
        };
        if let Some(flaw) = unbound_at(view, at) {
            return Some(flaw);
        }
    }
    None
}

// The first local of the token at the place that has more than one value.
fn unbound_local<V: View>(model: &Model, view: &V, place: u32, pred: u32) -> Option<Flaw>
    requires model { V.model view.now ≡ model.now }
    requires least { IsLeastFor (V.model view.now) (V.decisions view.now) (V.state view.now) }
    requires at { (token : TokenName) × IsTokenAt (V.state view.now) place token
        × ((slot : Slot) × HasToken model.now token slot × (slot.pred ≡ pred)) }
    requires kept { IsOfUnrejected (V.decisions view.now) (V.state view.now) (at.Part place parts.Object) }
    ensures { FindsFirst (V.model view.now) (V.decisions view.now) (V.state view.now) (IsLocalFlawAt (V.state view.now) place) result }
{
    for rule in 0..count_rules(model, pred) {
        if let Some(flaw) = unbound_in_rule(model, view, place, pred, rule) {
            return Some(flaw);
        }
    }
    None
}

// The first variable of the token at the place that has more than one value, where the token isn't rejected.
fn unbound_in_token<V: View>(model: &Model, view: &V, place: u32, pred: u32) -> Option<Flaw>
    requires model { V.model view.now ≡ model.now }
    requires least { IsLeastFor (V.model view.now) (V.decisions view.now) (V.state view.now) }
    requires at { (token : TokenName) × IsTokenAt (V.state view.now) place token
        × ((slot : Slot) × HasToken model.now token slot × (slot.pred ≡ pred)) }
    requires kept { IsOfUnrejected (V.decisions view.now) (V.state view.now) (at.Part place parts.Object) }
    ensures { FindsFirst (V.model view.now) (V.decisions view.now) (V.state view.now) (IsValueFlawOf (V.state view.now) place) result }
{
    if let Some(flaw) = unbound_at(view, VarPlace::Part(place, Part::Object)) {
        return Some(flaw);
    }
    if let Some(flaw) = unbound_parameter(model, view, place, pred) {
        return Some(flaw);
    }
    unbound_local(model, view, place, pred)
}

// The first variable of the token at the place that has more than one value.
fn unbound_of_token<V: View>(model: &Model, view: &V, place: u32) -> Option<Flaw>
    requires model { V.model view.now ≡ model.now }
    requires least { IsLeastFor (V.model view.now) (V.decisions view.now) (V.state view.now) }
    ensures { FindsFirst (V.model view.now) (V.decisions view.now) (V.state view.now) (IsValueFlawOf (V.state view.now) place) result }
{
    if is_rejected(view, place) {
        return None;
    }
    match pred_at(model, view, place) {
        Some(pred) => unbound_in_token(model, view, place, pred),
        None => None,
    }
}

// The first variable of a token that has more than one value.
fn unbound_of_tokens<V: View>(model: &Model, view: &V) -> Option<Flaw>
    requires model { V.model view.now ≡ model.now }
    requires least { IsLeastFor (V.model view.now) (V.decisions view.now) (V.state view.now) }
    ensures { FindsFirst (V.model view.now) (V.decisions view.now) (V.state view.now) (IsTokenValueFlaw (V.state view.now)) result }
{
    for place in 0..view.count() {
        if let Some(flaw) = unbound_of_token(model, view, place) {
            return Some(flaw);
        }
    }
    None
}

/// The first variable that has more than one value and is no time.
pub fn unbound_value<V: View>(model: &Model, view: &V) -> Option<Flaw>
    requires model { V.model view.now ≡ model.now }
    requires least { IsLeastFor (V.model view.now) (V.decisions view.now) (V.state view.now) }
    ensures { FindsFirst (V.model view.now) (V.decisions view.now) (V.state view.now) IsValueFlaw result }
{
    if let Some(flaw) = unbound_global(model, view) {
        return Some(flaw);
    }
    unbound_of_tokens(model, view)
}
