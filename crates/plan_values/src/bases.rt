//! Whether parts of tokens are declared with values.

ghost use Rattle.std.specs.Prelude.{◌≡◌, ◌++◌, ◌∷◌, [], pos, ◌-ℤ◌, MatchBool, MatchOption};
ghost use Rattle.domain_core.specs.Domain.{Range, Has};
ghost use Rattle.eu_name.specs.declared.name.VarName.TheVariants as variables;
ghost use Rattle.model_core.specs.declared.rule.Slot.{Slot};
ghost use Rattle.model_core.specs.Names.{token_at};
ghost use Rattle.model_core.specs.Tokens.{HasToken, LeadsToSlot, HasPred};
ghost use Rattle.plan_defs.specs.Refusals.{IsDeclared};
ghost use Rattle.plan_values.specs.Bases.{BaseHas, MayBeObject, MayBeParameter};

use crate::tokens::{pred_at, root_at};
use eu_name::name::{Part, Step, TokenName};
use model_core::model::Model;
use model_core::rule::Slot;
use model_core::variable::Base;

/// Whether the base has the value.
pub fn base_has(base: &Base, value: i32) -> bool
    ensures { MatchBool result (BaseHas base.now value) (BaseHas base.now value → ⊥) }
{
    match base {
        Base::Given(domain) => domain.has(value),
        Base::Void => false,
    }
}

// Whether a token may start or end then.
fn is_time(model: &Model, value: i32) -> bool
    ensures { MatchBool result
        (Has (Range model.now.problem.start model.now.problem.end) value)
        (Has (Range model.now.problem.start model.now.problem.end) value → ⊥) }
{
    model.problem.start <= value && value <= model.problem.end
}

// Whether a token may last that long.
fn is_duration(model: &Model, value: i32) -> bool
    ensures { MatchBool result
        (Has (Range (pos 1) (model.now.problem.end -ℤ model.now.problem.start)) value)
        (Has (Range (pos 1) (model.now.problem.end -ℤ model.now.problem.start)) value → ⊥) }
{
    let longest = i64::from(model.problem.end) - i64::from(model.problem.start);
    1 <= value && i64::from(value) <= longest
}

// The slot to which the step leads from a token of the predicate.
fn slot_behind(model: &Model, pred: u32, step: Step) -> Option<&Slot>
    ensures { MatchOption result
        ((slot : Slot) → LeadsToSlot model.now pred step slot → ⊥)
        (λ slot. LeadsToSlot model.now pred step slot.now) }
{
    match model.rule_of(pred, step.rule) {
        Some(rule) => rule.slots.as_slice().get(usize::from(step.slot)),
        None => None,
    }
}

// The slot that asks for the token to which the steps, and then the last one, lead from the root.
fn slot_of<'a>(model: &'a Model, root: u32, front: &[Step], last: Step) -> Option<&'a Slot>
    ensures { MatchOption result
        ((slot : Slot) → HasToken model.now (token_at root (front.now ++ last ∷ [])) slot → ⊥)
        (λ slot. HasToken model.now (token_at root (front.now ++ last ∷ [])) slot.now) }
{
    match pred_at(model, root, front) {
        Some(pred) => slot_behind(model, pred, last),
        None => None,
    }
}

// Whether a root may be on the object.
fn root_may_be(model: &Model, root: u32, value: i32) -> bool
    ensures { MatchBool result
        (MayBeObject model.now (token_at root []) value)
        (MayBeObject model.now (token_at root []) value → ⊥) }
{
    match root_at(model, root) {
        Some(root) => root.object.has(value),
        None => false,
    }
}

// Whether a token that a slot asks for may be on the object.
fn asked_may_be(model: &Model, root: u32, front: &[Step], last: Step, value: i32) -> bool
    ensures { MatchBool result
        (MayBeObject model.now (token_at root (front.now ++ last ∷ [])) value)
        (MayBeObject model.now (token_at root (front.now ++ last ∷ [])) value → ⊥) }
{
    match slot_of(model, root, front, last) {
        Some(slot) => base_has(&slot.object, value),
        None => false,
    }
}

// Whether the token may be on the object.
fn may_be_object(model: &Model, token: &TokenName, value: i32) -> bool
    ensures { MatchBool result
        (MayBeObject model.now token.now value)
        (MayBeObject model.now token.now value → ⊥) }
{
    match token.steps.as_slice().split_last() {
        Some((last, front)) => asked_may_be(model, token.root, front, *last, value),
        None => root_may_be(model, token.root, value),
    }
}

// Whether the parameter of this number of a token of the predicate may have the value.
fn may_be_parameter(model: &Model, pred: u32, number: u16, value: i32) -> bool
    ensures { MatchBool result
        (MayBeParameter model.now pred number value)
        (MayBeParameter model.now pred number value → ⊥) }
{
    match model.preds.as_slice().get(pred as usize) {
        Some(pred) => match pred.params.as_slice().get(usize::from(number)) {
            Some(variable) => base_has(&variable.base, value),
            None => false,
        },
        None => false,
    }
}

/// Whether this part of the token, which is of the predicate, is declared with the value.
pub fn is_part_declared(model: &Model, token: &TokenName, pred: u32, part: Part, value: i32) -> bool
    requires { HasPred model.now token.now pred }
    ensures { MatchBool result
        (IsDeclared model.now (variables.Token token.now part) value)
        (IsDeclared model.now (variables.Token token.now part) value → ⊥) }
{
    match part {
        Part::Start => is_time(model, value),
        Part::End => is_time(model, value),
        Part::Duration => is_duration(model, value),
        Part::Object => may_be_object(model, token, value),
        Part::Param(number) => may_be_parameter(model, pred, number, value),
    }
}
