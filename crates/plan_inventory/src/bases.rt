//! Whether values are those that variables are declared with.

ghost use Rattle.std.specs.Prelude.{◌≡◌, ◌<◌, ℕ, Some, MatchBool, MatchOption, slice_get};
ghost use Rattle.eu_name.specs.declared.name.Part.TheVariants.{Param};
ghost use Rattle.model_core.specs.declared.class.Pred.{Pred};
ghost use Rattle.model_core.specs.declared.variable.VarDecl.{VarDecl};
ghost use Rattle.model_core.specs.Lawful.{IsLawful};
ghost use Rattle.model_core.specs.Variables.{HasParameter};
ghost use Rattle.model_core.specs.Tokens.{HasPred};
ghost use Rattle.plan_inventory.specs.Bases.{IsDeclaredIn, AreDeclaredIn};

use eu_name::name::{Part, TokenName};
use model_core::class::Pred;
use model_core::model::Model;
use plan_values::is_part_declared;
use plan_values::lines::value_in;
use plan_values::tokens::pred_of;

// Whether among the values of the token, which is of the predicate, is one for this part that is declared so.
fn is_declared_in(model: &Model, token: &TokenName, pred: u32, values: &[i32], part: Part) -> bool
    requires { HasPred model.now token.now pred }
    ensures { MatchBool result
        (IsDeclaredIn model.now token.now values.now part)
        (IsDeclaredIn model.now token.now values.now part → ⊥) }
{
    match value_in(values, part) {
        Some(value) => is_part_declared(model, token, pred, part, value),
        None => false,
    }
}

/// The predicate of this number.
pub fn pred_in(model: &Model, number: u32) -> Option<&Pred>
    ensures { MatchOption result
        ((pred : Pred) → slice_get model.now.preds number ≡ Some pred → ⊥)
        (λ pred. slice_get model.now.preds number ≡ Some pred.now) }
{
    model.preds.as_slice().get(number as usize)
}

// How many parameters the predicate has.
fn count_params(model: &Model, pred: u32) -> u16
    requires { IsLawful model.now }
    ensures below { (number : ℕ) (variable : VarDecl) → HasParameter model.now pred number variable → number < result }
    ensures there { (number : ℕ) → number < result → (variable : VarDecl) × HasParameter model.now pred number variable }
{
    match pred_in(model, pred) {
        Some(found) => found.params.len() as u16,
        None => 0,
    }
}

// Whether among the values is one for each parameter that is declared so.
fn are_params_declared(model: &Model, token: &TokenName, pred: u32, values: &[i32]) -> bool
    requires lawful { IsLawful model.now }
    requires of_pred { HasPred model.now token.now pred }
    ensures { MatchBool result
        ((number : ℕ) (variable : VarDecl) → HasParameter model.now pred number variable
        → IsDeclaredIn model.now token.now values.now (Param number))
        (((number : ℕ) (variable : VarDecl) → HasParameter model.now pred number variable
        → IsDeclaredIn model.now token.now values.now (Param number)) → ⊥) }
{
    for number in 0..count_params(model, pred) {
        if !is_declared_in(model, token, pred, values, Part::Param(number)) {
            return false;
        }
    }
    true
}

// Whether among the values of the token, which is of the predicate, is one for each part that is declared so.
fn are_parts_declared(model: &Model, token: &TokenName, pred: u32, values: &[i32]) -> bool
    requires lawful { IsLawful model.now }
    requires of_pred { HasPred model.now token.now pred }
    ensures { MatchBool result
        (AreDeclaredIn model.now token.now values.now)
        (AreDeclaredIn model.now token.now values.now → ⊥) }
{
    if !is_declared_in(model, token, pred, values, Part::Start) {
        return false;
    }
    if !is_declared_in(model, token, pred, values, Part::End) {
        return false;
    }
    if !is_declared_in(model, token, pred, values, Part::Duration) {
        return false;
    }
    if !is_declared_in(model, token, pred, values, Part::Object) {
        return false;
    }
    are_params_declared(model, token, pred, values)
}

/// Whether among the values of the token is one for each of its parts that is declared so.
pub fn are_declared(model: &Model, token: &TokenName, values: &[i32]) -> bool
    requires { IsLawful model.now }
    ensures { MatchBool result
        (AreDeclaredIn model.now token.now values.now)
        (AreDeclaredIn model.now token.now values.now → ⊥) }
{
    match pred_of(model, token) {
        Some(pred) => are_parts_declared(model, token, pred, values),
        None => true,
    }
}
