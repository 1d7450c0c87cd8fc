//! The values of the parts of tokens.

ghost use Rattle.std.specs.Prelude.{◌≡◌, ◌<◌, ◌≤◌, ◌+◌, ◌^◌, ℕ, ℤ, length, Some, slice_get, MatchOption, MatchResult, IfOk, IfErr};
ghost use Rattle.eu_name.specs.declared.name.Part.{Part};
ghost use Rattle.eu_name.specs.declared.name.TokenName.{TokenName};
ghost use Rattle.eu_name.specs.declared.name.VarName.TheVariants.{Token};
ghost use Rattle.model_core.specs.declared.class.Pred.{Pred};
ghost use Rattle.model_core.specs.Lawful.{IsLawful};
ghost use Rattle.model_core.specs.State.{AreInOrder};
ghost use Rattle.model_core.specs.Views.{IsTokenAt};
ghost use Rattle.plan_defs.specs.Plans.{place_in_values};
ghost use Rattle.plan_states.specs.declared.fault.PlanOfFault.TheVariants.{Open, Memory};
ghost use Rattle.plan_defs.specs.StatePlans.{GivesOnly};
ghost use Rattle.plan_defs.specs.Surveying.{AreFirstValues, IsPartUnbound};

use super::fault::PlanOfFault;
use super::push_item;
use eu_name::name::{Part, TokenName};
use model_core::class::Pred;
use model_core::model::Model;
use model_core::view::View;
use std::alloc::{AllocError, Global};

// The part whose value stands at this place among those of a token.
fn part_at(place: u16) -> Part
    ensures { place_in_values result ≡ place }
{
    match place {
        0 => Part::Start,
        1 => Part::End,
        2 => Part::Duration,
        3 => Part::Object,
        _ => Part::Param(place - 4),
    }
}

// The value of the part of the token at the place, where it has only one.
fn part_value<V: View>(view: &V, place: u32, part: Part) -> Option<i32>
    requires { AreInOrder (V.state view.now) }
    ensures { MatchOption result
        ((token : TokenName) (value : ℤ) → IsTokenAt (V.state view.now) place token
        → GivesOnly (V.state view.now) (Token token part) value → ⊥)
        (λ value. (token : TokenName) × IsTokenAt (V.state view.now) place token
        × GivesOnly (V.state view.now) (Token token part) value) }
{
    let Some(domain) = view.domain_at(place, part) else {
        return None;
    };
    domain.single()
}

/// The values of the first so many parts of the token at the place, if each of them has only one.
pub fn part_values<V: View>(
    alloc: Global,
    view: &V,
    place: u32,
    count: u16,
) -> Result<Vec<i32>, PlanOfFault>
    requires { AreInOrder (V.state view.now) }
    ensures { MatchResult result
        (λ values. AreFirstValues (V.state view.now) place count values.items)
        (λ fault. fault ≡ Open → (part : Part) × IsPartUnbound (V.state view.now) place count part) }
{
    let mut values = Vec::new(alloc);
    for number in 0..count {
        let Some(value) = part_value(view, place, part_at(number)) else {
            return Err(PlanOfFault::Open);
        };
        push_item(&mut values, value)?;
    }
    Ok(values)
}

/// The predicate of this number.
pub fn pred_in(model: &Model, number: u32) -> Option<&Pred>
    ensures { MatchOption result
        ((pred : Pred) → slice_get model.now.preds number ≡ Some pred → ⊥)
        (λ pred. slice_get model.now.preds number ≡ Some pred.now) }
{
    model.preds.as_slice().get(number as usize)
}

/// How many parts a token of the predicate of this number has.
pub fn count_parts(model: &Model, pred: u32) -> u16
    requires { IsLawful model.now }
    ensures { (found : Pred) → slice_get model.now.preds pred ≡ Some found → result ≡ 4 + length found.params }
{
    match pred_in(model, pred) {
        Some(found) => 4 + found.params.len() as u16,
        None => 4,
    }
}

/// A copy of the name of the token at the place.
pub fn name_at<V: View>(view: &V, place: u32) -> Result<TokenName, PlanOfFault>
    requires { (token : TokenName) × IsTokenAt (V.state view.now) place token }
    ensures copied { IfOk result (λ name. IsTokenAt (V.state view.now) place name) }
    ensures memory { IfErr result (λ fault. fault ≡ Memory) }
{
    match view.token_at(place) {
        Some(token) => copied(token.copy()),
        None => Err(PlanOfFault::Memory),
    }
}

// The name, if there was memory for it.
fn copied(name: Result<TokenName, AllocError>) -> Result<TokenName, PlanOfFault>
    ensures { MatchResult name (λ copy. result ≡ Ok copy) (λ _. result ≡ Err Memory) }
{
    match name {
        Ok(name) => Ok(name),
        Err(_none) => Err(PlanOfFault::Memory),
    }
}
