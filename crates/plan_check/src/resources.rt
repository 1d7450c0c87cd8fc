//! Clause V9: no reusable is used beyond its capacity.

ghost use Rattle.std.specs.Prelude.{◌≡◌, ◌++◌, ◌≤ℤ◌, pos, Some, OnOk, IfOk, option_to_list, MatchBool, MatchOption, ◌<◌, length, slice_get};
ghost use Rattle.eu_name.specs.declared.name.Part.TheVariants as parts;
ghost use Rattle.model_core.specs.declared.class.PredKind.{PredKind};
ghost use Rattle.model_core.specs.Lawful.{IsLawful};
ghost use Rattle.plan_defs.specs.declared.plan.Clause.TheVariants.{V3, V9};
ghost use Rattle.plan_defs.specs.declared.plan.Place.{Place};
ghost use Rattle.plan_defs.specs.declared.plan.Place.TheVariants as places;
ghost use Rattle.plan_defs.specs.Resources.{IsInstant};
ghost use Rattle.plan_defs.specs.Valid.{IsOfSort, IsPartOf, IsClauseKept, IsWithinCapacity, KeepsReusables};
ghost use Rattle.resource_profile.specs.declared.usage.Use.{Use};
ghost use Rattle.plan_values.specs.Keys.{IsOrderly};
ghost use Rattle.plan_inventory.specs.Breaks.{FindsBreak};
ghost use Rattle.plan_check.specs.ByObject.{AreLinked};
ghost use Rattle.plan_check.specs.Acts.{ValuesUse, TokenUses, IsUseOf, Collects, FindsInstant};

use super::by_object::LinesByObject;
use eu_name::name::{Part, TokenName};
use model_core::class::{Object, ObjectKind, PredKind};
use model_core::model::Model;
use plan_defs::plan::{Line, Place, Plan};
use plan_inventory::pred_in;
use plan_values::lines::value_in;
use plan_values::tokens::pred_of;
use resource_profile::{Use, over_use};
use std::alloc::{AllocError, Global};

/// Of which kind the token's predicate is.
pub fn kind_of(model: &Model, token: &TokenName) -> Option<PredKind>
    ensures { MatchOption result
        ((kind : PredKind) → IsOfSort model.now kind token.now → ⊥)
        (λ kind. IsOfSort model.now kind token.now) }
{
    match pred_of(model, token) {
        Some(pred) => match pred_in(model, pred) {
            Some(found) => Some(found.kind),
            None => None,
        },
        None => None,
    }
}

/// Adds what is done, if anything is.
pub fn keep<T: Drop>(acts: &mut Vec<T>, found: Option<T>) -> Result<(), AllocError>
    ensures { OnOk result (acts.new.items ≡ acts.old.items ++ option_to_list found) }
{
    match found {
        Some(act) => {
            acts.push(act)?;
            Ok(())
        }
        None => Ok(()),
    }
}

/// Whether a token with these values is on the object.
pub fn is_on(values: &[i32], object: u32) -> bool
    ensures { MatchBool result
        (IsPartOf values.now parts.Object (pos object))
        (IsPartOf values.now parts.Object (pos object) → ⊥) }
{
    match value_in(values, Part::Object) {
        Some(found) => i64::from(found) == i64::from(object),
        None => false,
    }
}

// How a token with these values uses the object, if it is of a predicate that uses.
fn use_by(values: &[i32], object: u32) -> Option<Use>
    ensures { MatchOption result
        ((usage : Use) → ValuesUse values.now (pos object) usage → ⊥)
        (ValuesUse values.now (pos object)) }
{
    if !is_on(values, object) {
        return None;
    }
    match value_in(values, Part::Start) {
        Some(from) => match value_in(values, Part::End) {
            Some(until) => match value_in(values, Part::Param(0)) {
                Some(quantity) => Some(Use {
                    from,
                    until,
                    quantity,
                }),
                None => None,
            },
            None => None,
        },
        None => None,
    }
}

// How the token with these values uses the object.
fn use_of_token(model: &Model, token: &TokenName, values: &[i32], object: u32) -> Option<Use>
    ensures { MatchOption result
        ((usage : Use) → TokenUses model.now token.now values.now (pos object) usage → ⊥)
        (TokenUses model.now token.now values.now (pos object)) }
{
    if is_of_kind(model, token, PredKind::Uses) {
        use_by(values, object)
    } else {
        None
    }
}

// Whether the kinds of predicate are one.
fn is_kind(one: PredKind, other: PredKind) -> bool
    ensures { MatchBool result (one ≡ other) (one ≡ other → ⊥) }
{
    match one {
        PredKind::Plain => matches!(other, PredKind::Plain),
        PredKind::Uses => matches!(other, PredKind::Uses),
        PredKind::Produce => matches!(other, PredKind::Produce),
        PredKind::Consume => matches!(other, PredKind::Consume),
    }
}

/// Whether the token is of a predicate of this kind.
pub fn is_of_kind(model: &Model, token: &TokenName, kind: PredKind) -> bool
    ensures { MatchBool result
        (IsOfSort model.now kind token.now)
        (IsOfSort model.now kind token.now → ⊥) }
{
    match kind_of(model, token) {
        Some(found) => is_kind(found, kind),
        None => false,
    }
}

// How the line's token uses the object.
fn use_of(model: &Model, line: &Line, object: u32) -> Option<Use>
    ensures { IsUseOf model.now (pos object) line.now result }
{
    match line {
        Line::Token { name, values, .. } => use_of_token(model, name, values.as_slice(), object),
        Line::Merged { .. } | Line::Rejected { .. } | Line::Local { .. } => None,
    }
}

// How the tokens that take place use the object.
fn uses_of(
    alloc: Global,
    model: &Model,
    plan: &Plan,
    by_object: &LinesByObject,
    object: u32,
) -> Result<Vec<Use>, AllocError>
    requires linked { AreLinked plan.now.lines (length model.now.objects) 0 by_object.now }
    requires there { object < length model.now.objects }
    ensures { IfOk result (λ uses. Collects (IsUseOf model.now (pos object)) plan.now.lines uses.items) }
{
    let mut uses = Vec::new(alloc);
    let lines = plan.lines.as_slice();
    let mut next = by_object.first_on(object);
    while let Some(place) = next {
        keep(&mut uses, use_of(model, &lines[place as usize], object))?;
        next = by_object.after(place);
    }
    Ok(uses)
}

// The first instant at which more of the object is in use than its capacity.
fn over_used(
    alloc: Global,
    model: &Model,
    plan: &Plan,
    by_object: &LinesByObject,
    object: u32,
    capacity: i32,
) -> Result<Option<i32>, AllocError>
    requires lawful { IsLawful model.now }
    requires orderly { IsOrderly plan.now }
    requires tokens { (place : Place) → IsClauseKept model.now plan.now V3 place }
    requires linked { AreLinked plan.now.lines (length model.now.objects) 0 by_object.now }
    requires there { object < length model.now.objects }
    requires capacity { pos 0 ≤ℤ capacity }
    ensures { IfOk result (FindsInstant (λ instant. IsInstant model.now instant
        → IsWithinCapacity model.now (pos object) instant plan.now capacity)) }
{
    let uses = uses_of(alloc, model, plan, by_object, object)?;
    Ok(over_use(uses.as_slice(), capacity))
}

// The first instant at which this object of this number, if it is a reusable, is used beyond its capacity.
fn over_used_object(
    alloc: Global,
    model: &Model,
    plan: &Plan,
    by_object: &LinesByObject,
    number: u32,
    object: &Object,
) -> Result<Option<i32>, AllocError>
    requires lawful { IsLawful model.now }
    requires orderly { IsOrderly plan.now }
    requires tokens { (place : Place) → IsClauseKept model.now plan.now V3 place }
    requires linked { AreLinked plan.now.lines (length model.now.objects) 0 by_object.now }
    requires there { slice_get model.now.objects number ≡ Some object.now }
    ensures { IfOk result (FindsInstant (λ instant. KeepsReusables model.now plan.now (places.Instant number instant))) }
{
    match object.kind {
        ObjectKind::Reusable { capacity } => {
            over_used(alloc, model, plan, by_object, number, capacity)
        }
        ObjectKind::Plain | ObjectKind::Timeline | ObjectKind::Reservoir { .. } => Ok(None),
    }
}

/// The first reusable that is used beyond its capacity at some instant of the horizon, and the first such instant.
pub fn broken_reusable(
    alloc: Global,
    model: &Model,
    plan: &Plan,
    by_object: &LinesByObject,
) -> Result<Option<Place>, AllocError>
    requires lawful { IsLawful model.now }
    requires orderly { IsOrderly plan.now }
    requires tokens { (place : Place) → IsClauseKept model.now plan.now V3 place }
    requires linked { AreLinked plan.now.lines (length model.now.objects) 0 by_object.now }
    ensures { IfOk result (FindsBreak model.now plan.now V9) }
{
    for (number, object) in model.objects.as_slice().iter().enumerate() {
        let found = over_used_object(alloc, model, plan, by_object, number as u32, object)?;
        if let Some(at) = found {
            return Ok(Some(Place::Instant {
                object: number as u32,
                at,
            }));
        }
    }
    Ok(None)
}
