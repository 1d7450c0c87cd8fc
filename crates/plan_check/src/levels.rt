//! Clause V10: the level of each reservoir stays within its limits.

ghost use Rattle.std.specs.Prelude.{◌≡◌, ℤ, pos, Some, IfOk, MatchOption, ◌<◌, length, slice_get};
ghost use Rattle.model_core.specs.declared.class.PredKind.TheVariants as kinds;
ghost use Rattle.model_core.specs.Lawful.{IsLawful};
ghost use Rattle.plan_defs.specs.declared.plan.Clause.TheVariants.{V3, V10};
ghost use Rattle.plan_defs.specs.declared.plan.Place.{Place};
ghost use Rattle.plan_defs.specs.declared.plan.Place.TheVariants as places;
ghost use Rattle.plan_defs.specs.Resources.{IsInstant};
ghost use Rattle.plan_defs.specs.Valid.{IsOfSort, IsClauseKept, IsLevelWithin, KeepsReservoirs};
ghost use Rattle.plan_values.specs.Keys.{IsOrderly};
ghost use Rattle.plan_check.specs.ByObject.{AreLinked};
ghost use Rattle.plan_check.specs.Acts.{ValuesAct, TokenChanges, IsChangeOf, Collects, FindsInstant};
ghost use Rattle.plan_inventory.specs.Breaks.{FindsBreak};

use super::by_object::LinesByObject;
use super::resources::{is_of_kind, is_on, keep};
use eu_name::name::{Part, TokenName};
use model_core::class::{Object, ObjectKind, PredKind};
use model_core::model::Model;
use plan_defs::plan::{Line, Place, Plan};
use plan_values::lines::value_in;
use resource_profile::{LevelChange, level_out};
use std::alloc::{AllocError, Global};

/// When a token starts, and the quantity that it has.
#[derive(Clone, Copy)]
struct Act {
    at: i32,
    quantity: i32,
}

// Where the level of a reservoir begins, and where it has to stay.
#[derive(Clone, Copy)]
struct Levels {
    initial: i32,
    low: i32,
    high: i32,
}

// When a token with these values starts on the object, and with which quantity.
fn act_by(values: &[i32], object: u32) -> Option<Act>
    ensures { MatchOption result
        ((at quantity : ℤ) → ValuesAct values.now (pos object) at quantity → ⊥)
        (λ act. ValuesAct values.now (pos object) act.at act.quantity) }
{
    if !is_on(values, object) {
        return None;
    }
    match value_in(values, Part::Start) {
        Some(at) => match value_in(values, Part::Param(0)) {
            Some(quantity) => Some(Act { at, quantity }),
            None => None,
        },
        None => None,
    }
}

// How the token changes a level by what it does.
fn change_by(model: &Model, token: &TokenName, act: Act) -> Option<LevelChange>
    ensures { MatchOption result
        ((IsOfSort model.now kinds.Produce token.now → ⊥) × (IsOfSort model.now kinds.Consume token.now → ⊥))
        (TokenChanges model.now token.now act.at act.quantity) }
{
    let at = act.at;
    let add = i64::from(act.quantity);
    if is_of_kind(model, token, PredKind::Produce) {
        return Some(LevelChange { at, add });
    }
    if is_of_kind(model, token, PredKind::Consume) {
        return Some(LevelChange { at, add: -add });
    }
    None
}

// How the line's token changes the level of the object.
fn change_of(model: &Model, line: &Line, object: u32) -> Option<LevelChange>
    ensures { IsChangeOf model.now (pos object) line.now result }
{
    match line {
        Line::Token { name, values, .. } => match act_by(values.as_slice(), object) {
            Some(act) => change_by(model, name, act),
            None => None,
        },
        Line::Merged { .. } | Line::Rejected { .. } | Line::Local { .. } => None,
    }
}

// How the tokens that take place change the level of the object.
fn changes_of(
    alloc: Global,
    model: &Model,
    plan: &Plan,
    by_object: &LinesByObject,
    object: u32,
) -> Result<Vec<LevelChange>, AllocError>
    requires linked { AreLinked plan.now.lines (length model.now.objects) 0 by_object.now }
    requires there { object < length model.now.objects }
    ensures { IfOk result (λ changes. Collects (IsChangeOf model.now (pos object)) plan.now.lines changes.items) }
{
    let mut changes = Vec::new(alloc);
    let lines = plan.lines.as_slice();
    let mut next = by_object.first_on(object);
    while let Some(place) = next {
        keep(
            &mut changes,
            change_of(model, &lines[place as usize], object),
        )?;
        next = by_object.after(place);
    }
    Ok(changes)
}

// The first instant of the horizon at which the level of the object is outside of its limits.
fn left_limits(
    alloc: Global,
    model: &Model,
    plan: &Plan,
    by_object: &LinesByObject,
    object: u32,
    levels: Levels,
) -> Result<Option<i32>, AllocError>
    requires lawful { IsLawful model.now }
    requires orderly { IsOrderly plan.now }
    requires tokens { (place : Place) → IsClauseKept model.now plan.now V3 place }
    requires linked { AreLinked plan.now.lines (length model.now.objects) 0 by_object.now }
    requires there { object < length model.now.objects }
    ensures { IfOk result (FindsInstant (λ instant. IsInstant model.now instant
        → IsLevelWithin model.now (pos object) instant plan.now levels.initial levels.low levels.high)) }
{
    let changes = changes_of(alloc, model, plan, by_object, object)?;
    let changes_by_line = changes.as_slice();
    let start = model.problem.start;
    let Levels { initial, low, high } = levels;
    Ok(level_out(changes_by_line, initial, low, high, start))
}

// The first instant at which the level of this object of this number, if it is a reservoir, is outside of its limits.
fn left_limits_of(
    alloc: Global,
    model: &Model,
    plan: &Plan,
    by_object: &LinesByObject,
    number: u32,
    object: &Object,
) -> Result<Option<i32>, AllocError>
    requires lawful { IsLawful model.now }
    requires orderly { IsOrderly plan.now }
    requires tokens { (place : Place) → IsClauseKept model.now plan.now V3 place }
    requires linked { AreLinked plan.now.lines (length model.now.objects) 0 by_object.now }
    requires there { slice_get model.now.objects number ≡ Some object.now }
    ensures { IfOk result (FindsInstant (λ instant. KeepsReservoirs model.now plan.now (places.Instant number instant))) }
{
    match object.kind {
        ObjectKind::Reservoir { initial, low, high } => {
            let levels = Levels { initial, low, high };
            left_limits(alloc, model, plan, by_object, number, levels)
        }
        ObjectKind::Plain | ObjectKind::Timeline | ObjectKind::Reusable { .. } => Ok(None),
    }
}

/// The first reservoir whose level is outside of its limits at some instant of the horizon, and the first such instant.
pub fn broken_reservoir(
    alloc: Global,
    model: &Model,
    plan: &Plan,
    by_object: &LinesByObject,
) -> Result<Option<Place>, AllocError>
    requires lawful { IsLawful model.now }
    requires orderly { IsOrderly plan.now }
    requires tokens { (place : Place) → IsClauseKept model.now plan.now V3 place }
    requires linked { AreLinked plan.now.lines (length model.now.objects) 0 by_object.now }
    ensures { IfOk result (FindsBreak model.now plan.now V10) }
{
    for (number, object) in model.objects.as_slice().iter().enumerate() {
        let found = left_limits_of(alloc, model, plan, by_object, number as u32, object)?;
        if let Some(at) = found {
            return Ok(Some(Place::Instant {
                object: number as u32,
                at,
            }));
        }
    }
    Ok(None)
}
