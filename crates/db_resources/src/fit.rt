//! Whether resources fit.

ghost use Rattle.std.specs.Prelude.{◌≡◌, ◌↔◌, ◌<◌, ◌≤◌, ◌≤ℤ◌, pos, ℕ, ℤ, All, IfOk, IsTrue, MatchBool, MatchOption, List, Some, slice_get, length};
ghost use Rattle.std.specs.List.{Any};
ghost use Rattle.model_core.specs.declared.class.Object.{Object};
ghost use Rattle.model_core.specs.declared.class.ObjectKind.TheVariants.{Reusable, Reservoir};
ghost use Rattle.model_core.specs.Lawful.{IsLawful};
ghost use Rattle.plan_defs.specs.Resources.{IsInstant, KeepsCapacity, StaysWithin, FitReusables};
ghost use Rattle.db_resources.specs.Actors.{IsSoundView, IsActorOf, IsBounded};
ghost use Rattle.db_resources.specs.Effects.{IsChangeOf, decisive};
ghost use Rattle.db_resources.specs.Fits.{IsReusable, IsReservoir, FitsReusable, FitsReservoir, FitLevels, LevelsDecide};
ghost use Rattle.db_resources.specs.Picks.{Picks};
ghost use Rattle.resource_profile.specs.Level.{IsSmall, IsPastAt};
ghost use Rattle.resource_profile.specs.declared.level.LevelChange.{LevelChange};

use super::actor::{Actor, actors};
use super::change::{Extreme, changes_on};
use super::lists::item_at;
use super::usage::uses_on;
use model_core::class::{Object, ObjectKind};
use model_core::model::Model;
use model_core::view::View;
use resource_profile::{LevelChange, Limit, level_past, over_use};
use std::alloc::{AllocError, Global};

// Where the level of a reservoir begins, and where it has to stay.
#[derive(Clone, Copy)]
struct Levels {
    initial: i32,
    low: i32,
    high: i32,
}

fn is_reusable(object: &Object) -> bool
    ensures { IsTrue result ↔ IsReusable object.now }
{
    matches!(object.kind, ObjectKind::Reusable { .. })
}

fn has_reusable(model: &Model) -> bool
    ensures { MatchBool result (Any IsReusable model.now.objects) (All (λ object. IsReusable object → ⊥) model.now.objects) }
{
    model
        .objects
        .as_slice()
        .iter()
        .any(|object| is_reusable(object))
}

fn is_reservoir(object: &Object) -> bool
    ensures { IsTrue result ↔ IsReservoir object.now }
{
    matches!(object.kind, ObjectKind::Reservoir { .. })
}

/// Whether an object is a reservoir.
pub fn has_reservoir(model: &Model) -> bool
    ensures { MatchBool result (Any IsReservoir model.now.objects) (All (λ object. IsReservoir object → ⊥) model.now.objects) }
{
    model
        .objects
        .as_slice()
        .iter()
        .any(|object| is_reservoir(object))
}

// The capacity of the object of this number, where it is a reusable.
fn capacity_of(model: &Model, number: u32) -> Option<i32>
    requires { IsLawful model.now }
    ensures { MatchOption result
        ((object : Object) (capacity : ℤ) → slice_get model.now.objects number ≡ Some object
        → object.kind ≡ Reusable capacity → ⊥)
        (λ capacity. (number < 4096) × (pos 0 ≤ℤ capacity) × ((object : Object)
        × (slice_get model.now.objects number ≡ Some object) × (object.kind ≡ Reusable capacity))) }
{
    let Some(object) = item_at(model.objects.as_slice(), number as usize) else {
        return None;
    };
    let ObjectKind::Reusable { capacity } = object.kind else {
        return None;
    };
    Some(capacity)
}

// The levels of the object of this number, where it is a reservoir.
fn levels_of(model: &Model, number: u32) -> Option<Levels>
    requires { IsLawful model.now }
    ensures { MatchOption result
        ((object : Object) (initial low high : ℤ) → slice_get model.now.objects number ≡ Some object
        → object.kind ≡ Reservoir initial low high → ⊥)
        (λ levels. (number < 4096) × ((object : Object)
        × (slice_get model.now.objects number ≡ Some object)
        × (object.kind ≡ Reservoir levels.initial levels.low levels.high))) }
{
    let Some(object) = item_at(model.objects.as_slice(), number as usize) else {
        return None;
    };
    let ObjectKind::Reservoir { initial, low, high } = object.kind else {
        return None;
    };
    Some(Levels { initial, low, high })
}

// ---- reusables

// Whether what the tokens surely use of the object keeps the capacity at each instant.
fn keeps_capacity<V: View>(
    alloc: Global,
    view: &V,
    actors: &[Actor],
    object: i32,
    capacity: i32,
) -> Result<bool, AllocError>
    requires sound { IsSoundView (V.model view.now) (V.decisions view.now) (V.state view.now) }
    requires actors { Picks (IsActorOf (V.model view.now) (V.decisions view.now) (V.state view.now))
        (V.state view.now).tokens actors.now }
    requires capacity { pos 0 ≤ℤ capacity }
    ensures { IfOk result (λ keeps. IsTrue keeps ↔ ((instant : ℤ) → IsInstant (V.model view.now) instant
        → KeepsCapacity (V.model view.now) (V.decisions view.now) (V.state view.now) object instant capacity)) }
{
    let uses = uses_on(alloc, view, actors, object)?;
    Ok(over_use(uses.as_slice(), capacity).is_none())
}

/// Whether the object of this number fits, if it is a reusable: whether what is surely used of it isn't more than its capacity
/// at any instant. It takes these actors, and the time of the square of those that surely use the object.
pub fn reusable_fits<V: View>(
    alloc: Global,
    model: &Model,
    view: &V,
    actors: &[Actor],
    object: u32,
) -> Result<bool, AllocError>
    requires model { V.model view.now ≡ model.now }
    requires sound { IsSoundView (V.model view.now) (V.decisions view.now) (V.state view.now) }
    requires actors { Picks (IsActorOf (V.model view.now) (V.decisions view.now) (V.state view.now))
        (V.state view.now).tokens actors.now }
    ensures { IfOk result (λ fits.
        IsTrue fits ↔ FitsReusable (V.model view.now) (V.decisions view.now) (V.state view.now) (pos object)) }
{
    match capacity_of(model, object) {
        Some(capacity) => keeps_capacity(alloc, view, actors, object as i32, capacity),
        None => Ok(true),
    }
}

// Whether all reusables fit, one by one.
fn each_reusable_fits<V: View>(
    alloc: Global,
    model: &Model,
    view: &V,
    actors: &[Actor],
) -> Result<bool, AllocError>
    requires model { V.model view.now ≡ model.now }
    requires sound { IsSoundView (V.model view.now) (V.decisions view.now) (V.state view.now) }
    requires actors { Picks (IsActorOf (V.model view.now) (V.decisions view.now) (V.state view.now))
        (V.state view.now).tokens actors.now }
    ensures { IfOk result (λ fit.
        IsTrue fit ↔ FitReusables (V.model view.now) (V.decisions view.now) (V.state view.now)) }
{
    let count = model.objects.as_slice().len() as u32;
    for number in 0..count {
        if !reusable_fits(alloc, model, view, actors, number)? {
            return Ok(false);
        }
    }
    Ok(true)
}

/// Whether reusables fit: whether what is surely used of each isn't more than its capacity at any instant. The tokens are gone
/// over once, and not at all where the model has no reusable; then each reusable is looked at, in the time of the square of
/// the tokens that surely use it.
pub fn reusables_fit<V: View>(alloc: Global, model: &Model, view: &V) -> Result<bool, AllocError>
    requires model { V.model view.now ≡ model.now }
    requires sound { IsSoundView (V.model view.now) (V.decisions view.now) (V.state view.now) }
    ensures { IfOk result (λ fit.
        IsTrue fit ↔ FitReusables (V.model view.now) (V.decisions view.now) (V.state view.now)) }
{
    if !has_reusable(model) {
        return Ok(true);
    }
    let actors = actors(alloc, model, view)?;
    each_reusable_fits(alloc, model, view, actors.as_slice())
}

// ---- reservoirs

// Whether the level is past the limit at no instant from `start` to `end`.
fn keeps_limit(changes: &[LevelChange], initial: i32, limit: Limit, start: i32, end: i32) -> bool
    requires { All IsSmall changes.now }
    ensures { IsTrue result ↔ ((instant : ℤ) → (start ≤ℤ instant) × (instant ≤ℤ end)
        → IsPastAt changes.now initial limit instant → ⊥) }
{
    match level_past(changes, initial, limit, start) {
        Some(first) => end < first,
        None => true,
    }
}

// The level that is past the limit only if all possible ones are.
fn decisive(limit: Limit) -> Extreme
    ensures { result ≡ decisive limit }
{
    match limit {
        Limit::Low(_) => Extreme::Highest,
        Limit::High(_) => Extreme::Lowest,
    }
}

// Whether some possible level of the object keeps the limit at each instant: the highest a lower one, the lowest an upper one.
fn level_keeps<V: View>(
    alloc: Global,
    model: &Model,
    view: &V,
    actors: &[Actor],
    object: i32,
    initial: i32,
    limit: Limit,
) -> Result<bool, AllocError>
    requires model { V.model view.now ≡ model.now }
    requires sound { IsSoundView (V.model view.now) (V.decisions view.now) (V.state view.now) }
    requires bounded { All IsBounded actors.now }
    ensures { IfOk result (λ keeps. (changes : List LevelChange)
        × Picks (IsChangeOf (V.state view.now) object (decisive limit)) actors.now changes
        × (IsTrue keeps ↔ ((instant : ℤ) → IsInstant (V.model view.now) instant
        → IsPastAt changes initial limit instant → ⊥))) }
{
    let changes = changes_on(alloc, view, actors, object, decisive(limit))?;
    let start = model.problem.start;
    let end = model.problem.end;
    Ok(keeps_limit(changes.as_slice(), initial, limit, start, end))
}

// Whether the level of the object can stay within its limits at each instant by itself.
fn stays_within<V: View>(
    alloc: Global,
    model: &Model,
    view: &V,
    actors: &[Actor],
    object: i32,
    levels: Levels,
) -> Result<bool, AllocError>
    requires model { V.model view.now ≡ model.now }
    requires sound { IsSoundView (V.model view.now) (V.decisions view.now) (V.state view.now) }
    requires actors { Picks (IsActorOf (V.model view.now) (V.decisions view.now) (V.state view.now))
        (V.state view.now).tokens actors.now }
    ensures { IfOk result (λ stays. IsTrue stays ↔ ((instant : ℤ) → IsInstant (V.model view.now) instant
        → StaysWithin (V.model view.now) (V.decisions view.now) (V.state view.now) object instant
        levels.initial levels.low levels.high)) }
{
    let initial = levels.initial;
    let high_enough = level_keeps(
        alloc,
        model,
        view,
        actors,
        object,
        initial,
        Limit::Low(levels.low),
    )?;
    let low_enough = level_keeps(
        alloc,
        model,
        view,
        actors,
        object,
        initial,
        Limit::High(levels.high),
    )?;
    Ok(high_enough && low_enough)
}

/// Whether the object of this number fits, if it is a reservoir and no further token can come: whether its level can stay
/// within its limits at each instant by itself. It takes these actors, and the time of the square of those that may be on it.
pub fn reservoir_fits<V: View>(
    alloc: Global,
    model: &Model,
    view: &V,
    actors: &[Actor],
    object: u32,
) -> Result<bool, AllocError>
    requires model { V.model view.now ≡ model.now }
    requires sound { IsSoundView (V.model view.now) (V.decisions view.now) (V.state view.now) }
    requires actors { Picks (IsActorOf (V.model view.now) (V.decisions view.now) (V.state view.now))
        (V.state view.now).tokens actors.now }
    ensures { IfOk result (λ fits.
        IsTrue fits ↔ FitsReservoir (V.model view.now) (V.decisions view.now) (V.state view.now) (pos object)) }
{
    match levels_of(model, object) {
        Some(levels) => stays_within(alloc, model, view, actors, object as i32, levels),
        None => Ok(true),
    }
}

// Whether the levels of all reservoirs fit, one by one.
fn each_reservoir_fits<V: View>(
    alloc: Global,
    model: &Model,
    view: &V,
    actors: &[Actor],
) -> Result<bool, AllocError>
    requires model { V.model view.now ≡ model.now }
    requires sound { IsSoundView (V.model view.now) (V.decisions view.now) (V.state view.now) }
    requires actors { Picks (IsActorOf (V.model view.now) (V.decisions view.now) (V.state view.now))
        (V.state view.now).tokens actors.now }
    ensures { IfOk result (λ fit.
        IsTrue fit ↔ FitLevels (V.model view.now) (V.decisions view.now) (V.state view.now)) }
{
    let count = model.objects.as_slice().len() as u32;
    for number in 0..count {
        if !reservoir_fits(alloc, model, view, actors, number)? {
            return Ok(false);
        }
    }
    Ok(true)
}

/// Whether reservoirs fit if no further token can come: whether the level of each can stay within its limits at each instant
/// by itself. That no further token can come isn't looked at. The cost is as that of `reusables_fit`.
pub fn reservoirs_fit<V: View>(alloc: Global, model: &Model, view: &V) -> Result<bool, AllocError>
    requires model { V.model view.now ≡ model.now }
    requires sound { IsSoundView (V.model view.now) (V.decisions view.now) (V.state view.now) }
    ensures { IfOk result (λ fit.
        IsTrue fit ↔ FitLevels (V.model view.now) (V.decisions view.now) (V.state view.now)) }
{
    if !has_reservoir(model) {
        return Ok(true);
    }
    let actors = actors(alloc, model, view)?;
    each_reservoir_fits(alloc, model, view, actors.as_slice())
}

/// A law: reservoirs fit where levels do, or further tokens can come.
pub fn levels_decide()
    ensures { LevelsDecide }
{}
