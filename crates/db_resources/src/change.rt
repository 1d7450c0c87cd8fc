//! Changes of the level of one reservoir.

ghost use Rattle.std.specs.Prelude.{◌≡◌, ◌↔◌, ◌+ℤ◌, ◌≤ℤ◌, pos, ℤ, All, IfOk, IsTrue, IfSome, MatchOption};
ghost use Rattle.model_core.specs.declared.class.PredKind.TheVariants.{Produce, Consume};
ghost use Rattle.model_core.specs.State.{AreInOrder};
ghost use Rattle.db_resources.specs.Actors.{IsBounded};
ghost use Rattle.db_resources.specs.Effects.{MayBeOnAt, IsPossible, IsSure, IsTurned, IsChangeAs, IsChangeOf};
ghost use Rattle.db_resources.specs.Picks.{Picks};
ghost use Rattle.resource_profile.specs.Level.{IsSmall};
ghost use Rattle.resource_profile.specs.declared.level.LevelChange.{LevelChange};

use super::actor::Actor;
use super::lists::push_found;
use super::usage::is_on;
use eu_name::name::Part;
use model_core::class::PredKind;
use model_core::view::View;
use resource_profile::LevelChange;
use std::alloc::{AllocError, Global};

/// Which of the possible levels.
#[derive(Clone, Copy)]
pub enum Extreme {
    Highest,
    Lowest,
}

// Whether the token at the place may be on the object.
fn may_be_on<V: View>(view: &V, place: u32, object: i32) -> bool
    requires { AreInOrder (V.state view.now) }
    ensures { IsTrue result ↔ MayBeOnAt (V.state view.now) place object }
{
    match view.domain_at(place, Part::Object) {
        Some(domain) => domain.has(object),
        None => false,
    }
}

// The most that the token may do to the object, as if it added to it.
fn possible<V: View>(view: &V, actor: &Actor, object: i32) -> Option<LevelChange>
    requires order { AreInOrder (V.state view.now) }
    requires bounded { IsBounded actor.now }
    ensures change { MatchOption result
        ((change : LevelChange) → IsPossible (V.state view.now) object actor.now change.at change.add → ⊥)
        (λ change. IsPossible (V.state view.now) object actor.now change.at change.add) }
    ensures small { IfSome result IsSmall }
{
    if !may_be_on(view, actor.place, object) {
        return None;
    }
    Some(LevelChange {
        at: actor.start_lo,
        add: i64::from(actor.quantity_hi),
    })
}

// The least that the token does to the object in any case, as if it added to it.
fn sure<V: View>(view: &V, actor: &Actor, object: i32) -> Option<LevelChange>
    requires order { AreInOrder (V.state view.now) }
    requires bounded { IsBounded actor.now }
    ensures change { MatchOption result
        ((change : LevelChange) → IsSure (V.state view.now) object actor.now change.at change.add → ⊥)
        (λ change. IsSure (V.state view.now) object actor.now change.at change.add) }
    ensures small { IfSome result IsSmall }
{
    if !is_on(view, actor.place, object) {
        return None;
    }
    Some(LevelChange {
        at: actor.start_hi,
        add: i64::from(actor.quantity_lo),
    })
}

// The change that takes away as much as this one adds.
fn turned(change: Option<LevelChange>) -> Option<LevelChange>
    requires { IfSome change IsSmall }
    ensures { IsTurned change result }
{
    match change {
        Some(added) => Some(LevelChange {
            at: added.at,
            add: -added.add,
        }),
        None => None,
    }
}

// What the token may or surely does produce, by which the level is as high or as low as it can be.
fn produced<V: View>(view: &V, actor: &Actor, object: i32, extreme: Extreme) -> Option<LevelChange>
    requires order { AreInOrder (V.state view.now) }
    requires bounded { IsBounded actor.now }
    ensures { MatchOption result
        ((change : LevelChange) → IsChangeAs (V.state view.now) object extreme Produce actor.now change → ⊥)
        (IsChangeAs (V.state view.now) object extreme Produce actor.now) }
{
    match extreme {
        Extreme::Highest => possible(view, actor, object),
        Extreme::Lowest => sure(view, actor, object),
    }
}

// What the token may or surely does consume, by which the level is as high or as low as it can be.
fn consumed<V: View>(view: &V, actor: &Actor, object: i32, extreme: Extreme) -> Option<LevelChange>
    requires order { AreInOrder (V.state view.now) }
    requires bounded { IsBounded actor.now }
    ensures { MatchOption result
        ((change : LevelChange) → IsChangeAs (V.state view.now) object extreme Consume actor.now change → ⊥)
        (IsChangeAs (V.state view.now) object extreme Consume actor.now) }
{
    match extreme {
        Extreme::Highest => turned(sure(view, actor, object)),
        Extreme::Lowest => turned(possible(view, actor, object)),
    }
}

// The change by which the token makes the object's level as high, or as low, as it can.
fn change_on<V: View>(view: &V, actor: &Actor, object: i32, extreme: Extreme) -> Option<LevelChange>
    requires order { AreInOrder (V.state view.now) }
    requires bounded { IsBounded actor.now }
    ensures { MatchOption result
        ((change : LevelChange) → IsChangeOf (V.state view.now) object extreme actor.now change → ⊥)
        (IsChangeOf (V.state view.now) object extreme actor.now) }
{
    match actor.kind {
        PredKind::Plain => None,
        PredKind::Uses => None,
        PredKind::Produce => produced(view, actor, object, extreme),
        PredKind::Consume => consumed(view, actor, object, extreme),
    }
}

/// The changes by which the tokens make the object's level as high, or as low, as they can.
pub fn changes_on<V: View>(
    alloc: Global,
    view: &V,
    actors: &[Actor],
    object: i32,
    extreme: Extreme,
) -> Result<Vec<LevelChange>, AllocError>
    requires order { AreInOrder (V.state view.now) }
    requires bounded { All IsBounded actors.now }
    ensures { IfOk result (λ changes. Picks (IsChangeOf (V.state view.now) object extreme) actors.now changes.items) }
{
    let mut found = Vec::new(alloc);
    for actor in actors {
        push_found(&mut found, change_on(view, actor, object, extreme))?;
    }
    Ok(found)
}
