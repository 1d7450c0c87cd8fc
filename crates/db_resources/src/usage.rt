//! Uses of one reusable.

ghost use Rattle.std.specs.Prelude.{◌≡◌, ◌↔◌, ◌≤ℤ◌, pos, ℤ, All, IfOk, IsTrue, MatchOption};
ghost use Rattle.model_core.specs.State.{AreInOrder};
ghost use Rattle.db_resources.specs.Actors.{IsBounded};
ghost use Rattle.db_resources.specs.Effects.{IsOnAt, IsUseOn};
ghost use Rattle.db_resources.specs.Picks.{Picks};
ghost use Rattle.resource_profile.specs.declared.usage.Use.{Use};

use super::actor::Actor;
use super::lists::push_found;
use model_core::class::PredKind;
use model_core::view::View;
use resource_profile::Use;
use std::alloc::{AllocError, Global};
use timeline_core::object_of;

// Whether the two numbers are of one object.
fn is_same_object(one: i32, other: i32) -> bool
    ensures { IsTrue result ↔ (one ≡ other) }
{
    one == other
}

// Whether the token at the place is on the object and can be on no other.
pub fn is_on<V: View>(view: &V, place: u32, object: i32) -> bool
    requires { AreInOrder (V.state view.now) }
    ensures { IsTrue result ↔ IsOnAt (V.state view.now) place object }
{
    match object_of(view, place) {
        Some(found) => is_same_object(found, object),
        None => false,
    }
}

// What the token surely uses of the object, where it does so for sure.
fn use_on<V: View>(view: &V, actor: &Actor, object: i32) -> Option<Use>
    requires { AreInOrder (V.state view.now) }
    ensures { MatchOption result
        ((usage : Use) → IsUseOn (V.state view.now) object actor.now usage → ⊥)
        (IsUseOn (V.state view.now) object actor.now) }
{
    let PredKind::Uses = actor.kind else {
        return None;
    };
    if !is_on(view, actor.place, object) {
        return None;
    }
    Some(Use {
        from: actor.start_hi,
        until: actor.end_lo,
        quantity: actor.quantity_lo,
    })
}

/// What the tokens surely use of the object.
pub fn uses_on<V: View>(
    alloc: Global,
    view: &V,
    actors: &[Actor],
    object: i32,
) -> Result<Vec<Use>, AllocError>
    requires { AreInOrder (V.state view.now) }
    ensures { IfOk result (λ uses. Picks (IsUseOn (V.state view.now) object) actors.now uses.items) }
{
    let mut found = Vec::new(alloc);
    for actor in actors {
        push_found(&mut found, use_on(view, actor, object))?;
    }
    Ok(found)
}
