//! Active tokens that use, produce or consume.

ghost use Rattle.std.specs.Prelude.{◌≡◌, All, IfOk, MatchOption, Some, slice_get};
ghost use Rattle.eu_name.specs.declared.name.TokenName.{TokenName};
ghost use Rattle.model_core.specs.declared.class.Pred.{Pred};
ghost use Rattle.model_core.specs.declared.class.PredKind.{PredKind};
ghost use Rattle.model_core.specs.declared.class.PredKind.TheVariants.{Plain};
ghost use Rattle.model_core.specs.declared.rule.Slot.{Slot};
ghost use Rattle.model_core.specs.Tokens.{HasToken};
ghost use Rattle.model_core.specs.Views.{IsTokenAt};
ghost use Rattle.db_resources.specs.Actors.{IsSoundView, IsRole, HasRole, IsMeasured, IsActorOf, IsBounded};
ghost use Rattle.db_resources.specs.Picks.{Picks};
ghost use Rattle.db_resources.specs.declared.actor.Actor.{Actor};

use super::lists::{item_at, push_found};
use eu_name::name::{Part, TokenName};
use model_core::class::{Pred, PredKind};
use model_core::model::Model;
use model_core::view::View;
use std::alloc::{AllocError, Global};
use timeline_core::is_active;

/// An active token that uses, produces or consumes: its place, and the ends of what it may be.
#[derive(Clone, Copy)]
pub struct Actor {
    /// Its place in the state.
    pub place: u32,
    pub kind: PredKind,
    /// Its least and its greatest start.
    pub start_lo: i32,
    pub start_hi: i32,
    /// Its least end.
    pub end_lo: i32,
    /// Its least and its greatest quantity.
    pub quantity_lo: i32,
    pub quantity_hi: i32,
}

// The predicate of the token, where the model has the token.
fn pred_of<'a>(model: &'a Model, token: &TokenName) -> Option<&'a Pred>
    ensures { MatchOption result
        ((slot : Slot) (predicate : Pred) → HasToken model.now token.now slot
        → slice_get model.now.preds slot.pred ≡ Some predicate → ⊥)
        (λ predicate. (slot : Slot) × HasToken model.now token.now slot
        × (slice_get model.now.preds slot.pred ≡ Some predicate.now)) }
{
    let Some(root) = item_at(model.problem.roots.as_slice(), token.root as usize) else {
        return None;
    };
    let Some(pred) = model.pred_after(root.pred, token.steps.as_slice()) else {
        return None;
    };
    item_at(model.preds.as_slice(), pred as usize)
}

// The kind, where tokens of predicates of this kind do something to resources.
fn role(kind: PredKind) -> Option<PredKind>
    ensures { MatchOption result (IsRole kind → ⊥) (λ role. (role ≡ kind) × IsRole kind) }
{
    match kind {
        PredKind::Plain => None,
        PredKind::Uses => Some(PredKind::Uses),
        PredKind::Produce => Some(PredKind::Produce),
        PredKind::Consume => Some(PredKind::Consume),
    }
}

// What the token at the place does to resources, where it does something.
fn role_at<V: View>(model: &Model, view: &V, place: u32) -> Option<PredKind>
    ensures { MatchOption result
        ((token : TokenName) (kind : PredKind) → IsTokenAt (V.state view.now) place token → HasRole model.now token kind → ⊥)
        (λ kind. (token : TokenName) × IsTokenAt (V.state view.now) place token × HasRole model.now token kind) }
{
    let Some(token) = view.token_at(place) else {
        return None;
    };
    let Some(pred) = pred_of(model, token) else {
        return None;
    };
    role(pred.kind)
}

// The token at the place with the ends of what it may be, where it has a start, an end and a first parameter.
fn measured<V: View>(view: &V, place: u32, kind: PredKind) -> Option<Actor>
    ensures { MatchOption result
        ((token : TokenName) (actor : Actor) → IsTokenAt (V.state view.now) place token
        → IsMeasured (V.state view.now) token actor → ⊥)
        (λ actor. (token : TokenName) × IsMeasured (V.state view.now) token actor
        × (actor.place ≡ place) × (actor.kind ≡ kind)) }
{
    let Some(start) = view.domain_at(place, Part::Start) else {
        return None;
    };
    let Some(end) = view.domain_at(place, Part::End) else {
        return None;
    };
    let Some(quantity) = view.domain_at(place, Part::Param(0)) else {
        return None;
    };
    Some(Actor {
        place,
        kind,
        start_lo: start.lo(),
        start_hi: start.hi(),
        end_lo: end.lo(),
        quantity_lo: quantity.lo(),
        quantity_hi: quantity.hi(),
    })
}

// The token at the place, where it is active and does something to resources.
fn actor_at<V: View>(model: &Model, view: &V, place: u32) -> Option<Actor>
    requires model { V.model view.now ≡ model.now }
    requires sound { IsSoundView (V.model view.now) (V.decisions view.now) (V.state view.now) }
    ensures { MatchOption result
        ((token : TokenName) (actor : Actor) → IsTokenAt (V.state view.now) place token
        → IsActorOf (V.model view.now) (V.decisions view.now) (V.state view.now) token actor → ⊥)
        (λ actor. (token : TokenName) × IsTokenAt (V.state view.now) place token
        × IsActorOf (V.model view.now) (V.decisions view.now) (V.state view.now) token actor) }
{
    if !is_active(view, place) {
        return None;
    }
    let Some(kind) = role_at(model, view, place) else {
        return None;
    };
    measured(view, place, kind)
}

/// The active tokens that use, produce or consume, in the order of tokens. It goes over all tokens once.
pub fn actors<V: View>(alloc: Global, model: &Model, view: &V) -> Result<Vec<Actor>, AllocError>
    requires model { V.model view.now ≡ model.now }
    requires sound { IsSoundView (V.model view.now) (V.decisions view.now) (V.state view.now) }
    ensures { IfOk result (λ actors. Picks (IsActorOf (V.model view.now) (V.decisions view.now) (V.state view.now))
        (V.state view.now).tokens actors.items) }
{
    let mut found = Vec::new(alloc);
    let count = view.count();
    for place in 0..count {
        push_found(&mut found, actor_at(model, view, place))?;
    }
    Ok(found)
}
