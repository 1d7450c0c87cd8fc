//! Whether what tokens do to resources is as it was at a mark.

ghost use Rattle.std.specs.Prelude.{◌≡◌, ℕ, false, length, All, IfOk, IsTrue, slice_get, Some};
ghost use Rattle.model_core.specs.declared.view.TokenState.{TokenState as Kept};
ghost use Rattle.token_store.specs.Tokens.{tokens_now, token_names, token_states};
ghost use Rattle.plan_defs.specs.Unordered.{TakesPlace};
ghost use Rattle.db_store.specs.StoreMarks.{IsStoreMark, CanGoBack};
ghost use Rattle.db_store.specs.Stores.{Snapshot};
ghost use Rattle.db_resources.specs.Touching.{ActsOn, IsNoActorAt, IsIdleAt, IsOfIdle, BeginsNone, DecidesNoToken};
ghost use Rattle.db_resources.specs.Touching.{AreActorsAsBefore, AreLevelsAsBefore};

use db_store::{Mark, Store, VarKey};
use eu_name::name::TokenName;
use model_core::class::PredKind;
use model_core::decision::Decision;
use model_core::model::Model;
use std::alloc::AllocError;
use timeline_core::takes_place;
use token_store::Tokens;

/// The resources of one sort.
#[derive(Clone, Copy)]
pub enum Resources {
    Reusables,
    Reservoirs,
}

// Whether tokens of a predicate of this kind act on the resources.
fn acts_on(kind: PredKind, resources: Resources) -> bool
    ensures { ActsOn resources kind → IsTrue result }
{
    match kind {
        PredKind::Plain => false,
        PredKind::Uses => matches!(resources, Resources::Reusables),
        PredKind::Produce => matches!(resources, Resources::Reservoirs),
        PredKind::Consume => matches!(resources, Resources::Reservoirs),
    }
}

// Whether the token at the place takes place.
fn takes_place_at(tokens: &Tokens, place: u32) -> bool
    ensures { (state : Kept) → slice_get (token_states (tokens_now tokens.now)) place ≡ Some state
        → TakesPlace state → IsTrue result }
{
    match tokens.state(place) {
        Some(state) => takes_place(state),
        None => false,
    }
}

// Whether the token at the place is of a predicate that acts on the resources.
fn is_actor_at(model: &Model, tokens: &Tokens, place: u32, resources: Resources) -> bool
    ensures { result ≡ false → IsNoActorAt resources model.now (tokens_now tokens.now) place }
{
    let Some(pred) = tokens.pred(place) else {
        return false;
    };
    match model.preds.as_slice().get(pred as usize) {
        Some(found) => acts_on(found.kind, resources),
        None => false,
    }
}

// Whether the token at the place takes place and acts on the resources.
fn acts_at(model: &Model, tokens: &Tokens, place: u32, resources: Resources) -> bool
    ensures { result ≡ false → IsIdleAt resources model.now (tokens_now tokens.now) place }
{
    if takes_place_at(tokens, place) {
        is_actor_at(model, tokens, place, resources)
    } else {
        false
    }
}

// Whether the variable of this number is a part of such a token.
fn is_of_actor(model: &Model, store: &Store, number: usize, resources: Resources) -> bool
    ensures { result ≡ false → IsOfIdle resources model.now store.now number }
{
    match store.key_at(number) {
        Some(VarKey::Part(place, _part)) => acts_at(model, store.tokens(), place, resources),
        _ => false,
    }
}

// Whether one of the variables is.
fn is_one_of_actor(model: &Model, store: &Store, numbers: &[usize], resources: Resources) -> bool
    ensures { result ≡ false → All (IsOfIdle resources model.now store.now) numbers.now }
{
    for number in numbers {
        if is_of_actor(model, store, *number, resources) {
            return true;
        }
    }
    false
}

// Whether the token is of a predicate that acts on the resources, or isn't there.
fn may_act(model: &Model, tokens: &Tokens, token: &TokenName, resources: Resources) -> bool
    ensures { result ≡ false → (place : ℕ)
        → slice_get (token_names (tokens_now tokens.now)) place ≡ Some token.now
        → IsNoActorAt resources model.now (tokens_now tokens.now) place }
{
    match tokens.find(token) {
        Some(place) => is_actor_at(model, tokens, place, resources),
        None => true,
    }
}

// Whether the decision lets such a token take place.
fn lets_one_begin(model: &Model, store: &Store, decision: &Decision, resources: Resources) -> bool
    ensures { result ≡ false → BeginsNone resources model.now store.now decision.now }
{
    match decision {
        Decision::Activate(token) => may_act(model, store.tokens(), token, resources),
        _ => false,
    }
}

/// Whether all that take place and act on the resources did so at the mark, and none of their variables was written since. It goes
/// over the variables that were.
pub fn are_actors_as_before(
    model: &Model,
    store: &Store,
    decision: &Decision,
    mark: Mark,
    resources: Resources,
) -> Result<bool, AllocError>
    requires { CanGoBack store.now mark }
    ensures { IfOk result (λ same. IsTrue same → (there : Snapshot)
        → IsStoreMark store.now mark there → AreActorsAsBefore resources model.now store.now decision.now there) }
{
    if lets_one_begin(model, store, decision, resources) {
        return Ok(false);
    }
    let touched = store.touched_since(mark)?;
    Ok(!is_one_of_actor(model, store, touched.as_slice(), resources))
}

// Whether the decision leaves open what becomes of tokens.
fn decides_no_token(decision: &Decision) -> bool
    ensures { IsTrue result → DecidesNoToken decision.now }
{
    match decision {
        Decision::Specify(_, _) => true,
        Decision::Order(_, _) => true,
        Decision::Constrain(_, _) => true,
        Decision::Relate(_, _, _) => true,
        Decision::Activate(_) => false,
        Decision::Merge(_, _) => false,
        Decision::Reject(_) => false,
    }
}

// Whether it does, and as many blocks are open as were.
fn opens_nothing(store: &Store, decision: &Decision, opened: usize) -> bool
    ensures { IsTrue result → DecidesNoToken decision.now × (length store.now.blocks ≡ opened) }
{
    if decides_no_token(decision) {
        store.block_count() == opened
    } else {
        false
    }
}

/// Whether since the mark, at which so many blocks were open, nothing has come by which it is told whether tokens can still come,
/// and all that change levels are as they were.
pub fn are_levels_as_before(
    model: &Model,
    store: &Store,
    decision: &Decision,
    mark: Mark,
    opened: usize,
) -> Result<bool, AllocError>
    requires { CanGoBack store.now mark }
    ensures { IfOk result (λ same. IsTrue same → AreLevelsAsBefore model.now store.now decision.now mark opened) }
{
    if !opens_nothing(store, decision, opened) {
        return Ok(false);
    }
    are_actors_as_before(model, store, decision, mark, Resources::Reservoirs)
}
