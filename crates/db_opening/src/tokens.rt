//! Tokens that come, with their parts.

ghost use Rattle.std.specs.Prelude.{◌≡◌, ◌↔◌, ◌<◌, length, Contains, IsTrue, IfOk, OnOk, option_copied};
ghost use Rattle.model_core.specs.declared.rule.Slot.{Slot};
ghost use Rattle.model_core.specs.Lawful.{IsLawful};
ghost use Rattle.model_core.specs.Tokens.{HasToken, LeadsToSlot, IsFact};
ghost use Rattle.token_store.specs.Tokens.{tokens_now, token_names, IsNewName};
ghost use Rattle.db_store.specs.Puts.{PutsToken};
ghost use Rattle.db_store.specs.StoreMarks.{KeepStoreMarks};
ghost use Rattle.db_posting.specs.Origins.{content_now};
ghost use Rattle.db_opening.specs.Arriving.{BeginsToken, WantsSomePart, BringsOrFails, AskForToken};
ghost use Rattle.db_opening.specs.Begun.{StaysBegun};
ghost use Rattle.db_opening.specs.Bringing.{Brings};
ghost use Rattle.db_opening.specs.Parts.{slot_asked};
ghost use Rattle.db_posting.specs.Underway.{StaysUnderway, OnlyAdds};
ghost use Rattle.db_posting.specs.Wanted.{ArePreds};

use super::parts::{Asked, bring_parts, given_by, parts_of};
use constraint_net::NetFault;
use db_posting::post_lasts;
use db_store::Store;
use eu_name::name::{Step, TokenName};
use model_core::model::{Model, RootKind};
use model_core::view::TokenState;
use std::alloc::{AllocError, Global};

// What the step from a token of the predicate asks for.
fn asked_by(model: &Model, pred: u32, step: Step) -> Asked
    requires { (slot : Slot) × LeadsToSlot model.now pred step slot }
    ensures { LeadsToSlot model.now pred step (slot_asked result) }
{
    let Some(rule) = model.rule_of(pred, step.rule) else {
        unreachable!()
    };
    let slot = &rule.slots.as_slice()[usize::from(step.slot)];
    Asked {
        pred: slot.pred,
        object: given_by(&slot.object),
    }
}

// What asks for the token of this name.
fn asked_for<'a>(model: &'a Model, token: &TokenName) -> Asked<'a>
    requires { (slot : Slot) × HasToken model.now token.now slot }
    ensures { HasToken model.now token.now (slot_asked result) }
{
    let root = &model.problem.roots.as_slice()[token.root as usize];
    let mut asked = Asked {
        pred: root.pred,
        object: Some(&root.object),
    };
    for step in token.steps.as_slice() {
        asked = asked_by(model, asked.pred, *step);
    }
    asked
}

// Whether the token takes place whatever is decided.
pub fn is_fact(model: &Model, token: &TokenName) -> bool
    ensures { IsTrue result ↔ IsFact model.now token.now }
{
    if !token.steps.is_empty() {
        return false;
    }
    match model.problem.roots.as_slice().get(token.root as usize) {
        Some(root) => match root.kind {
            RootKind::Fact => true,
            RootKind::Goal | RootKind::Rejectable => false,
        },
        None => false,
    }
}

// Adds a token of a new name, of which nothing is decided yet, and answers its place.
fn add_new(store: &mut Store, token: &TokenName, pred: u32) -> Result<u32, AllocError>
    requires { IsNewName (tokens_now store.old.past) token.now }
    ensures added { IfOk result (λ place. PutsToken token.now pred store.old (Ok (Some place)) store.new) }
    ensures marks { KeepStoreMarks store.old store.new }
{
    match store.add_token(token.copy()?, pred)? {
        Some(place) => Ok(place),
        None => unreachable!(),
    }
}

// Adds a token of a new name, in the state in which it begins, and answers its place.
fn begin_token(
    store: &mut Store,
    model: &Model,
    token: &TokenName,
    pred: u32,
) -> Result<u32, AllocError>
    requires { IsNewName (tokens_now store.old.past) token.now }
    ensures begins { IfOk result (BeginsToken model.now token.now pred store.old store.new) }
    ensures marks { KeepStoreMarks store.old store.new }
{
    let place = add_new(store, token, pred)?;
    if is_fact(model, token) {
        store.set_state(place, TokenState::Fact)?;
    }
    Ok(place)
}

// Adds all parts of the token at the place, for which this is asked.
fn bring_all_parts(
    alloc: Global,
    store: &mut Store,
    model: &Model,
    asked: &Asked,
    place: u32,
) -> Result<(), NetFault>
    requires lawful { IsLawful model.now }
    requires token { place < length (tokens_now store.old.past) }
    ensures brings { Brings (WantsSomePart model.now (slot_asked asked.now) place) store.old result store.new }
    ensures marks { KeepStoreMarks store.old store.new }
{
    let parts = parts_of(alloc, model, asked.pred)?;
    bring_parts(store, model, asked, place, parts.as_slice())
}

// Adds a token of a new name, with its parts, and asks that it lasts.
fn bring_new(
    alloc: Global,
    store: &mut Store,
    model: &Model,
    token: &TokenName,
) -> Result<(), NetFault>
    requires lawful { IsLawful model.now }
    requires fresh { IsNewName (tokens_now store.old.past) token.now }
    requires there { (slot : Slot) × HasToken model.now token.now slot }
    ensures brings { BringsOrFails model.now token.now store.old result store.new }
    ensures marks { KeepStoreMarks store.old store.new }
{
    let asked = asked_for(model, token);
    let place = begin_token(store, model, token, asked.pred)?;
    bring_all_parts(alloc, store, model, &asked, place)?;
    post_lasts(store, place)?;
    Ok(())
}

/// Adds the token, with a variable for each of its parts, and asks that it lasts, unless it is there.
pub fn bring_token(
    alloc: Global,
    store: &mut Store,
    model: &Model,
    token: &TokenName,
) -> Result<(), NetFault>
    requires lawful { IsLawful model.now }
    requires preds { ArePreds model.now (tokens_now store.old.past) }
    requires there { (slot : Slot) × HasToken model.now token.now slot }
    ensures underway { StaysUnderway model.now (AskForToken model.now (content_now store.old) token.now)
        store.old result store.new }
    ensures begun { StaysBegun model.now token.now store.old result store.new }
    ensures there { OnOk result (Contains (token_names (tokens_now store.new.past)) token.now) }
    ensures adds { OnOk result (OnlyAdds store.old store.new) }
    ensures preds { OnOk result (ArePreds model.now (tokens_now store.new.past)) }
    ensures marks { KeepStoreMarks store.old store.new }
{
    store.is_sound();
    if store.tokens().find(token).is_some() {
        return Ok(());
    }
    let brought = bring_new(alloc, store, model, token);
    store.is_sound();
    brought
}
