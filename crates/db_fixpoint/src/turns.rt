//! Tokens that take turns on a timeline.

ghost use Rattle.std.specs.Prelude.{◌↔◌, ◌<◌, ◌<ℤ◌, ℕ, ℤ, List, [], ◌∷◌, Some, length, IsTrue, MatchBool, MatchOption, OnOk};
ghost use Rattle.domain_core.specs.Domain.{Domain, least, greatest};
ghost use Rattle.model_core.specs.declared.decision.Decision.{Decision};
ghost use Rattle.model_core.specs.declared.model.Model.{Model as Problem};
ghost use Rattle.model_core.specs.Decided.{IsActive};
ghost use Rattle.model_core.specs.State.{Gives};
ghost use Rattle.token_store.specs.Orders.{name_at};
ghost use Rattle.token_store.specs.Tokens.{tokens_now};
ghost use Rattle.plan_defs.specs.Timelines.{IsOn, EndsTooLate};
ghost use Rattle.model_core.specs.Content.{shown};
ghost use Rattle.db_store.specs.Keys.{named_variable, IsKeyBelow};
ghost use Rattle.db_store.specs.StoreMarks.{KeepStoreMarks};
ghost use Rattle.db_posting.specs.Origins.{content_now};
ghost use Rattle.db_posting.specs.Posted.{OnlyPosts};
ghost use Rattle.db_posting.specs.Terms.{HasTimesAt};
ghost use Rattle.db_fixpoint.specs.Seating.{IsSeatingOf, KeepsSeating};
ghost use Rattle.db_fixpoint.specs.Turns.{PostsOrMarks, HaveDecided, FindsTimeline, SeesToClaims, SaysTurn, TakeTheirTurns, TakesTurnsAmong, TakesTurns};

use super::seating::Seating;
use db_posting::{PartAt, is_known_at_most, post_at_most};
use db_store::{Store, VarKey};
use domain_core::domain::Dom;
use eu_name::name::Part;
use model_core::model::Model;
use std::alloc::AllocError;
use timeline_core::{is_timeline, takes_place};

// The domain of the variable of this key.
fn domain_of(store: &Store, key: VarKey) -> Option<&Dom>
    requires { IsKeyBelow (length (tokens_now store.now.past)) key }
    ensures { let content = content_now store.now in MatchOption result
        ((domain : Domain) → Gives (shown content) (named_variable content.tokens key) domain → ⊥)
        (λ domain. Gives (shown content) (named_variable content.tokens key) domain.now) }
{
    store.is_sound();
    let Some(number) = store.find_variable(key) else {
        return None;
    };
    store.net().get(number)
}

// The object of the token at the place, where it can be on one only.
fn object_of(store: &Store, place: u32) -> Option<i32>
    requires { place < length (tokens_now store.now.past) }
    ensures { let content = content_now store.now in MatchOption result
        ((object : ℤ) → IsOn (shown content) (name_at content.tokens place) object → ⊥)
        (IsOn (shown content) (name_at content.tokens place)) }
{
    store.is_sound();
    let Some(domain) = domain_of(store, VarKey::Part(place, Part::Object)) else {
        return None;
    };
    domain.single()
}

// Whether the token at the place takes place by itself.
fn is_active(store: &Store, place: u32) -> bool
    requires { place < length (tokens_now store.now.past) }
    ensures { (model : Problem) (decisions : List Decision) → HaveDecided model decisions store.now
        → (IsTrue result ↔ IsActive model decisions (name_at (content_now store.now).tokens place)) }
{
    match store.tokens().state(place) {
        Some(state) => takes_place(state),
        None => unreachable!(),
    }
}

// The timeline on which the token at the place is active, where it can be on no other object.
fn timeline_of(model: &Model, store: &Store, place: u32) -> Option<i32>
    requires { place < length (tokens_now store.now.past) }
    ensures { FindsTimeline model.now store.now place result }
{
    store.is_sound();
    if !is_active(store, place) {
        return None;
    }
    let Some(object) = object_of(store, place) else {
        return None;
    };
    if is_timeline(model, object) {
        Some(object)
    } else {
        None
    }
}

// Whether the greatest value of the one domain is less than the least of the other.
fn is_below(one: &Dom, other: &Dom) -> bool
    ensures { IsTrue result ↔ (greatest one.now <ℤ least other.now) }
{
    one.hi() < other.lo()
}

// Whether the token at the one place can't end before the one at the other starts.
fn ends_too_late(store: &Store, one: u32, other: u32) -> bool
    requires one { one < length (tokens_now store.now.past) }
    requires other { other < length (tokens_now store.now.past) }
    ensures { let content = content_now store.now in MatchBool result
        (EndsTooLate (shown content) (name_at content.tokens one) (name_at content.tokens other))
        (EndsTooLate (shown content) (name_at content.tokens one) (name_at content.tokens other) → ⊥) }
{
    store.is_sound();
    let Some(end) = domain_of(store, VarKey::Part(one, Part::End)) else {
        return false;
    };
    let Some(start) = domain_of(store, VarKey::Part(other, Part::Start)) else {
        return false;
    };
    is_below(start, end)
}

// Asks from now on that the other token ends before the one starts, where the one can't end before the other starts and this
// isn't asked already.
fn post_turn(store: &mut Store, one: u32, other: u32) -> Result<(), AllocError>
    requires one { HasTimesAt store.old one }
    requires other { HasTimesAt store.old other }
    ensures turn { OnOk result (let content = content_now store.old in SeesToClaims content.names
        (SaysTurn (shown content) (name_at content.tokens one) (name_at content.tokens other))
        store.old.net.constraints store.new.net.constraints) }
    ensures only { OnlyPosts store.old store.new }
    ensures marks { KeepStoreMarks store.old store.new }
{
    if !ends_too_late(store, one, other) {
        return Ok(());
    }
    let end = PartAt {
        token: other,
        part: Part::End,
    };
    let start = PartAt {
        token: one,
        part: Part::Start,
    };
    if is_known_at_most(store, end, start) {
        return Ok(());
    }
    post_at_most(store, end, start)
}

// Lets the tokens at the two places take turns, where the one is active on this timeline.
fn take_turns(
    store: &mut Store,
    model: &Model,
    one: u32,
    other: u32,
    timeline: i32,
) -> Result<(), AllocError>
    requires one { HasTimesAt store.old one }
    requires other { HasTimesAt store.old other }
    requires on { FindsTimeline model.now store.old one (Some timeline) }
    ensures turns { OnOk result (TakeTheirTurns model.now one other store.old store.new) }
    ensures only { OnlyPosts store.old store.new }
    ensures marks { KeepStoreMarks store.old store.new }
{
    store.is_sound();
    if one == other {
        return Ok(());
    }
    let Some(found) = timeline_of(model, store, other) else {
        return Ok(());
    };
    if found != timeline {
        return Ok(());
    }
    post_turn(store, one, other)?;
    post_turn(store, other, one)
}

// Lets the token take turns with that at the other place, if the store has one there.
fn take_turns_at(
    store: &mut Store,
    model: &Model,
    one: u32,
    other: u32,
    timeline: i32,
) -> Result<(), AllocError>
    requires times { (place : ℕ) → place < length (tokens_now store.old.past) → HasTimesAt store.old place }
    requires one { one < length (tokens_now store.old.past) }
    requires on { FindsTimeline model.now store.old one (Some timeline) }
    ensures turns { OnOk result (TakesTurnsAmong model.now one (other ∷ []) store.old store.new) }
    ensures only { OnlyPosts store.old store.new }
    ensures marks { KeepStoreMarks store.old store.new }
{
    if other >= store.tokens().count() {
        return Ok(());
    }
    take_turns(store, model, one, other, timeline)
}

// Lets the token at the place take turns with those at the others, where it is active on this timeline.
fn take_turns_among(
    store: &mut Store,
    model: &Model,
    place: u32,
    others: &[u32],
    timeline: i32,
) -> Result<(), AllocError>
    requires times { (other : ℕ) → other < length (tokens_now store.old.past) → HasTimesAt store.old other }
    requires place { place < length (tokens_now store.old.past) }
    requires on { FindsTimeline model.now store.old place (Some timeline) }
    ensures turns { OnOk result (TakesTurnsAmong model.now place others.now store.old store.new) }
    ensures only { OnlyPosts store.old store.new }
    ensures marks { KeepStoreMarks store.old store.new }
{
    for other in others {
        take_turns_at(store, model, place, *other, timeline)?;
    }
    Ok(())
}

/// Asks from now on for the order of the token at the place and of each other on its timeline, where the two have to be in
/// order. It goes over the tokens that are noted on that timeline.
pub fn look_at_turns(
    store: &mut Store,
    seating: &mut Seating,
    model: &Model,
    place: u32,
) -> Result<(), AllocError>
    requires times { (other : ℕ) → other < length (tokens_now store.old.past) → HasTimesAt store.old other }
    requires place { place < length (tokens_now store.old.past) }
    requires seated { IsSeatingOf store.old seating.old }
    ensures turns { OnOk result (TakesTurns model.now place store.old store.new) }
    ensures only { PostsOrMarks store.old store.new }
    ensures marks { KeepStoreMarks store.old store.new }
    ensures seated { KeepsSeating seating.old store.new seating.new }
{
    store.is_sound();
    let Some(timeline) = timeline_of(model, store, place) else {
        return Ok(());
    };
    seating.catch_up(store)?;
    take_turns_among(store, model, place, seating.on(timeline), timeline)
}
