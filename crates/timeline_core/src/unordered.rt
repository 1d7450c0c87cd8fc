//! The first two active tokens on one timeline that have no order.

ghost use Rattle.std.specs.Prelude.{◌≡◌, ◌↔◌, ◌<◌, ◌≤◌, ◌<ℤ◌, ℕ, ℤ, IsTrue, MatchBool, MatchOption};
ghost use Rattle.domain_core.specs.Domain.{least, greatest};
ghost use Rattle.eu_name.specs.declared.name.TokenName.{TokenName};
ghost use Rattle.model_core.specs.Decided.{IsActive};
ghost use Rattle.model_core.specs.State.{AreInOrder};
ghost use Rattle.model_core.specs.Views.{IsTokenAt};
ghost use Rattle.plan_defs.specs.Timelines.{IsOn, IsTimeline};
ghost use Rattle.plan_defs.specs.Unordered.{AreDecidedOnce, TakesPlace, IsActiveOn, MayOverrun, HaveNoOrder};
ghost use Rattle.plan_defs.specs.Unordered.{IsPairAt, IsPartner, IsFirstPair, SettledListsDecideOnce};

use domain_core::domain::Dom;
use eu_name::name::Part;
use model_core::class::ObjectKind;
use model_core::model::Model;
use model_core::view::{TokenState, View};

/// Whether the object of this number is a timeline.
pub fn is_timeline(model: &Model, object: i32) -> bool
    ensures { IsTrue result ↔ IsTimeline model.now object }
{
    if object < 0 {
        return false;
    }
    match model.objects.as_slice().get(object as usize) {
        Some(object) => matches!(object.kind, ObjectKind::Timeline),
        None => false,
    }
}

/// Whether the token at this place takes place.
pub fn is_active<V: View>(view: &V, place: u32) -> bool
    requires { AreDecidedOnce (V.model view.now) (V.decisions view.now) }
    ensures { MatchBool result
        ((token : TokenName) × IsTokenAt (V.state view.now) place token
        × IsActive (V.model view.now) (V.decisions view.now) token)
        ((token : TokenName) → IsTokenAt (V.state view.now) place token
        → IsActive (V.model view.now) (V.decisions view.now) token → ⊥) }
{
    match view.state_at(place) {
        Some(state) => takes_place(state),
        None => false,
    }
}

/// Whether a token in this state takes place by itself.
pub fn takes_place(state: TokenState) -> bool
    ensures { IsTrue result ↔ TakesPlace state }
{
    match state {
        TokenState::Active => true,
        TokenState::Fact => true,
        TokenState::Inactive => false,
        TokenState::Merged(_) => false,
        TokenState::Rejected => false,
    }
}

/// The object of the token at this place, where it can be on one only.
pub fn object_of<V: View>(view: &V, place: u32) -> Option<i32>
    requires { AreInOrder (V.state view.now) }
    ensures { MatchOption result
        ((token : TokenName) (object : ℤ)
        → IsTokenAt (V.state view.now) place token → IsOn (V.state view.now) token object → ⊥)
        (λ object. (token : TokenName)
        × IsTokenAt (V.state view.now) place token × IsOn (V.state view.now) token object) }
{
    let Some(domain) = view.domain_at(place, Part::Object) else {
        return None;
    };
    domain.single()
}

// The timeline on which the token at this place is active, where it can be on no other object.
fn timeline_of<V: View>(model: &Model, view: &V, place: u32) -> Option<i32>
    requires model { V.model view.now ≡ model.now }
    requires order { AreInOrder (V.state view.now) }
    requires decided { AreDecidedOnce (V.model view.now) (V.decisions view.now) }
    ensures { MatchOption result
        ((token : TokenName) (timeline : ℤ) → IsTokenAt (V.state view.now) place token
        → IsActiveOn model.now (V.decisions view.now) (V.state view.now) token timeline → ⊥)
        (λ timeline. (token : TokenName) × IsTokenAt (V.state view.now) place token
        × IsActiveOn model.now (V.decisions view.now) (V.state view.now) token timeline) }
{
    if !is_active(view, place) {
        return None;
    }
    let Some(object) = object_of(view, place) else {
        return None;
    };
    if is_timeline(model, object) {
        Some(object)
    } else {
        None
    }
}

// Whether the token at the one place may end after the one at the other starts.
fn may_overrun<V: View>(view: &V, one: u32, other: u32) -> bool
    requires { AreInOrder (V.state view.now) }
    ensures { MatchBool result
        ((first second : TokenName)
        × (IsTokenAt (V.state view.now) one first × IsTokenAt (V.state view.now) other second
        × MayOverrun (V.state view.now) first second))
        ((first second : TokenName)
        → IsTokenAt (V.state view.now) one first → IsTokenAt (V.state view.now) other second
        → MayOverrun (V.state view.now) first second → ⊥) }
{
    let Some(end) = view.domain_at(one, Part::End) else {
        return false;
    };
    let Some(start) = view.domain_at(other, Part::Start) else {
        return false;
    };
    is_below(start, end)
}

// Whether the least value of the one domain is less than the greatest of the other.
fn is_below(one: &Dom, other: &Dom) -> bool
    ensures { IsTrue result ↔ (least one.now <ℤ greatest other.now) }
{
    one.lo() < other.hi()
}

// Whether the tokens at the two places have no order.
fn have_no_order<V: View>(view: &V, one: u32, other: u32) -> bool
    requires { AreInOrder (V.state view.now) }
    ensures { MatchBool result
        ((first second : TokenName)
        × (IsTokenAt (V.state view.now) one first × IsTokenAt (V.state view.now) other second
        × HaveNoOrder (V.decisions view.now) (V.state view.now) first second))
        ((first second : TokenName)
        → IsTokenAt (V.state view.now) one first → IsTokenAt (V.state view.now) other second
        → HaveNoOrder (V.decisions view.now) (V.state view.now) first second → ⊥) }
{
    if view.ordered(one, other) {
        return false;
    }
    if view.ordered(other, one) {
        return false;
    }
    if !may_overrun(view, one, other) {
        return false;
    }
    may_overrun(view, other, one)
}

// Whether the tokens at the two places are a pair without an order, where the first is active on this timeline.
fn is_pair<V: View>(model: &Model, view: &V, one: u32, other: u32, timeline: i32) -> bool
    requires model { V.model view.now ≡ model.now }
    requires order { AreInOrder (V.state view.now) }
    requires decided { AreDecidedOnce (V.model view.now) (V.decisions view.now) }
    requires active { (token : TokenName) × IsTokenAt (V.state view.now) one token
        × IsActiveOn model.now (V.decisions view.now) (V.state view.now) token timeline }
    requires before { one < other }
    ensures { MatchBool result
        (IsPairAt model.now (V.decisions view.now) (V.state view.now) one other)
        (IsPairAt model.now (V.decisions view.now) (V.state view.now) one other → ⊥) }
{
    let Some(found) = timeline_of(model, view, other) else {
        return false;
    };
    if found != timeline {
        return false;
    }
    have_no_order(view, one, other)
}

// The first place after this one such that the tokens at the two are a pair without an order, where the one at this place
// is active on this timeline.
fn partner_on<V: View>(model: &Model, view: &V, one: u32, timeline: i32) -> Option<u32>
    requires model { V.model view.now ≡ model.now }
    requires order { AreInOrder (V.state view.now) }
    requires decided { AreDecidedOnce (V.model view.now) (V.decisions view.now) }
    requires active { (token : TokenName) × IsTokenAt (V.state view.now) one token
        × IsActiveOn model.now (V.decisions view.now) (V.state view.now) token timeline }
    ensures { IsPartner model.now (V.decisions view.now) (V.state view.now) one result }
{
    let count = view.count();
    for other in one + 1..count {
        if is_pair(model, view, one, other, timeline) {
            return Some(other);
        }
    }
    None
}

// The first place after this one such that the tokens at the two are a pair without an order.
fn partner_of<V: View>(model: &Model, view: &V, one: u32) -> Option<u32>
    requires model { V.model view.now ≡ model.now }
    requires order { AreInOrder (V.state view.now) }
    requires decided { AreDecidedOnce (V.model view.now) (V.decisions view.now) }
    ensures { IsPartner model.now (V.decisions view.now) (V.state view.now) one result }
{
    let Some(timeline) = timeline_of(model, view, one) else {
        return None;
    };
    partner_on(model, view, one, timeline)
}

/// The places of the first two active tokens on one timeline that have no order: none in the list of decisions, and either
/// may end after the other starts. It takes no memory; the time is that of the square of the number of tokens.
pub fn first_unordered<V: View>(model: &Model, view: &V) -> Option<(u32, u32)>
    requires model { V.model view.now ≡ model.now }
    requires order { AreInOrder (V.state view.now) }
    requires decided { AreDecidedOnce (V.model view.now) (V.decisions view.now) }
    ensures { MatchOption result
        ((one other : ℕ) → IsPairAt model.now (V.decisions view.now) (V.state view.now) one other → ⊥)
        (λ pair. IsFirstPair model.now (V.decisions view.now) (V.state view.now) pair.0 pair.1) }
{
    let count = view.count();
    for one in 0..count {
        if let Some(other) = partner_of(model, view, one) {
            return Some((one, other));
        }
    }
    None
}

/// A law: what a settled list of decisions lets take place, it neither merges nor rejects.
pub fn settled_lists_decide_once()
    ensures { SettledListsDecideOnce }
{}
