//! The first flaw of a state.

ghost use Rattle.std.specs.Prelude.{◌≡◌, ◌↔◌, IsTrue, MatchBool};
ghost use Rattle.eu_name.specs.declared.name.TokenName.{TokenName};
ghost use Rattle.model_core.specs.Decided.{IsDecided};
ghost use Rattle.model_core.specs.Views.{IsTokenAt};
ghost use Rattle.flaw_core.specs.Rules.{IsLeastFor};
ghost use Rattle.flaw_core.specs.Seeking.{FindsFirst, IsInactive, IsTokenFlaw, IsPairFlaw, IsLateFlaw, IsLaterFlaw, IsAnyFlaw};

use super::flaw::Flaw;
use super::times::unbound_time;
use super::values::unbound_value;
use model_core::model::Model;
use model_core::view::{TokenState, View};
use timeline_core::first_unordered;

// Whether nothing is decided of a token in this state.
fn says_undecided(state: TokenState) -> bool
    ensures { IsTrue result ↔ IsInactive state }
{
    match state {
        TokenState::Inactive => true,
        TokenState::Active => false,
        TokenState::Fact => false,
        TokenState::Merged(_) => false,
        TokenState::Rejected => false,
    }
}

// Whether nothing is decided of the token at the place.
fn is_undecided<V: View>(view: &V, place: u32) -> bool
    ensures { MatchBool result
        ((token : TokenName) × IsTokenAt (V.state view.now) place token
        × (IsDecided (V.model view.now) (V.decisions view.now) token → ⊥))
        ((token : TokenName) → IsTokenAt (V.state view.now) place token
        → (IsDecided (V.model view.now) (V.decisions view.now) token → ⊥) → ⊥) }
{
    match view.state_at(place) {
        Some(state) => says_undecided(state),
        None => false,
    }
}

// The first token of which nothing is decided.
fn undecided<V: View>(view: &V) -> Option<Flaw>
    requires { IsLeastFor (V.model view.now) (V.decisions view.now) (V.state view.now) }
    ensures { FindsFirst (V.model view.now) (V.decisions view.now) (V.state view.now) IsTokenFlaw result }
{
    for place in 0..view.count() {
        if is_undecided(view, place) {
            return Some(Flaw::Token(place));
        }
    }
    None
}

// The first two tokens of one timeline without an order.
fn unordered<V: View>(model: &Model, view: &V) -> Option<Flaw>
    requires model { V.model view.now ≡ model.now }
    requires least { IsLeastFor (V.model view.now) (V.decisions view.now) (V.state view.now) }
    ensures { FindsFirst (V.model view.now) (V.decisions view.now) (V.state view.now) IsPairFlaw result }
{
    match first_unordered(model, view) {
        Some((one, other)) => Some(Flaw::Pair(one, other)),
        None => None,
    }
}

// The first flaw that is about times.
fn late_flaw<V: View>(model: &Model, view: &V) -> Option<Flaw>
    requires model { V.model view.now ≡ model.now }
    requires least { IsLeastFor (V.model view.now) (V.decisions view.now) (V.state view.now) }
    ensures { FindsFirst (V.model view.now) (V.decisions view.now) (V.state view.now) IsLateFlaw result }
{
    if let Some(flaw) = unordered(model, view) {
        return Some(flaw);
    }
    unbound_time(view)
}

// The first flaw that is about no token of which nothing is decided.
fn later_flaw<V: View>(model: &Model, view: &V) -> Option<Flaw>
    requires model { V.model view.now ≡ model.now }
    requires least { IsLeastFor (V.model view.now) (V.decisions view.now) (V.state view.now) }
    ensures { FindsFirst (V.model view.now) (V.decisions view.now) (V.state view.now) IsLaterFlaw result }
{
    if let Some(flaw) = unbound_value(model, view) {
        return Some(flaw);
    }
    late_flaw(model, view)
}

/// The first flaw.
pub fn first_flaw<V: View>(model: &Model, view: &V) -> Option<Flaw>
    requires model { V.model view.now ≡ model.now }
    requires least { IsLeastFor (V.model view.now) (V.decisions view.now) (V.state view.now) }
    ensures { FindsFirst (V.model view.now) (V.decisions view.now) (V.state view.now) IsAnyFlaw result }
{
    if let Some(flaw) = undecided(view) {
        return Some(flaw);
    }
    later_flaw(model, view)
}
