//! The first start or duration without a value.

ghost use Rattle.std.specs.Prelude.{◌≡◌};
ghost use Rattle.eu_name.specs.declared.name.Part.TheVariants.{Object};
ghost use Rattle.flaw_core.specs.declared.flaw.VarPlace.TheVariants as at;
ghost use Rattle.flaw_core.specs.Rules.{IsLeastFor};
ghost use Rattle.flaw_core.specs.Places.{IsOfUnrejected, IsTimedAt};
ghost use Rattle.flaw_core.specs.Seeking.{FindsFirst, IsTimeAt, IsTimeFlawOf, IsTimeFlaw};

use super::flaw::{Flaw, VarPlace};
use super::variables::{has_several, is_rejected};
use eu_name::name::Part;
use model_core::view::View;

// The time at the place, if it has more than one value.
fn unbound_at<V: View>(view: &V, at: VarPlace) -> Option<Flaw>
    requires least { IsLeastFor (V.model view.now) (V.decisions view.now) (V.state view.now) }
    requires kept { IsOfUnrejected (V.decisions view.now) (V.state view.now) at }
    requires timed { IsTimedAt (V.state view.now) at }
    ensures { FindsFirst (V.model view.now) (V.decisions view.now) (V.state view.now) (IsTimeAt (V.state view.now) at) result }
{
    if has_several(view, at) {
        Some(Flaw::Time(at))
    } else {
        None
    }
}

// The start or the duration of the token at the place, if it has more than one value, where the token isn't rejected.
fn unbound_in_token<V: View>(view: &V, place: u32) -> Option<Flaw>
    requires least { IsLeastFor (V.model view.now) (V.decisions view.now) (V.state view.now) }
    requires kept { IsOfUnrejected (V.decisions view.now) (V.state view.now) (at.Part place Object) }
    ensures { FindsFirst (V.model view.now) (V.decisions view.now) (V.state view.now) (IsTimeFlawOf (V.state view.now) place) result }
{
    if let Some(flaw) = unbound_at(view, VarPlace::Part(place, Part::Start)) {
        return Some(flaw);
    }
    unbound_at(view, VarPlace::Part(place, Part::Duration))
}

// The start or the duration of the token at the place, if it has more than one value.
fn unbound_of_token<V: View>(view: &V, place: u32) -> Option<Flaw>
    requires { IsLeastFor (V.model view.now) (V.decisions view.now) (V.state view.now) }
    ensures { FindsFirst (V.model view.now) (V.decisions view.now) (V.state view.now) (IsTimeFlawOf (V.state view.now) place) result }
{
    if is_rejected(view, place) {
        return None;
    }
    unbound_in_token(view, place)
}

/// The first start or duration that has more than one value.
pub fn unbound_time<V: View>(view: &V) -> Option<Flaw>
    requires { IsLeastFor (V.model view.now) (V.decisions view.now) (V.state view.now) }
    ensures { FindsFirst (V.model view.now) (V.decisions view.now) (V.state view.now) IsTimeFlaw result }
{
    for place in 0..view.count() {
        if let Some(flaw) = unbound_of_token(view, place) {
            return Some(flaw);
        }
    }
    None
}
