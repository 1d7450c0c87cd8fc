//! What stands at the places of a view.

ghost use Rattle.eu_name.specs.declared.name.TokenName.{TokenName};
ghost use Rattle.model_core.specs.TokenStates.{HasTokenState};
ghost use Rattle.model_core.specs.Views.{IsTokenAt};

use eu_name::name::TokenName;
use model_core::view::{TokenState, View};

/// The token at a place where there is one.
pub fn token_of<V: View>(view: &V, place: u32) -> &TokenName
    requires { (token : TokenName) × IsTokenAt (V.state view.now) place token }
    ensures { IsTokenAt (V.state view.now) place result.now }
{
    match view.token_at(place) {
        Some(token) => token,
        None => unreachable!(),
    }
}

/// What has become of the token at such a place.
pub fn state_of<V: View>(view: &V, place: u32) -> TokenState
    requires { (token : TokenName) × IsTokenAt (V.state view.now) place token }
    ensures { (token : TokenName) → IsTokenAt (V.state view.now) place token
        → HasTokenState (V.model view.now) (V.state view.now) (V.decisions view.now) token result }
{
    match view.state_at(place) {
        Some(state) => state,
        None => unreachable!(),
    }
}
