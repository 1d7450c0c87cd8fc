//! Tokens that are rejected.

ghost use Rattle.std.specs.Prelude.{Contains};
ghost use Rattle.model_core.specs.declared.decision.Decision.TheVariants.{Reject};
ghost use Rattle.model_core.specs.declared.model.Model.{Model as Problem};
ghost use Rattle.db_store.specs.StoreMarks.{KeepStoreMarks};
ghost use Rattle.db_posting.specs.Origins.{content_now};
ghost use Rattle.db_decide.specs.TakingUp.{TakesUp};

use constraint_net::NetFault;
use db_posting::place_of;
use db_store::Store;
use eu_name::name::TokenName;
use model_core::view::TokenState;

/// Takes up that the token doesn't take place.
pub fn reject(store: &mut Store, token: &TokenName) -> Result<(), NetFault>
    requires { Contains (content_now store.old).tokens token.now }
    ensures takes { (model : Problem) → TakesUp model (Reject token.now) store.old result store.new }
    ensures marks { KeepStoreMarks store.old store.new }
{
    store.is_sound();
    let place = place_of(store.tokens(), token);
    store.set_state(place, TokenState::Rejected)?;
    Ok(())
}
