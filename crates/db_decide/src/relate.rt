//! Tokens that are related.

ghost use Rattle.model_core.specs.declared.decision.Decision.TheVariants.{Relate};
ghost use Rattle.model_core.specs.declared.model.Model.{Model as Problem};
ghost use Rattle.db_store.specs.StoreMarks.{KeepStoreMarks};
ghost use Rattle.db_posting.specs.Origins.{content_now};
ghost use Rattle.db_posting.specs.Terms.{HasTimes};
ghost use Rattle.db_decide.specs.TakingUp.{TakesUp};

use constraint_net::NetFault;
use db_posting::{place_of, post_relation_between};
use db_store::Store;
use eu_name::name::TokenName;
use model_core::item::Rel;

/// Takes up that the relation holds between the first token and the second.
pub fn relate(
    store: &mut Store,
    relation: Rel,
    first: &TokenName,
    second: &TokenName,
) -> Result<(), NetFault>
    requires first { HasTimes (content_now store.old) first.now }
    requires second { HasTimes (content_now store.old) second.now }
    ensures takes { (model : Problem) → TakesUp model (Relate relation first.now second.now) store.old result store.new }
    ensures marks { KeepStoreMarks store.old store.new }
{
    store.is_sound();
    let one = place_of(store.tokens(), first);
    let other = place_of(store.tokens(), second);
    post_relation_between(store, one, other, relation)?;
    Ok(())
}
