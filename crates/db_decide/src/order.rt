//! Tokens that are put in order.

ghost use Rattle.model_core.specs.declared.decision.Decision.TheVariants.{Order};
ghost use Rattle.model_core.specs.declared.model.Model.{Model as Problem};
ghost use Rattle.db_store.specs.StoreMarks.{KeepStoreMarks};
ghost use Rattle.db_posting.specs.Origins.{content_now};
ghost use Rattle.db_posting.specs.Terms.{HasTimes};
ghost use Rattle.db_decide.specs.TakingUp.{TakesUp};

use constraint_net::NetFault;
use db_posting::{PartAt, place_of, post_at_most};
use db_store::Store;
use eu_name::name::{Part, TokenName};

/// Takes up that the first token ends before the second starts.
pub fn order(store: &mut Store, first: &TokenName, second: &TokenName) -> Result<(), NetFault>
    requires first { HasTimes (content_now store.old) first.now }
    requires second { HasTimes (content_now store.old) second.now }
    ensures takes { (model : Problem) → TakesUp model (Order first.now second.now) store.old result store.new }
    ensures marks { KeepStoreMarks store.old store.new }
{
    store.is_sound();
    let end = PartAt {
        token: place_of(store.tokens(), first),
        part: Part::End,
    };
    let start = PartAt {
        token: place_of(store.tokens(), second),
        part: Part::Start,
    };
    post_at_most(store, end, start)?;
    Ok(())
}
