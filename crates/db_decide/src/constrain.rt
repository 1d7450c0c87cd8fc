//! Constraints that are posted.

ghost use Rattle.std.specs.Prelude.{All};
ghost use Rattle.model_core.specs.declared.decision.Decision.TheVariants.{Constrain};
ghost use Rattle.model_core.specs.declared.model.Model.{Model as Problem};
ghost use Rattle.db_store.specs.StoreMarks.{KeepStoreMarks};
ghost use Rattle.db_posting.specs.Origins.{content_now};
ghost use Rattle.db_posting.specs.Postable.{CanPostArguments, IsArgumentThere};
ghost use Rattle.db_decide.specs.TakingUp.{TakesUp};

use constraint_net::NetFault;
use db_posting::post_arguments;
use db_store::Store;
use domain_core::kind::Kind;
use model_core::decision::ConArg;
use std::alloc::Global;

/// Takes up that the constraint holds of the arguments.
pub fn constrain(
    alloc: Global,
    store: &mut Store,
    kind: Kind,
    arguments: &[ConArg],
) -> Result<(), NetFault>
    requires postable { CanPostArguments kind arguments.now }
    requires there { All (IsArgumentThere (content_now store.old)) arguments.now }
    ensures takes { (model : Problem) → TakesUp model (Constrain kind arguments.now) store.old result store.new }
    ensures marks { KeepStoreMarks store.old store.new }
{
    post_arguments(alloc, store, kind, arguments)?;
    Ok(())
}
