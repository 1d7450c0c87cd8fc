//! Variables that are given a value.

ghost use Rattle.std.specs.Prelude.{Contains};
ghost use Rattle.model_core.specs.declared.decision.Decision.TheVariants.{Specify};
ghost use Rattle.model_core.specs.declared.model.Model.{Model as Problem};
ghost use Rattle.db_store.specs.StoreMarks.{KeepStoreMarks};
ghost use Rattle.db_posting.specs.Origins.{content_now};
ghost use Rattle.db_decide.specs.TakingUp.{TakesUp};

use constraint_net::NetFault;
use db_store::Store;
use domain_core::Change;
use domain_core::domain::Dom;
use eu_name::name::VarName;

/// Takes up that the variable has this value.
pub fn specify(store: &mut Store, variable: &VarName, value: i32) -> Result<(), NetFault>
    requires { Contains (content_now store.old).names variable.now }
    ensures takes { (model : Problem) → TakesUp model (Specify variable.now value) store.old result store.new }
    ensures marks { KeepStoreMarks store.old store.new }
{
    let Some(number) = store.find_named(variable) else {
        unreachable!()
    };
    let Some(only) = Dom::range(value, value) else {
        return Err(NetFault::Collapsed);
    };
    store.is_sound();
    match store.limit(number, &only)? {
        Change::Empty => Err(NetFault::Collapsed),
        Change::Same => Ok(()),
        Change::Smaller => Ok(()),
    }
}
