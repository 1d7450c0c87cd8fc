//! What is told of the state that is kept, where it isn't behind.

ghost use Rattle.std.specs.Prelude.{◌≡◌, MatchResult};
ghost use Rattle.model_core.specs.declared.model.Model.{Model as Problem};
ghost use Rattle.domain_core.specs.Domain.{Domain};
ghost use Rattle.model_core.specs.History.{History};
ghost use Rattle.model_core.specs.State.{Gives};
ghost use Rattle.db_refusals.specs.Seeing.{seen_state};
ghost use Rattle.plan_db.specs.declared.fault.QueryFault.TheVariants.{Unknown};
ghost use Rattle.db_history.specs.Kept.{KeepsHistory};
ghost use Rattle.plan_db.specs.Database.{taken_in, IsTold, IsUntold};
ghost use Rattle.plan_db.specs.Answers.{ready_with, IsSeen, IsUnseen};
ghost use Rattle.plan_db.specs.Stamps.{stamps_of};

use super::fault::QueryFault;
use db_history::{Footing, Standing};
use db_refusals::StoreView;
use db_store::Store;
use decision_log::Log;
use domain_core::domain::Dom;
use eu_name::name::VarName;
use model_core::model::Model;

/// The domain of the variable.
pub fn domain<'a>(kept: &'a Standing, variable: &VarName) -> Result<&'a Dom, QueryFault>
    ensures { (model : Problem) (history : History) → KeepsHistory model history kept.now
        → MatchResult result (λ domain. IsTold (taken_in model history) variable.now domain.now)
        (λ fault. IsUntold (taken_in model history) variable.now fault) }
{
    match kept.footing() {
        Footing::Rest => domain_in(kept.store(), variable),
        Footing::Fallen => Err(QueryFault::Inconsistent),
        Footing::Void => Err(QueryFault::Inconsistent),
    }
}

// The domain of the variable in the store.
fn domain_in<'a>(store: &'a Store, variable: &VarName) -> Result<&'a Dom, QueryFault>
    ensures { MatchResult result
        (λ domain. Gives (seen_state store.now) variable.now domain.now)
        (λ fault. (fault ≡ Unknown) × ((domain : Domain) → Gives (seen_state store.now) variable.now domain → ⊥)) }
{
    match db_refusals::domain(store, variable) {
        Some(domain) => Ok(domain),
        None => Err(QueryFault::Unknown),
    }
}

/// The view of the whole state.
pub fn view<'a>(
    model: &'a Model,
    log: &'a Log,
    kept: &'a Standing,
) -> Result<StoreView<'a>, QueryFault>
    requires { KeepsHistory model.now log.now kept.now }
    ensures { MatchResult result (IsSeen (ready_with model.now log.now (stamps_of kept.now)))
        (IsUnseen (ready_with model.now log.now (stamps_of kept.now))) }
{
    match kept.footing() {
        Footing::Rest => Ok(StoreView::new(model, kept.store(), log.standing())),
        Footing::Fallen => Err(QueryFault::Inconsistent),
        Footing::Void => Err(QueryFault::Inconsistent),
    }
}
