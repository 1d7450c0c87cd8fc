//! How often variables were written, as the state that is kept tells, where it isn't behind.

ghost use Rattle.std.specs.Prelude.{MatchOption};
ghost use Rattle.domain_core.specs.Domain.{Domain};
ghost use Rattle.model_core.specs.declared.model.Model.{Model as Problem};
ghost use Rattle.model_core.specs.History.{History};
ghost use Rattle.db_history.specs.Kept.{KeepsHistory};
ghost use Rattle.plan_db.specs.declared.fault.QueryFault.{QueryFault as Fault};
ghost use Rattle.plan_db.specs.Database.{taken_in, IsTold, IsUntold};
ghost use Rattle.plan_db.specs.Stamps.{stamps_of, IsStampedAs};

use db_history::{Footing, Standing};
use eu_name::name::VarName;

/// How often the domain of the variable was written.
pub fn stamp(kept: &Standing, variable: &VarName) -> Option<u64>
    ensures { (model : Problem) (history : History) → KeepsHistory model history kept.now
        → MatchOption result ((fault : Fault) × IsUntold (taken_in model history) variable.now fault)
        (λ stamp. (domain : Domain) × IsTold (taken_in model history) variable.now domain
        × IsStampedAs (stamps_of kept.now) variable.now domain stamp) }
{
    match kept.footing() {
        Footing::Rest => {
            let store = kept.store();
            store.is_sound();
            store.stamp(variable)
        }
        Footing::Fallen => None,
        Footing::Void => None,
    }
}
