//! The calls that change decisions, over what a database keeps where it isn't behind.

ghost use Rattle.std.specs.Prelude.{◌≡◌, ◌⊎◌, false, Err, OnOk};
ghost use Rattle.model_core.specs.declared.model.Model.{Model as Problem};
ghost use Rattle.model_core.specs.Lawful.{IsLawful};
ghost use Rattle.plan_db.specs.declared.fault.DbFault.TheVariants.{Memory};
ghost use Rattle.db_history.specs.Kept.{KeepsHistory, KeepsUnless};
ghost use Rattle.plan_db.specs.Database.{taken_in, outcome_for, Applies, TakesBack, Backtracks, Resets};
ghost use Rattle.plan_db.specs.Stamps.{KeepsIfRefused};
ghost use Rattle.db_history.specs.declared.footing.Footing.TheVariants.{Rest};
ghost use Rattle.db_store.specs.Stamps.{FollowStamps, StampsRise};

use super::fault::{DbFault, Outcome};
use db_history::{
    Standing, Subject, accept, bring_back, judge, let_go, place_of, take_out, withdraw,
};
use decision_log::Log;
use model_core::decision::Decision;
use model_core::model::Model;
use std::alloc::Global;

/// Whether something is possible, by whether there is a least state.
pub fn outcome_of(fits: bool) -> Outcome
    ensures { result ≡ outcome_for fits }
{
    if fits {
        Outcome::Consistent
    } else {
        Outcome::Inconsistent
    }
}

/// Takes a decision.
pub fn apply(
    model: &Model,
    log: &mut Log,
    kept: &mut Standing,
    decision: &Decision,
) -> Result<Outcome, DbFault>
    requires lawful { IsLawful model.now }
    requires kept { KeepsHistory model.now log.old kept.old }
    ensures applied { Applies (taken_in model.now log.old) decision.now result (taken_in model.now log.new) }
    ensures kept { KeepsHistory model.now log.new kept.new }
    ensures same { KeepsIfRefused result kept.old kept.new }
    ensures stamps { OnOk result (kept.new.footing ≡ Rest → FollowStamps kept.old.stored kept.new.stored) }
    ensures risen { result ≡ Err Memory → StampsRise kept.old.stored kept.new.stored }
{
    judge(model, log, kept, decision)?;
    let fits = accept(model, log, kept, decision)?;
    Ok(outcome_of(fits))
}

/// Takes the last step back.
pub fn undo(
    model: &Model,
    log: &mut Log,
    kept: &mut Standing,
    behind: &mut bool,
) -> Result<Outcome, DbFault>
    requires lawful { IsLawful model.now }
    requires kept { KeepsHistory model.now log.old kept.old }
    requires ready { behind.old ≡ false }
    ensures undone { TakesBack (taken_in model.now log.old) result (taken_in model.now log.new) }
    ensures same { KeepsIfRefused result kept.old kept.new }
    ensures ready { result ≡ Err Memory ⊎ (behind.new ≡ false) }
    ensures kept { KeepsUnless behind.new model.now log.new kept.new }
{
    if log.len() == 0 {
        return Err(DbFault::Nothing);
    }
    if withdraw(log, kept) {
        return Ok(Outcome::Consistent);
    }
    let fits = bring_back(model, log, kept, behind)?;
    Ok(outcome_of(fits))
}

/// Takes the last decision back.
pub fn backtrack(log: &mut Log, kept: &mut Standing) -> Result<(), DbFault>
    requires { (model : Problem) × KeepsHistory model log.old kept.old }
    ensures { (model : Problem) → KeepsHistory model log.old kept.old
        → Backtracks (taken_in model log.old) result (taken_in model log.new) × KeepsHistory model log.new kept.new
        × KeepsIfRefused result kept.old kept.new × OnOk result (FollowStamps kept.old.stored kept.new.stored) }
{
    if withdraw(log, kept) {
        return Ok(());
    }
    Err(DbFault::Nothing)
}

/// Takes the decision on the subject out.
pub fn reset(
    model: &Model,
    log: &mut Log,
    kept: &mut Standing,
    behind: &mut bool,
    subject: &Subject,
) -> Result<Outcome, DbFault>
    requires lawful { IsLawful model.now }
    requires kept { KeepsHistory model.now log.old kept.old }
    requires ready { behind.old ≡ false }
    ensures reset { Resets (taken_in model.now log.old) subject.now result (taken_in model.now log.new) }
    ensures same { KeepsIfRefused result kept.old kept.new }
    ensures ready { result ≡ Err Memory ⊎ (behind.new ≡ false) }
    ensures kept { KeepsUnless behind.new model.now log.new kept.new }
{
    let Some(place) = place_of(log.standing(), subject) else {
        return Err(DbFault::NoSuchDecision);
    };
    let fits = take_out(model, log, kept, behind, place)?;
    Ok(outcome_of(fits))
}

/// Gives the memory of what is kept back where that is behind, and adds its narrowings to those that were before.
pub fn let_go_behind(alloc: Global, kept: &mut Standing, behind: bool, past_work: &mut u64)
    ensures { behind ≡ false → kept.new ≡ kept.old }
{
    if !behind {
        return;
    }
    *past_work = past_work.saturating_add(kept.store().net().work());
    let_go(alloc, kept);
}
