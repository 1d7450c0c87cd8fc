//! Going on by decisions as far as they may be taken, and back.

ghost use Rattle.std.specs.Prelude.{◌≡◌, ◌∷◌, [], OnOk, IfOk};
ghost use Rattle.model_core.specs.declared.model.Model.{Model as Problem};
ghost use Rattle.model_core.specs.History.{History, standing};
ghost use Rattle.model_core.specs.Lawful.{IsLawful};
ghost use Rattle.plan_defs.specs.Settling.{SettlesAfter};
ghost use Rattle.db_history.specs.Kept.{KeepsHistory};
ghost use Rattle.conflict_core.specs.Turns.{GoesOnBy, GrownBy, LeavesBehind};

use db_history::{Standing, accept, fits, judge, withdraw};
use decision_log::Log;
use model_core::decision::Decision;
use model_core::model::Model;
use std::alloc::AllocError;

/// Takes the decision where it is admissible after those that stand.
pub fn take_if_admissible(
    model: &Model,
    log: &mut Log,
    kept: &mut Standing,
    decision: &Decision,
) -> Result<(), AllocError>
    requires lawful { IsLawful model.now }
    requires kept { KeepsHistory model.now log.old kept.old }
    ensures on { OnOk result (GoesOnBy model.now log.old (decision.now ∷ []) log.new) }
    ensures kept { OnOk result (KeepsHistory model.now log.new kept.new) }
{
    match judge(model, log, kept, decision) {
        Ok(()) => {
            accept(model, log, kept, decision)?;
            Ok(())
        }
        Err(_objection) => Ok(()),
    }
}

// Takes each of the decisions that is admissible after those that stand then.
fn take_admissible(
    model: &Model,
    log: &mut Log,
    kept: &mut Standing,
    decisions: &[Decision],
) -> Result<(), AllocError>
    requires lawful { IsLawful model.now }
    requires kept { KeepsHistory model.now log.old kept.old }
    ensures on { OnOk result (GoesOnBy model.now log.old decisions.now log.new) }
    ensures kept { OnOk result (KeepsHistory model.now log.new kept.new) }
{
    for decision in decisions {
        take_if_admissible(model, log, kept, decision)?;
    }
    Ok(())
}

// Takes so many decisions back.
fn take_back(log: &mut Log, kept: &mut Standing, number: u64)
    requires { (model : Problem) × (former : History) × GrownBy number former log.old × KeepsHistory model log.old kept.old }
    ensures { (model : Problem) (former : History) → GrownBy number former log.old → KeepsHistory model log.old kept.old
        → (log.new ≡ former) × KeepsHistory model former kept.new }
{
    for _step in 0..number {
        let _ = withdraw(log, kept);
    }
}

/// Whether what can be kept of the decisions, after those that stand, leaves something. Those stand again then.
pub fn leave_something(
    model: &Model,
    log: &mut Log,
    kept: &mut Standing,
    decisions: &[Decision],
) -> Result<bool, AllocError>
    requires lawful { IsLawful model.now }
    requires kept { KeepsHistory model.now log.old kept.old }
    ensures leaves { IfOk result (LeavesBehind model.now (standing log.old) decisions.now) }
    ensures same { OnOk result (log.new ≡ log.old) }
    ensures kept { OnOk result (KeepsHistory model.now log.new kept.new) }
{
    let before = log.len();
    take_admissible(model, log, kept, decisions)?;
    let fit = fits(kept);
    take_back(log, kept, log.len() - before);
    Ok(fit)
}
