//! The conflict of a list of decisions.

ghost use Rattle.std.specs.Prelude.{◌≡◌, ◌∷◌, [], IfOk, IsErr, OnOk, MatchResult};
ghost use Rattle.model_core.specs.History.{standing};
ghost use Rattle.model_core.specs.Lawful.{IsLawful};
ghost use Rattle.plan_defs.specs.Settling.{IsConflict};
ghost use Rattle.db_history.specs.Kept.{KeepsHistory};
ghost use Rattle.conflict_core.specs.Turns.{ReducesTurn};

use super::turns::{leave_something, take_if_admissible};
use db_history::Standing;
use decision_log::Log;
use model_core::decision::Decision;
use model_core::model::Model;
use std::alloc::{AllocError, Global};

// Takes the decision, unless what can be kept of those behind it leaves nothing without it too.
fn turn(
    model: &Model,
    log: &mut Log,
    kept: &mut Standing,
    decision: &Decision,
    behind: &[Decision],
) -> Result<(), AllocError>
    requires lawful { IsLawful model.now }
    requires kept { KeepsHistory model.now log.old kept.old }
    ensures turn { OnOk result (ReducesTurn model.now (standing log.old) decision.now behind.now (standing log.new)) }
    ensures kept { OnOk result (KeepsHistory model.now log.new kept.new) }
{
    let fit = leave_something(model, log, kept, behind)?;
    if fit {
        take_if_admissible(model, log, kept, decision)?;
        return Ok(());
    }
    Ok(())
}

// Takes those of the decisions without which what can be kept of the others leaves something.
fn reduce(
    model: &Model,
    log: &mut Log,
    kept: &mut Standing,
    decisions: &[Decision],
) -> Result<(), AllocError>
    requires lawful { IsLawful model.now }
    requires kept { KeepsHistory model.now log.old kept.old }
    requires none { log.old ≡ [] ∷ [] }
    ensures { OnOk result (IsConflict model.now decisions.now (standing log.new)) }
{
    let mut rest = decisions;
    while let Some((decision, behind)) = rest.split_first() {
        turn(model, log, kept, decision, behind)?;
        rest = behind;
    }
    Ok(())
}

// Equal decisions in memory of their own.
fn copied(alloc: Global, decisions: &[Decision]) -> Result<Vec<Decision>, AllocError>
    ensures { IfOk result (λ copies. copies.items ≡ decisions.now) }
{
    let mut copies = Vec::with_capacity(alloc, decisions.len())?;
    for decision in decisions {
        copies.push(decision.copy()?)?;
    }
    Ok(copies)
}

// The log's decisions, behind what taking them answered.
fn taken(alloc: Global, done: Result<(), AllocError>, log: Log) -> Result<Vec<Decision>, AllocError>
    ensures { MatchResult done (λ _. IfOk result (λ decisions. decisions.items ≡ standing log)) (λ _. IsErr result) }
{
    done?;
    copied(alloc, log.standing())
}

/// The conflict of the decisions.
///
/// What stays of the first decisions is applied all the way, and each further turn goes on from there by those behind it, and
/// back by marks. So it takes no more than half the square of their number in decisions that are applied.
pub fn conflict_of(
    alloc: Global,
    model: &Model,
    decisions: &[Decision],
) -> Result<Vec<Decision>, AllocError>
    requires { IsLawful model.now }
    ensures { IfOk result (λ conflict. IsConflict model.now decisions.now conflict.items) }
{
    let mut kept = Standing::new(alloc, model)?;
    let mut log = Log::new(alloc);
    let done = reduce(model, &mut log, &mut kept, decisions);
    kept.discard();
    taken(alloc, done, log)
}
