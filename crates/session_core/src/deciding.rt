//! Decisions that are asked for.

ghost use Rattle.std.specs.Prelude.{◌≡◌, false, IfOk};
ghost use Rattle.model_core.specs.declared.decision.Decision.{Decision as Taken};
ghost use Rattle.plan_db.specs.Database.{IsSound};
ghost use Rattle.plan_resolve.specs.Indexing.{IsModelIndex};
ghost use Rattle.script_lang.specs.declared.command.Command.{Command as Wanted};
ghost use Rattle.script_lang.specs.Naming.{AsksDecision, FindsDecision, StandsForDecision, decision_command};
ghost use Rattle.session_core.specs.Replies.{TakesAsked};
ghost use Rattle.session_core.specs.Steps.{AnswersCommand, StepsOr};

use super::reason::{RefusalReason, StepStop, step_of};
use super::replies::{refused, step_reply};
use super::undoing::is_full;
use eu_name::bytes::Bytes;
use model_core::decision::Decision;
use model_core::refusal::Refusal;
use plan_db::{Db, Outcome};
use plan_resolve::indexed::ModelIndex;
use script_lang::{DecisionText, decision_asked};
use std::alloc::{AllocError, Global};

// Takes a decision that stands for one that is asked for.
fn take_decision(db: &mut Db, decision: Decision) -> Result<Outcome, StepStop>
    requires { IsSound db.old.database }
    ensures { (command : Wanted) (asked : Taken)
        → AsksDecision db.old.database.model command asked → StandsForDecision decision asked
        → StepsOr (TakesAsked db.old.database command) db.old.database result db.new.database }
{
    step_of(db.apply(&decision))
}

// What the words ask for in the database's model.
fn find_decision(
    db: &Db,
    index: &ModelIndex,
    asked: &DecisionText,
) -> Result<Option<Decision>, AllocError>
    requires { IsModelIndex db.now.database.model index.now }
    ensures found { IfOk result (FindsDecision db.now.database.model (decision_command asked.now)) }
    ensures sound { IsSound db.now.database }
{
    decision_asked(&index.of(db.model()), asked)
}

// Takes the decision that the words ask for, where something is possible.
fn decide(db: &mut Db, index: &ModelIndex, asked: &DecisionText) -> Result<Outcome, StepStop>
    requires ready { db.old.behind ≡ false }
    requires index { IsModelIndex db.old.database.model index.now }
    ensures { StepsOr (TakesAsked db.old.database (decision_command asked.now)) db.old.database result db.new.database }
{
    if !db.is_consistent() {
        return Err(StepStop::Refused(RefusalReason::Inconsistent));
    }
    match find_decision(db, index, asked) {
        Ok(Some(decision)) => take_decision(db, decision),
        Ok(None) => Err(StepStop::Refused(RefusalReason::Decision(Refusal::Unknown))),
        Err(_none) => Err(StepStop::Memory),
    }
}

/// Takes the decision that the words ask for, and says what the decisions then leave.
pub fn decide_reply(
    alloc: Global,
    db: &mut Db,
    index: &ModelIndex,
    asked: &DecisionText,
) -> Result<Bytes, AllocError>
    requires ready { db.old.behind ≡ false }
    requires index { IsModelIndex db.old.database.model index.now }
    ensures { AnswersCommand db.old.database (decision_command asked.now) result db.new.database }
{
    if is_full(db) {
        return refused(alloc, RefusalReason::Full);
    }
    let step = decide(db, index, asked);
    step_reply(alloc, step)
}
