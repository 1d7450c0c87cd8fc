//! Whether a decision may be taken.

ghost use Rattle.model_core.specs.History.{standing};
ghost use Rattle.plan_defs.specs.Settling.{IsSettled};
ghost use Rattle.db_history.specs.Advancing.{IsLeastOf};
ghost use Rattle.db_history.specs.Standing.{KeepsList};
ghost use Rattle.db_store.specs.Stores.{snapshot_of};
ghost use Rattle.db_history.specs.Kept.{KeepsHistory, IsJudged};

use crate::{Footing, Standing};
use db_refusals::first_reason;
use db_store::Store;
use decision_log::Log;
use model_core::decision::Decision;
use model_core::model::Model;
use model_core::refusal::Refusal;
use plan_defs::laws::settled_lists_stay;

/// What speaks against a decision.
#[derive(Clone, Copy, Debug, PartialEq, Eq)]
pub enum Objection {
    /// Those that stand leave nothing.
    Collapsed,
    /// It is refused, and this is the first reason.
    Refused(Refusal),
}

/// Whether the decision may be taken where those of the log stand.
pub fn judge(
    model: &Model,
    log: &Log,
    kept: &Standing,
    decision: &Decision,
) -> Result<(), Objection>
    requires { KeepsHistory model.now log.now kept.now }
    ensures { IsJudged model.now (standing log.now) decision.now result }
{
    settled_lists_stay();
    judge_after(model, log.standing(), kept, decision)
}

/// Whether the decision may be taken after the settled list that is kept.
pub fn judge_after(
    model: &Model,
    decisions: &[Decision],
    kept: &Standing,
    decision: &Decision,
) -> Result<(), Objection>
    requires settled { IsSettled model.now decisions.now }
    requires kept { KeepsList model.now decisions.now kept.now }
    ensures { IsJudged model.now decisions.now decision.now result }
{
    match kept.footing() {
        Footing::Rest => object(model, kept.store(), decisions, decision),
        Footing::Fallen => Err(Objection::Collapsed),
        Footing::Void => Err(Objection::Collapsed),
    }
}

// The first reason against the decision in a store that has the least state.
fn object(
    model: &Model,
    store: &Store,
    decisions: &[Decision],
    decision: &Decision,
) -> Result<(), Objection>
    requires settled { IsSettled model.now decisions.now }
    requires least { IsLeastOf model.now decisions.now (snapshot_of store.now) }
    ensures { IsJudged model.now decisions.now decision.now result }
{
    store.is_sound();
    match first_reason(model, store, decisions, decision) {
        None => Ok(()),
        Some(reason) => Err(Objection::Refused(reason)),
    }
}
