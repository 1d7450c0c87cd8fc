//! Bringing back the list before the standing one.

ghost use Rattle.std.specs.Prelude.{◌≡◌, ◌≤◌, ◌<◌, ◌∷◌, false, List, length, take, IfOk, OnOk, OnErr};
ghost use Rattle.model_core.specs.declared.decision.Decision.{Decision as Taken};
ghost use Rattle.model_core.specs.declared.model.Model.{Model as Problem};
ghost use Rattle.model_core.specs.History.{standing};
ghost use Rattle.model_core.specs.Lawful.{IsLawful};
ghost use Rattle.decision_log.specs.Undoing.{IsFormer};
ghost use Rattle.plan_defs.specs.Settling.{IsSettled};
ghost use Rattle.db_history.specs.Standing.{KeepsList};
ghost use Rattle.db_history.specs.Kept.{KeepsHistory, KeepsUnless, LeaveState};

use super::forward::{fits, go_on_from};
use crate::Standing;
use db_refusals::is_same_decision;
use decision_log::Log;
use model_core::decision::Decision;
use model_core::model::Model;
use plan_defs::laws::settled_lists_stay;
use std::alloc::AllocError;

/// Brings back the list before the standing one, whatever step led from it: goes back to where the two part, and on by the
/// rest. Answers whether it leaves a least state. Without memory the list stays, and what is kept may be behind.
pub fn bring_back(
    model: &Model,
    log: &mut Log,
    kept: &mut Standing,
    behind: &mut bool,
) -> Result<bool, AllocError>
    requires lawful { IsLawful model.now }
    requires kept { KeepsHistory model.now log.old kept.old }
    requires some { 1 < length log.old }
    requires ready { behind.old ≡ false }
    ensures list { OnOk result (log.old ≡ standing log.old ∷ log.new) }
    ensures fits { IfOk result (LeaveState model.now (standing log.new)) }
    ensures ready { OnOk result (behind.new ≡ false) }
    ensures err { OnErr result (log.new ≡ log.old) }
    ensures kept { KeepsUnless behind.new model.now log.new kept.new }
{
    go_to_former(model, log, kept, behind)?;
    take_off(log);
    *behind = false;
    Ok(fits(kept))
}

// Goes to the state of the list before the standing one.
fn go_to_former(
    model: &Model,
    log: &Log,
    kept: &mut Standing,
    behind: &mut bool,
) -> Result<(), AllocError>
    requires lawful { IsLawful model.now }
    requires kept { KeepsHistory model.now log.now kept.old }
    requires some { 1 < length log.now }
    requires ready { behind.old ≡ false }
    ensures ok { OnOk result ((former : List Taken) × IsFormer log.now former × KeepsList model.now former kept.new) }
    ensures err { OnErr result (KeepsUnless behind.new model.now log.now kept.new) }
{
    settled_lists_stay();
    match log.former() {
        Ok(former) => {
            *behind = true;
            go_over_to(model, log, kept, former.as_slice())
        }
        Err(_none) => Err(AllocError),
    }
}

// Goes back to where the decisions part from those that stand, and on by the rest.
fn go_over_to(
    model: &Model,
    log: &Log,
    kept: &mut Standing,
    decisions: &[Decision],
) -> Result<(), AllocError>
    requires lawful { IsLawful model.now }
    requires kept { KeepsList model.now (standing log.now) kept.old }
    requires settled { IsSettled model.now decisions.now }
    ensures { OnOk result (KeepsList model.now decisions.now kept.new) }
{
    let first = parting_of(log.standing(), decisions);
    go_back(kept, log.standing(), first);
    go_on_from(log.allocator(), model, kept, decisions, first)
}

// Goes back to the first so many of the decisions that are kept.
fn go_back(kept: &mut Standing, decisions: &[Decision], number: usize)
    requires kept { (model : Problem) × KeepsList model decisions.now kept.old }
    requires within { number ≤ length decisions.now }
    ensures { (model : Problem) → KeepsList model decisions.now kept.old → KeepsList model (take number decisions.now) kept.new }
{
    if number < decisions.len() {
        kept.back_to(number);
    }
}

// How many decisions the two lists begin with in common.
fn parting_of(one: &[Decision], other: &[Decision]) -> usize
    ensures within { result ≤ length one.now }
    ensures within_other { result ≤ length other.now }
    ensures front { take result one.now ≡ take result other.now }
{
    let mut place = 0;
    while place < one.len() && place < other.len() {
        if !is_same_decision(&one[place], &other[place]) {
            return place;
        }
        place += 1;
    }
    place
}

// Takes the last step of the log off.
fn take_off(log: &mut Log)
    requires { 1 < length log.old }
    ensures { log.old ≡ standing log.old ∷ log.new }
{
    match log.undo() {
        Ok(()) => {}
        Err(_nothing) => unreachable!(),
    }
}
