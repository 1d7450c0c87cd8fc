//! Putting decisions at the end of the standing list, and taking the last one off.

ghost use Rattle.std.specs.Prelude.{◌≡◌, ◌≤◌, false, List, length, take, Ok, IfOk, IsErr, OnOk, OnErr, MatchResult};
ghost use Rattle.model_core.specs.declared.decision.Decision.{Decision as Taken};
ghost use Rattle.model_core.specs.declared.model.Model.{Model as Problem};
ghost use Rattle.model_core.specs.History.{standing, accepted};
ghost use Rattle.model_core.specs.Lawful.{IsLawful};
ghost use Rattle.plan_defs.specs.History.{IsHistory};
ghost use Rattle.plan_defs.specs.Refusals.{IsAdmissible};
ghost use Rattle.plan_defs.specs.Settling.{IsSettled};
ghost use Rattle.db_store.specs.Stamps.{FollowStamps, StampsRise};
ghost use Rattle.db_history.specs.declared.footing.Footing.TheVariants.{Rest};
ghost use Rattle.db_history.specs.Advancing.{but_last, EndsAdmissibly};
ghost use Rattle.db_history.specs.Standing.{KeepsList};
ghost use Rattle.db_history.specs.Kept.{KeepsHistory, KeepsUnless, LeaveState, WithdrawsLast};

use crate::{Footing, Standing};
use db_store::laws::stamps_rise;
use decision_log::Log;
use model_core::decision::Decision;
use model_core::model::Model;
use plan_defs::laws::settled_lists_stay;
use std::alloc::{AllocError, Global};

/// Whether a list that stands so leaves a least state.
pub fn fits(kept: &Standing) -> bool
    ensures { (model : Problem) (decisions : List Taken) → KeepsList model decisions kept.now → LeaveState model decisions result }
{
    match kept.footing() {
        Footing::Rest => true,
        Footing::Fallen => false,
        Footing::Void => false,
    }
}

/// Puts an admissible decision at the end, and answers whether the list then leaves a least state. Without memory all stays as
/// it was, but for stamps, which may be greater.
pub fn accept(
    model: &Model,
    log: &mut Log,
    kept: &mut Standing,
    decision: &Decision,
) -> Result<bool, AllocError>
    requires lawful { IsLawful model.now }
    requires kept { KeepsHistory model.now log.old kept.old }
    requires admissible { IsAdmissible model.now (standing log.old) decision.now }
    ensures list { OnOk result (log.new ≡ accepted log.old decision.now) }
    ensures fits { IfOk result (LeaveState model.now (standing log.new)) }
    ensures err { OnErr result (log.new ≡ log.old) }
    ensures kept { KeepsHistory model.now log.new kept.new }
    ensures stamps { OnOk result (kept.new.footing ≡ Rest → FollowStamps kept.old.stored kept.new.stored) }
    ensures risen { OnErr result (StampsRise kept.old.stored kept.new.stored) }
{
    stamps_rise();
    kept.store().is_sound();
    push_copy(log, decision)?;
    match go_on(log.allocator(), model, kept, log.standing()) {
        Ok(fit) => Ok(fit),
        Err(none) => {
            let _ = log.pop();
            Err(none)
        }
    }
}

// Puts a copy of the decision at the end of the log.
fn push_copy(log: &mut Log, decision: &Decision) -> Result<(), AllocError>
    ensures ok { OnOk result (log.new ≡ accepted log.old decision.now) }
    ensures err { OnErr result (log.new ≡ log.old) }
{
    let copy = decision.copy()?;
    log.push(copy)
}

/// Goes on by the last of the decisions, and answers whether they leave a least state.
pub fn go_on(
    alloc: Global,
    model: &Model,
    kept: &mut Standing,
    decisions: &[Decision],
) -> Result<bool, AllocError>
    requires lawful { IsLawful model.now }
    requires settled { IsSettled model.now decisions.now }
    requires admissible { EndsAdmissibly model.now decisions.now }
    requires kept { KeepsList model.now (but_last decisions.now) kept.old }
    ensures ok { IfOk result (λ fit. KeepsList model.now decisions.now kept.new × LeaveState model.now decisions.now fit) }
    ensures err { OnErr result (KeepsList model.now (but_last decisions.now) kept.new) }
    ensures stamps { OnOk result (kept.new.footing ≡ Rest → FollowStamps kept.old.stored kept.new.stored) }
    ensures risen { OnErr result (StampsRise kept.old.stored kept.new.stored) }
{
    kept.push(alloc, model, decisions)?;
    Ok(fits(kept))
}

/// Goes on by the decisions from this number on.
pub fn go_on_from(
    alloc: Global,
    model: &Model,
    kept: &mut Standing,
    decisions: &[Decision],
    first: usize,
) -> Result<(), AllocError>
    requires lawful { IsLawful model.now }
    requires settled { IsSettled model.now decisions.now }
    requires within { first ≤ length decisions.now }
    requires kept { KeepsList model.now (take first decisions.now) kept.old }
    ensures { OnOk result (KeepsList model.now decisions.now kept.new) }
{
    for number in first..decisions.len() {
        go_on(alloc, model, kept, &decisions[..number + 1])?;
    }
    Ok(())
}

/// Takes the last decision back, without memory. Answers whether there was one: where the last step put none at the end, all
/// stays.
pub fn withdraw(log: &mut Log, kept: &mut Standing) -> bool
    requires { (model : Problem) × KeepsHistory model log.old kept.old }
    ensures { (model : Problem) → KeepsHistory model log.old kept.old → WithdrawsLast model log.old kept.old result log.new kept.new }
{
    match log.pop() {
        Some(_decision) => {
            kept.back_to(log.standing().len());
            true
        }
        None => false,
    }
}

// What is kept of the decisions, made anew.
fn build(alloc: Global, model: &Model, decisions: &[Decision]) -> Result<Standing, AllocError>
    requires lawful { IsLawful model.now }
    requires settled { IsSettled model.now decisions.now }
    ensures { IfOk result (KeepsList model.now decisions.now) }
{
    let mut made = Standing::new(alloc, model)?;
    let done = go_on_from(alloc, model, &mut made, decisions, 0);
    behind(done, made)
}

// The value, behind what filling it answered.
fn behind<T: Drop>(done: Result<(), AllocError>, value: T) -> Result<T, AllocError>
    ensures { MatchResult done (λ _. result ≡ Ok value) (λ _. IsErr result) }
{
    match done {
        Ok(()) => Ok(value),
        Err(none) => Err(none),
    }
}

/// Makes what is kept of the standing list anew, from nothing. Without memory it stays as it was.
pub fn rebuild(
    model: &Model,
    log: &Log,
    kept: &mut Standing,
    behind: &mut bool,
) -> Result<(), AllocError>
    requires lawful { IsLawful model.now }
    requires kept { KeepsUnless behind.old model.now log.now kept.old }
    ensures ok { OnOk result (behind.new ≡ false) }
    ensures err { OnErr result ((behind.new ≡ behind.old) × (kept.new ≡ kept.old)) }
    ensures kept { KeepsUnless behind.new model.now log.now kept.new }
{
    put_value(kept, build_standing(model, log))?;
    *behind = false;
    Ok(())
}

// Puts what was made in the place of what is there, if it was made.
fn put_value<T: Drop>(place: &mut T, made: Result<T, AllocError>) -> Result<(), AllocError>
    ensures ok { OnOk result (made ≡ Ok place.new) }
    ensures err { OnErr result (place.new ≡ place.old) }
{
    match made {
        Ok(value) => {
            *place = value;
            Ok(())
        }
        Err(none) => Err(none),
    }
}

/// Gives the memory of what is kept back, where it is of no more use. It takes none.
pub fn let_go(alloc: Global, kept: &mut Standing) {
    put(kept, Standing::nothing(alloc));
}

// Puts the value in the place of what is there.
fn put<T: Drop>(place: &mut T, value: T)
    ensures { place.new ≡ value }
{
    *place = value;
}

// What is kept of the standing list, made anew.
fn build_standing(model: &Model, log: &Log) -> Result<Standing, AllocError>
    requires lawful { IsLawful model.now }
    requires history { IsHistory model.now log.now }
    ensures { IfOk result (KeepsList model.now (standing log.now)) }
{
    settled_lists_stay();
    build(log.allocator(), model, log.standing())
}
