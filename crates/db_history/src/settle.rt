//! Taking a decision out, and settling the rest.

ghost use Rattle.std.specs.Prelude.{◌≡◌, ◌<◌, ◌⊎◌, List, [], ◌∷◌, ◌++◌, true, false, length, Contains, IfOk, IsOk, OnOk, OnErr, MatchBool};
ghost use Rattle.decision_log.specs.Taking.{kept_of};
ghost use Rattle.model_core.specs.declared.decision.Decision.{Decision as Taken};
ghost use Rattle.model_core.specs.declared.model.Model.{Model as Problem};
ghost use Rattle.model_core.specs.History.{standing};
ghost use Rattle.model_core.specs.Lawful.{IsLawful};
ghost use Rattle.plan_defs.specs.Refusals.{IsAdmissible};
ghost use Rattle.plan_defs.specs.Settling.{IsSettled};
ghost use Rattle.db_history.specs.Standing.{KeepsList};
ghost use Rattle.db_history.specs.Kept.{KeepsHistory, KeepsUnless, LeaveState};
ghost use Rattle.db_history.specs.Settled.{GoesOver, AllStay, SettlesWithout};
ghost use Rattle.db_history.specs.Subjects.{TakesOutAt};

use super::forward::{fits, go_on};
use super::objection::judge_after;
use crate::Standing;
use decision_log::Log;
use model_core::decision::Decision;
use model_core::model::Model;
use plan_defs::laws::settled_lists_stay;
use std::alloc::{AllocError, Global};

/// Takes the decision at the place out and settles the rest: goes back to before it, and on by those behind it that stay
/// admissible. Answers whether what is left leaves a least state. Without memory the list stays, and what is kept may be behind.
pub fn take_out(
    model: &Model,
    log: &mut Log,
    kept: &mut Standing,
    behind: &mut bool,
    place: usize,
) -> Result<bool, AllocError>
    requires lawful { IsLawful model.now }
    requires kept { KeepsHistory model.now log.old kept.old }
    requires within { place < length (standing log.old) }
    requires ready { behind.old ≡ false }
    ensures list { OnOk result ((log.new ≡ standing log.new ∷ log.old)
        × TakesOutAt model.now place (standing log.old) (standing log.new)) }
    ensures fits { IfOk result (LeaveState model.now (standing log.new)) }
    ensures ready { OnOk result (behind.new ≡ false) }
    ensures err { OnErr result (log.new ≡ log.old) }
    ensures kept { KeepsUnless behind.new model.now log.new kept.new }
{
    let mut settled = Settled::new(log.allocator());
    let done = settle_standing(model, log, kept, behind, place, &mut settled);
    finish(log, kept, behind, done, settled.flags.as_slice())
}

// What stays of the decisions that were gone over, and whether each does.
#[derive(Drop)]
struct Settled {
    decisions: Vec<Decision>,
    flags: Vec<bool>,
}

impl Settled {
    fn new(alloc: Global) -> Settled
        ensures decisions { result.decisions.items ≡ [] }
        ensures flags { result.flags.items ≡ [] }
    {
        Settled {
            decisions: Vec::new(alloc),
            flags: Vec::new(alloc),
        }
    }
}

// Takes out of the log what isn't flagged, if the rest could be settled.
fn finish(
    log: &mut Log,
    kept: &mut Standing,
    behind: &mut bool,
    done: Result<(), AllocError>,
    flags: &[bool],
) -> Result<bool, AllocError>
    requires flags { OnOk done ((length flags.now ≡ length (standing log.old)) × Contains flags.now false) }
    ensures list { OnOk result ((log.new ≡ kept_of flags.now (standing log.old) ∷ log.old) × IsOk done) }
    ensures fits { IfOk result (λ fit. (model : Problem) (decisions : List Taken)
        → KeepsList model decisions kept.old → LeaveState model decisions fit) }
    ensures kept { kept.new ≡ kept.old }
    ensures ready { OnOk result (behind.new ≡ false) }
    ensures err { OnErr result ((log.new ≡ log.old) × (behind.new ≡ behind.old)) }
{
    done?;
    log.take_out(flags)?;
    *behind = false;
    Ok(fits(kept))
}

// Settles the standing list without the decision at the place.
fn settle_standing(
    model: &Model,
    log: &Log,
    kept: &mut Standing,
    behind: &mut bool,
    place: usize,
    settled: &mut Settled,
) -> Result<(), AllocError>
    requires lawful { IsLawful model.now }
    requires kept { KeepsHistory model.now log.now kept.old }
    requires within { place < length (standing log.now) }
    requires no_decisions { settled.old.decisions.items ≡ [] }
    requires no_flags { settled.old.flags.items ≡ [] }
    requires ready { behind.old ≡ false }
    ensures ok { OnOk result (SettlesWithout model.now place (standing log.now) settled.new.decisions.items settled.new.flags.items) }
    ensures kept { OnOk result (KeepsList model.now settled.new.decisions.items kept.new) }
    ensures moved { (kept.new ≡ kept.old) ⊎ (behind.new ≡ true) }
{
    settled_lists_stay();
    settle_without(
        log.allocator(),
        model,
        kept,
        behind,
        log.standing(),
        place,
        settled,
    )
}

// Settles the decisions without the one at the place.
fn settle_without(
    alloc: Global,
    model: &Model,
    kept: &mut Standing,
    behind: &mut bool,
    decisions: &[Decision],
    place: usize,
    settled: &mut Settled,
) -> Result<(), AllocError>
    requires lawful { IsLawful model.now }
    requires settled { IsSettled model.now decisions.now }
    requires kept { KeepsList model.now decisions.now kept.old }
    requires within { place < length decisions.now }
    requires no_decisions { settled.old.decisions.items ≡ [] }
    requires no_flags { settled.old.flags.items ≡ [] }
    ensures ok { OnOk result (SettlesWithout model.now place decisions.now settled.new.decisions.items settled.new.flags.items) }
    ensures kept { OnOk result (KeepsList model.now settled.new.decisions.items kept.new) }
    ensures moved { (kept.new ≡ kept.old) ⊎ (behind.new ≡ true) }
{
    keep_all(&decisions[..place], settled)?;
    settled.flags.push(false)?;
    *behind = true;
    kept.back_to(place);
    settle_on(alloc, model, kept, &decisions[place + 1..], settled)
}

// Keeps copies of all the decisions, each with its flag.
fn keep_all(decisions: &[Decision], settled: &mut Settled) -> Result<(), AllocError>
    requires no_decisions { settled.old.decisions.items ≡ [] }
    requires no_flags { settled.old.flags.items ≡ [] }
    ensures decisions { OnOk result (settled.new.decisions.items ≡ decisions.now) }
    ensures flags { OnOk result (AllStay decisions.now settled.new.flags.items) }
{
    for decision in decisions {
        settled.flags.push(true)?;
        settled.decisions.push(decision.copy()?)?;
    }
    Ok(())
}

// Goes over the decisions: each stays that is admissible after those that stay before it.
fn settle_on(
    alloc: Global,
    model: &Model,
    kept: &mut Standing,
    decisions: &[Decision],
    settled: &mut Settled,
) -> Result<(), AllocError>
    requires lawful { IsLawful model.now }
    requires settled { IsSettled model.now settled.old.decisions.items }
    requires kept { KeepsList model.now settled.old.decisions.items kept.old }
    ensures over { OnOk result (GoesOver model.now decisions.now settled.old.decisions.items settled.old.flags.items
        settled.new.decisions.items settled.new.flags.items) }
    ensures kept { OnOk result (KeepsList model.now settled.new.decisions.items kept.new) }
{
    for decision in decisions {
        settle_one(alloc, model, kept, decision, settled)?;
    }
    Ok(())
}

// Keeps the decision if it is admissible, or leaves it out.
fn settle_one(
    alloc: Global,
    model: &Model,
    kept: &mut Standing,
    decision: &Decision,
    settled: &mut Settled,
) -> Result<(), AllocError>
    requires lawful { IsLawful model.now }
    requires settled { IsSettled model.now settled.old.decisions.items }
    requires kept { KeepsList model.now settled.old.decisions.items kept.old }
    ensures over { OnOk result (GoesOver model.now (decision.now ∷ []) settled.old.decisions.items settled.old.flags.items
        settled.new.decisions.items settled.new.flags.items) }
    ensures settled { OnOk result (IsSettled model.now settled.new.decisions.items) }
    ensures kept { OnOk result (KeepsList model.now settled.new.decisions.items kept.new) }
{
    let stays = may_stay(model, kept, settled.decisions.as_slice(), decision);
    settled.flags.push(stays)?;
    if stays {
        stay(alloc, model, kept, decision, &mut settled.decisions)?;
    }
    Ok(())
}

// Whether the decision is admissible after those that are kept.
fn may_stay(model: &Model, kept: &Standing, decisions: &[Decision], decision: &Decision) -> bool
    requires settled { IsSettled model.now decisions.now }
    requires kept { KeepsList model.now decisions.now kept.now }
    ensures { MatchBool result (IsAdmissible model.now decisions.now decision.now)
        (IsAdmissible model.now decisions.now decision.now → ⊥) }
{
    match judge_after(model, decisions, kept, decision) {
        Ok(()) => true,
        Err(_objection) => false,
    }
}

// Goes on by the decision, which is admissible after those that stay.
fn stay(
    alloc: Global,
    model: &Model,
    kept: &mut Standing,
    decision: &Decision,
    decisions: &mut Vec<Decision>,
) -> Result<(), AllocError>
    requires lawful { IsLawful model.now }
    requires settled { IsSettled model.now decisions.old.items }
    requires admissible { IsAdmissible model.now decisions.old.items decision.now }
    requires kept { KeepsList model.now decisions.old.items kept.old }
    ensures list { OnOk result (decisions.new.items ≡ decisions.old.items ++ decision.now ∷ []) }
    ensures kept { OnOk result (KeepsList model.now decisions.new.items kept.new) }
{
    decisions.push(decision.copy()?)?;
    go_on(alloc, model, kept, decisions.as_slice())?;
    Ok(())
}
