//! Searches for a plan.

ghost use Rattle.std.specs.Prelude.{◌≡◌, ◌+◌, ◌≤◌, false, length, IfOk, MatchResult};
ghost use Rattle.plan_db.specs.Database.{Database};
ghost use Rattle.plan_db.specs.Rewinding.{IsTakenSince};
ghost use Rattle.script_lang.specs.declared.command.Command.TheVariants as commands;
ghost use Rattle.solver_core.specs.declared.ending.SolveFault.TheVariants.{InInconsistent};
ghost use Rattle.session_core.specs.Reasons.{outcome_text};
ghost use Rattle.session_replies.specs.Texts.{TellsSearch, IsFlawlessEnd};
ghost use Rattle.session_core.specs.Steps.{Answers, AnswersCommand};
ghost use Rattle.session_core.specs.Replies.{RepliesSolve};
ghost use Rattle.plan_db.specs.declared.fault.Outcome.TheVariants.{Inconsistent};

use super::reason::RefusalReason;
use super::replies::{outcome_reply, refused};
use super::undoing::is_full;
use eu_name::bytes::Bytes;
use flaw_core::Plain;
use flaw_core::laws::plain_searches_are_searches;
use plan_db::{Db, Outcome, rewind};
use session_replies::end_text;
use solver_core::{SearchEnd, SolveFault, solve};
use std::alloc::{AllocError, Global};

// How the search ended. Where memory is wanting for that, what was decided is taken back.
fn told_or_back(
    alloc: Global,
    db: &mut Db,
    end: SearchEnd,
    before: u64,
) -> Result<Bytes, AllocError>
    ghost former: { Database }
    requires ready { db.old.behind ≡ false }
    requires found { IsFlawlessEnd end db.old.database }
    requires since { IsTakenSince former db.old.database }
    requires before { before + 1 ≡ length former.history }
    ensures { MatchResult result
        (λ reply. TellsSearch end db.old.database reply × (db.new.database ≡ db.old.database))
        (λ _. db.new.database ≡ former) }
{
    match end_text(alloc, db, end) {
        Ok(reply) => Ok(reply),
        Err(none) => {
            rewind(db, before);
            Err(none)
        }
    }
}

// Why no search was made.
fn no_search(alloc: Global, fault: SolveFault) -> Result<Bytes, AllocError>
    ensures { IfOk result (λ reply. (fault ≡ InInconsistent) × (reply ≡ outcome_text Inconsistent)) }
{
    match fault {
        SolveFault::InInconsistent => outcome_reply(alloc, Outcome::Inconsistent),
        SolveFault::Behind | SolveFault::Memory => Err(AllocError),
    }
}

// Searches from the decisions that stand.
fn search(alloc: Global, db: &mut Db, steps: u32, tokens: u32) -> Result<Bytes, AllocError>
    ghost former: { Database }
    requires begun { former ≡ db.old.database }
    requires tokens { tokens ≤ 512 }
    ensures { Answers (RepliesSolve steps tokens db.old.database) db.old.database result db.new.database }
{
    plain_searches_are_searches();
    let before = db.history();
    match solve(alloc, db, &Plain, steps, tokens) {
        Ok(end) => told_or_back(alloc, db, end, before),
        Err(fault) => no_search(alloc, fault),
    }
}

/// Searches for a plan, in so many visits and with no more active tokens than the bound. The decisions that it finds then stand,
/// each a step.
pub fn search_reply(
    alloc: Global,
    db: &mut Db,
    steps: u32,
    tokens: u32,
) -> Result<Bytes, AllocError>
    requires { tokens ≤ 512 }
    ensures { AnswersCommand db.old.database (commands.Solve steps tokens) result db.new.database }
{
    if is_full(db) {
        return refused(alloc, RefusalReason::Full);
    }
    search(alloc, db, steps, tokens)
}
