//! Taking steps back, and how many can be.

ghost use Rattle.std.specs.Prelude.{MatchBool};
ghost use Rattle.script_lang.specs.declared.command.Command.TheVariants as commands;
ghost use Rattle.session_core.specs.Replies.{IsFull, UndoesLast};
ghost use Rattle.session_core.specs.Steps.{AnswersCommand, StepsOr};

use super::reason::{StepStop, step_of};
use super::replies::step_reply;
use eu_name::bytes::Bytes;
use plan_db::{Db, Outcome};
use std::alloc::{AllocError, Global};

/// So many steps can be taken back at most.
const MOST_STEPS: u64 = 100_000;

/// Whether no further step is taken, as so many can be taken back.
pub fn is_full(db: &Db) -> bool
    ensures { MatchBool result (IsFull db.now.database) (IsFull db.now.database → ⊥) }
{
    db.history() >= MOST_STEPS
}

// Takes the last step back.
fn take_back(db: &mut Db) -> Result<Outcome, StepStop>
    ensures { StepsOr (UndoesLast db.old.database) db.old.database result db.new.database }
{
    step_of(db.undo())
}

/// Takes the last step back, and says what the decisions then leave.
pub fn undo(alloc: Global, db: &mut Db) -> Result<Bytes, AllocError>
    ensures { AnswersCommand db.old.database commands.Undo result db.new.database }
{
    let step = take_back(db);
    step_reply(alloc, step)
}
