//! Editing a plan by the lines of a script.

ghost use Rattle.std.specs.Prelude.{◌≡◌, ℕ, true, false, List, Ok, IfOk, OnErr, MatchBool};
ghost use Rattle.session_loop.specs.Answering.{LeavesUnanswered};
ghost use Rattle.plan_db.specs.Database.{IsSound};
ghost use Rattle.plan_resolve.specs.Indexing.{IsModelIndex};
ghost use Rattle.script_lang.specs.Line.{IsCommand};
ghost use Rattle.session_core.specs.Asking.{asked_command};
ghost use Rattle.session_core.specs.LineReplies.{AnswersLine, AnswersRead, goes_on_behind};
ghost use Rattle.session_core.specs.Reasons.{refusal};
ghost use Rattle.session_core.specs.Replies.{IsLost, RepliesTo};
ghost use Rattle.session_core.specs.Steps.{AnswersCommand};

use super::telling::tell;
use crate::replies::{no_reply, refused};
use crate::{Asked, RefusalReason, decide_reply, reset_reply, search_reply, sort_command, undo};
use eu_name::bytes::Bytes;
use plan_db::Db;
use plan_db::release::discard;
use plan_resolve::indexed::ModelIndex;
use script_lang::{Command, LineFault, read_line};
use session_loop::reply::{Answer, Responder};
use std::alloc::{AllocError, Global};
use std::marker::Model;

/// A plan database that answers the lines of a script. One that is behind answers each as it does where memory is wanting.
#[derive(Drop)]
pub struct Editor {
    alloc: Global,
    // The names of the database's model.
    index: ModelIndex,
    db: Db,
}

impl Model for Editor {
    ghost use Rattle.plan_db.specs.Database.{Database};
    ghost use Rattle.plan_resolve.specs.Indexing.{IsModelIndex};

    ghost Value = { Database };

    ghost use Rattle.std.specs.Coded.{codes};
    ghost use Rattle.model_core.specs.contracts.model.Model as a_model;

    ghost coded = { Prim.hlevel (codes, a_model.the_row.coded) };

    ghost view = { λ editor. editor.db.database };

    ghost invariant = { λ editor. IsModelIndex editor.db.database.model editor.index };
}

impl Editor {
    /// An editor of what the database holds.
    pub fn new(alloc: Global, db: Db) -> Result<Editor, AllocError>
        ensures { IfOk result (λ editor. editor ≡ db.database) }
    {
        match ModelIndex::new(alloc, db.model()) {
            Ok(index) => Ok(Editor { alloc, index, db }),
            Err(none) => {
                discard(db);
                Err(none)
            }
        }
    }

    /// Gives the database back as it is now.
    pub fn into_db(self) -> Db
        ensures { result.database ≡ self }
    {
        let Editor { db, .. } = self;
        db
    }
}

impl Responder for Editor {
    ghost use Rattle.session_core.specs.LineReplies.{AnswersLine};
    ghost use Rattle.session_core.specs.FrontLaw.{front_answers};

    ghost answers = { AnswersLine };

    fn answer(&mut self, line: &[u8]) -> Result<Answer, AllocError> {
        answer_line(self.alloc, &mut self.db, &self.index, line)
    }

    ghost reads_front = { front_answers };
}

// Whether the database isn't behind.
fn is_ready(db: &Db) -> bool
    ensures ready { MatchBool result (db.now.behind ≡ false) (db.now.behind ≡ true) }
    ensures sound { IsSound db.now.database }
{
    let _sound = db.model();
    !db.is_behind()
}

// Answers a line, unless the database is behind.
fn answer_line(
    alloc: Global,
    db: &mut Db,
    index: &ModelIndex,
    line: &[u8],
) -> Result<Answer, AllocError>
    requires { IsModelIndex db.old.database.model index.now }
    ensures answer { IfOk result (λ answer. AnswersLine db.old.database line.now answer db.new.database) }
    ensures memory { OnErr result (LeavesUnanswered AnswersLine db.old.database line.now db.new.database) }
    ensures model { db.new.database.model ≡ db.old.database.model }
{
    if !is_ready(db) {
        return Err(AllocError);
    }
    answer_ready(alloc, db, index, line)
}

// Answers a line.
fn answer_ready(
    alloc: Global,
    db: &mut Db,
    index: &ModelIndex,
    line: &[u8],
) -> Result<Answer, AllocError>
    requires ready { db.old.behind ≡ false }
    requires sound { IsSound db.old.database }
    requires index { IsModelIndex db.old.database.model index.now }
    ensures answer { IfOk result (λ answer. AnswersLine db.old.database line.now answer db.new.database) }
    ensures memory { OnErr result (LeavesUnanswered AnswersLine db.old.database line.now db.new.database) }
    ensures model { db.new.database.model ≡ db.old.database.model }
{
    match read_line(alloc, line) {
        Ok(command) => answer_command(alloc, db, index, command),
        Err(LineFault::TooLong) => refuse_line(alloc, RefusalReason::Long),
        Err(LineFault::Syntax) => refuse_line(alloc, RefusalReason::Syntax),
        Err(LineFault::Memory) => Err(AllocError),
    }
}

// The answer that refuses a line.
fn refuse_line(alloc: Global, reason: RefusalReason) -> Result<Answer, AllocError>
    ensures { IfOk result (λ answer. (answer.reply ≡ refusal reason) × (answer.goes_on ≡ true)) }
{
    match refused(alloc, reason) {
        Ok(reply) => Ok(Answer {
            reply,
            goes_on: true,
        }),
        Err(none) => Err(none),
    }
}

// Does what a command says, and answers it.
fn answer_command(
    alloc: Global,
    db: &mut Db,
    index: &ModelIndex,
    command: Command,
) -> Result<Answer, AllocError>
    requires ready { db.old.behind ≡ false }
    requires index { IsModelIndex db.old.database.model index.now }
    requires words { (words : List (List ℕ)) × IsCommand words command }
    ensures answer { IfOk result (λ answer. AnswersRead db.old.database (Ok command) answer db.new.database) }
    ensures memory { OnErr result (IsLost (RepliesTo db.old.database command) db.old.database db.new.database) }
    ensures model { db.new.database.model ≡ db.old.database.model }
{
    let asked = sort_command(command);
    let answer = answer_asked(alloc, db, index, &asked);
    drop(asked);
    answer
}

// Does what is asked for, and answers it.
fn answer_asked(
    alloc: Global,
    db: &mut Db,
    index: &ModelIndex,
    asked: &Asked,
) -> Result<Answer, AllocError>
    requires ready { db.old.behind ≡ false }
    requires index { IsModelIndex db.old.database.model index.now }
    requires words { (words : List (List ℕ)) × IsCommand words (asked_command asked.now) }
    ensures answer { IfOk result
        (λ answer. AnswersRead db.old.database (Ok (asked_command asked.now)) answer db.new.database) }
    ensures memory { OnErr result
        (IsLost (RepliesTo db.old.database (asked_command asked.now)) db.old.database db.new.database) }
    ensures model { db.new.database.model ≡ db.old.database.model }
{
    let goes_on = goes_on_behind(asked);
    match carry_out(alloc, db, index, asked) {
        Ok(reply) => Ok(Answer { reply, goes_on }),
        Err(none) => Err(none),
    }
}

// Whether the session goes on behind it.
fn goes_on_behind(asked: &Asked) -> bool
    ensures { result ≡ goes_on_behind (asked_command asked.now) }
{
    !matches!(asked, Asked::Quit)
}

// Does what is asked for, and gives the reply.
fn carry_out(
    alloc: Global,
    db: &mut Db,
    index: &ModelIndex,
    asked: &Asked,
) -> Result<Bytes, AllocError>
    requires ready { db.old.behind ≡ false }
    requires index { IsModelIndex db.old.database.model index.now }
    requires words { (words : List (List ℕ)) × IsCommand words (asked_command asked.now) }
    ensures { AnswersCommand db.old.database (asked_command asked.now) result db.new.database }
{
    match asked {
        Asked::Nothing | Asked::Quit => Ok(no_reply(alloc)),
        Asked::Decision(text) => decide_reply(alloc, db, index, text),
        Asked::Reset(text) => reset_reply(alloc, db, index, text),
        Asked::Undo => undo(alloc, db),
        Asked::Tell(query) => tell(alloc, db, index, query),
        Asked::Search { steps, tokens } => search_reply(alloc, db, *steps, *tokens),
    }
}
