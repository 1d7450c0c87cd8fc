//! What is told of the database.

ghost use Rattle.std.specs.Prelude.{◌≡◌, false, List, Some, IfOk};
ghost use Rattle.flaw_core.specs.Rules.{AreChoicesAt, IsFirstAt, IsLeastFor};
ghost use Rattle.model_core.specs.declared.decision.Decision.{Decision};
ghost use Rattle.model_core.specs.declared.refusal.Refusal.TheVariants.{Unknown};
ghost use Rattle.plan_resolve.specs.Indexing.{IsModelIndex};
ghost use Rattle.script_lang.specs.declared.command.Command.TheVariants as commands;
ghost use Rattle.session_core.specs.declared.reason.RefusalReason.TheVariants as reason;
ghost use Rattle.session_core.specs.Asking.{query_command};
ghost use Rattle.session_core.specs.Reasons.{refusal};
ghost use Rattle.session_core.specs.Telling.{SaysUntold, TellsVariable};
ghost use Rattle.session_core.specs.Replies.{TellsFlaw, TellsState};
ghost use Rattle.session_core.specs.Steps.{AnswersCommand};

use super::counting::{MOST_ACTIVE, count_choices};
use super::explaining::{why_cycle, why_reply};
use crate::replies::{outcome_reply, refused};
use crate::resetting::variable_in;
use crate::{Query, RefusalReason};
use eu_name::bytes::Bytes;
use eu_name::name::VarName;
use eu_name::name_text::NameText;
use flaw_core::{Flaw, FlawRule, Plain};
use model_core::model::Model;
use model_core::refusal::Refusal;
use model_core::view::View;
use plan_db::{Db, Outcome, QueryFault};
use plan_resolve::indexed::ModelIndex;
use session_replies::replies::{
    decisions_reply, domain_reply, flaw_reply, no_flaw_reply, tokens_reply,
};
use std::alloc::{AllocError, Global};

// That there is no such variable.
fn unknown_reply(alloc: Global) -> Result<Bytes, AllocError>
    ensures { IfOk result (λ reply. reply ≡ refusal (reason.Decision Unknown)) }
{
    refused(alloc, RefusalReason::Decision(Refusal::Unknown))
}

// Why nothing is told.
fn untold_reply(alloc: Global, fault: QueryFault) -> Result<Bytes, AllocError>
    ensures { IfOk result (SaysUntold fault) }
{
    match fault {
        QueryFault::Inconsistent => outcome_reply(alloc, Outcome::Inconsistent),
        QueryFault::Unknown => unknown_reply(alloc),
        QueryFault::Behind => Err(AllocError),
    }
}

// What the variable may still be.
fn tell_variable(alloc: Global, db: &Db, name: &VarName) -> Result<Bytes, AllocError>
    ensures { IfOk result (TellsState (TellsVariable db.now.database.model name.now) db.now.database) }
{
    match db.domain(name) {
        Ok(domain) => domain_reply(alloc, db.model(), name, domain),
        Err(fault) => untold_reply(alloc, fault),
    }
}

// What the variable that the text names may still be.
fn tell_domain(
    alloc: Global,
    db: &Db,
    index: &ModelIndex,
    text: &NameText,
) -> Result<Bytes, AllocError>
    requires ready { db.now.behind ≡ false }
    requires index { IsModelIndex db.now.database.model index.now }
    ensures { AnswersCommand db.now.database (commands.Domain text.now) result db.now.database }
{
    if !db.is_consistent() {
        return outcome_reply(alloc, Outcome::Inconsistent);
    }
    match variable_in(db, index, text) {
        Ok(Some(name)) => tell_variable(alloc, db, &name),
        Ok(None) => unknown_reply(alloc),
        Err(none) => Err(none),
    }
}

// Which tokens there are.
fn tell_tokens(alloc: Global, db: &Db) -> Result<Bytes, AllocError>
    ensures { AnswersCommand db.now.database commands.Tokens result db.now.database }
{
    match db.view() {
        Ok(view) => tokens_reply(alloc, db.model(), &view),
        Err(fault) => untold_reply(alloc, fault),
    }
}

// Which decisions stand.
fn tell_decisions(alloc: Global, db: &Db) -> Result<Bytes, AllocError>
    ensures { AnswersCommand db.now.database commands.Decisions result db.now.database }
{
    decisions_reply(alloc, db.model(), b"decisions", db.decisions())
}

// The first flaw of a view, with the number of its choices.
fn tell_first<V: View>(
    alloc: Global,
    model: &Model,
    view: &V,
    flaw: Flaw,
) -> Result<Bytes, AllocError>
    requires model { V.model view.now ≡ model.now }
    requires least { IsLeastFor model.now (V.decisions view.now) (V.state view.now) }
    requires first { IsFirstAt model.now (V.decisions view.now) (V.state view.now) (Some flaw) }
    ensures { IfOk result (λ reply. (choices : List Decision)
        → AreChoicesAt model.now (V.decisions view.now) (V.state view.now) 512 flaw choices
        → TellsFlaw model.now (V.decisions view.now) (V.state view.now) reply) }
{
    match count_choices(model, view, &flaw) {
        Ok(count) => flaw_reply(alloc, model, view, flaw, count),
        Err(none) => Err(none),
    }
}

// The first flaw of a view, if there is one.
fn tell_any<V: View>(alloc: Global, model: &Model, view: &V) -> Result<Bytes, AllocError>
    requires model { V.model view.now ≡ model.now }
    requires least { IsLeastFor model.now (V.decisions view.now) (V.state view.now) }
    ensures { IfOk result (TellsFlaw model.now (V.decisions view.now) (V.state view.now)) }
{
    match Plain.first_flaw(model, view, MOST_ACTIVE) {
        Some(flaw) => tell_first(alloc, model, view, flaw),
        None => no_flaw_reply(alloc),
    }
}

// Which flaw comes first.
fn tell_flaw(alloc: Global, db: &Db) -> Result<Bytes, AllocError>
    ensures { AnswersCommand db.now.database commands.Flaws result db.now.database }
{
    match db.view() {
        Ok(view) => tell_any(alloc, db.model(), &view),
        Err(fault) => untold_reply(alloc, fault),
    }
}

/// What is asked of the database.
pub fn tell(alloc: Global, db: &Db, index: &ModelIndex, query: &Query) -> Result<Bytes, AllocError>
    requires ready { db.now.behind ≡ false }
    requires index { IsModelIndex db.now.database.model index.now }
    ensures { AnswersCommand db.now.database (query_command query.now) result db.now.database }
{
    match query {
        Query::Domain(variable) => tell_domain(alloc, db, index, variable),
        Query::Tokens => tell_tokens(alloc, db),
        Query::Decisions => tell_decisions(alloc, db),
        Query::Flaw => tell_flaw(alloc, db),
        Query::Conflict => why_reply(alloc, db),
        Query::Cycle => why_cycle(alloc, db),
    }
}
