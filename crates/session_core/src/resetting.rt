//! Decisions that are taken out.

ghost use Rattle.std.specs.Prelude.{IfOk, MatchOption};
ghost use Rattle.eu_name.specs.declared.name.VarName.{VarName as Variable};
ghost use Rattle.model_core.specs.Lawful.{IsLawful};
ghost use Rattle.model_core.specs.Names.{NamesVariable};
ghost use Rattle.plan_db.specs.Database.{IsSound};
ghost use Rattle.plan_resolve.specs.Indexing.{IsModelIndex};
ghost use Rattle.script_lang.specs.declared.command.Command.{Command as Wanted};
ghost use Rattle.script_lang.specs.declared.command.Command.TheVariants as commands;
ghost use Rattle.session_core.specs.Asking.{reset_command};
ghost use Rattle.session_core.specs.Replies.{ResetsAsked};
ghost use Rattle.session_core.specs.Steps.{AnswersCommand, FindsSubject, NamesSubject, ResetsOn, StepsOr};

use super::reason::{RefusalReason, StepStop, step_of};
use super::replies::{refused, step_reply};
use super::undoing::is_full;
use crate::SubjectText;
use domain_core::kind::Kind;
use eu_name::bytes::Bytes;
use eu_name::name::VarName;
use eu_name::name_text::NameText;
use eu_name::sequence::Sequence;
use model_core::item::Rel;
use plan_db::{Db, Outcome, Subject};
use plan_resolve::indexed::{IndexedModel, ModelIndex};
use plan_resolve::resolving::{token_named, variable_named};
use script_lang::asking::tokens_named;
use script_lang::{ArgumentText, constraint_asked};
use std::alloc::{AllocError, Global};

/// The variable that the text names.
pub fn variable_in(
    db: &Db,
    index: &ModelIndex,
    text: &NameText,
) -> Result<Option<VarName>, AllocError>
    requires { IsModelIndex db.now.database.model index.now }
    ensures named { IfOk result (λ found. MatchOption found
        ((name : Variable) → NamesVariable db.now.database.model text.now name → ⊥)
        (NamesVariable db.now.database.model text.now)) }
    ensures lawful { IsLawful db.now.database.model }
{
    variable_named(&index.of(db.model()), text)
}

// The token that the text names, which names no variable.
fn token_subject(model: &IndexedModel<'_>, text: &NameText) -> Result<Option<Subject>, AllocError>
    requires lawful { IsLawful model.now }
    requires none { (name : Variable) → NamesVariable model.now text.now name → ⊥ }
    ensures { IfOk result (NamesSubject model.now (commands.Reset text.now)) }
{
    let found = token_named(model, text)?;
    match found {
        Some(token) => Ok(Some(Subject::Token(token))),
        None => Ok(None),
    }
}

// The variable or the token that the text names.
fn subject_named(model: &IndexedModel<'_>, text: &NameText) -> Result<Option<Subject>, AllocError>
    requires { IsLawful model.now }
    ensures { IfOk result (NamesSubject model.now (commands.Reset text.now)) }
{
    let found = variable_named(model, text)?;
    match found {
        Some(name) => Ok(Some(Subject::Var(name))),
        None => token_subject(model, text),
    }
}

// That the token that the one text names is before the one that the other names.
fn order_named(
    model: &IndexedModel<'_>,
    one: &NameText,
    other: &NameText,
) -> Result<Option<Subject>, AllocError>
    requires { IsLawful model.now }
    ensures { IfOk result (NamesSubject model.now (commands.ResetOrder one.now other.now)) }
{
    let found = tokens_named(model, one, other)?;
    match found {
        Some((first, second)) => Ok(Some(Subject::Order(first, second))),
        None => Ok(None),
    }
}

// That the relation holds between the tokens that the two texts name.
fn relation_named(
    model: &IndexedModel<'_>,
    relation: Rel,
    one: &NameText,
    other: &NameText,
) -> Result<Option<Subject>, AllocError>
    requires { IsLawful model.now }
    ensures { IfOk result (NamesSubject model.now (commands.Unrelate relation one.now other.now)) }
{
    let found = tokens_named(model, one, other)?;
    match found {
        Some((first, second)) => Ok(Some(Subject::Relation(relation, first, second))),
        None => Ok(None),
    }
}

// That the constraint holds of what the words say. A value outside the range of values stands for all of those.
fn constraint_named(
    model: &IndexedModel<'_>,
    kind: Kind,
    arguments: &Sequence<ArgumentText>,
) -> Result<Option<Subject>, AllocError>
    requires { IsLawful model.now }
    ensures { IfOk result (FindsSubject model.now (commands.Withdraw kind arguments.now)) }
{
    let found = constraint_asked(model, kind, arguments)?;
    match found {
        Some(given) => Ok(Some(Subject::Constraint(kind, given))),
        None => Ok(None),
    }
}

// What the decision is on that is to be taken out, by the words for it.
fn subject_asked(
    model: &IndexedModel<'_>,
    asked: &SubjectText,
) -> Result<Option<Subject>, AllocError>
    requires { IsLawful model.now }
    ensures { IfOk result (FindsSubject model.now (reset_command asked.now)) }
{
    match asked {
        SubjectText::Named(text) => subject_named(model, text),
        SubjectText::Order(one, other) => order_named(model, one, other),
        SubjectText::Constraint { kind, arguments } => constraint_named(model, *kind, arguments),
        SubjectText::Relation {
            relation,
            first,
            second,
        } => relation_named(model, *relation, first, second),
    }
}

// Finds that in the database's model.
fn find_subject(
    db: &Db,
    index: &ModelIndex,
    asked: &SubjectText,
) -> Result<Option<Subject>, AllocError>
    requires { IsModelIndex db.now.database.model index.now }
    ensures found { IfOk result (FindsSubject db.now.database.model (reset_command asked.now)) }
    ensures sound { IsSound db.now.database }
{
    subject_asked(&index.of(db.model()), asked)
}

// Takes the decision on the subject out.
fn reset_subject(db: &mut Db, subject: Subject) -> Result<Outcome, StepStop>
    ensures { ResetsOn db.old.database subject result db.new.database }
{
    step_of(db.reset(&subject))
}

// Takes the decision on the subject out, if one was found.
fn reset_found(db: &mut Db, found: Option<Subject>) -> Result<Outcome, StepStop>
    requires { IsSound db.old.database }
    ensures { (command : Wanted) → FindsSubject db.old.database.model command found
        → StepsOr (ResetsAsked db.old.database command) db.old.database result db.new.database }
{
    match found {
        Some(subject) => reset_subject(db, subject),
        None => Err(StepStop::Refused(RefusalReason::NoDecision)),
    }
}

// Takes the decision on what the words name out.
fn reset(db: &mut Db, index: &ModelIndex, asked: &SubjectText) -> Result<Outcome, StepStop>
    requires { IsModelIndex db.old.database.model index.now }
    ensures { StepsOr (ResetsAsked db.old.database (reset_command asked.now)) db.old.database result db.new.database }
{
    match find_subject(db, index, asked) {
        Ok(found) => reset_found(db, found),
        Err(_none) => Err(StepStop::Memory),
    }
}

/// Takes the decision on what the words name out, and says what the decisions then leave.
pub fn reset_reply(
    alloc: Global,
    db: &mut Db,
    index: &ModelIndex,
    asked: &SubjectText,
) -> Result<Bytes, AllocError>
    requires { IsModelIndex db.old.database.model index.now }
    ensures { AnswersCommand db.old.database (reset_command asked.now) result db.new.database }
{
    if is_full(db) {
        return refused(alloc, RefusalReason::Full);
    }
    let step = reset(db, index, asked);
    step_reply(alloc, step)
}
