//! Reads lines.

ghost use Rattle.std.specs.Prelude.{◌≡◌, MatchResult, Some, Ok, Err};
ghost use Rattle.model_core.specs.Lawful.{IsLawful};
ghost use Rattle.plan_text.specs.declared.statement.Keyword.TheVariants as keywords;
ghost use Rattle.plan_text.specs.declared.statement.Statement.TheVariants as statements;
ghost use Rattle.plan_defs.specs.declared.plan.Line.TheVariants as lines;
ghost use Rattle.plan_text.specs.Found.{FindsWords};
ghost use Rattle.plan_text.specs.Lines.{AfterKeyword, OneLine};
ghost use Rattle.plan_core.specs.Reading.{active_keyword};

use super::readers::{
    active_values, one_global, one_keyword, one_local, one_target, one_token, one_value,
};
use eu_name::name::{TokenName, VarName};
use eu_name::sequence::Sequence;
use indexmap::IndexSet;
use plan_defs::plan::Line;
use plan_resolve::indexed::IndexedModel;
use plan_text::fault::Wrong;
use plan_text::statement::{Keyword, Statement};
use plan_text::words::Cursor;
use std::alloc::Global;

// What follows `global`.
fn after_global(
    cursor: &mut Cursor<'_>,
    alloc: Global,
    model: &IndexedModel<'_>,
    known: &IndexSet<VarName>,
) -> Result<Option<Statement>, Wrong>
    requires { IsLawful model.now }
    ensures { FindsWords (AfterKeyword model.now known.now.keys keywords.Global cursor.old.rest.now) result cursor.new.rest.now }
{
    let found = one_global(cursor, alloc, model, known)?;
    let value = one_value(cursor, model, found.kind)?;
    Ok(Some(Statement::Global(found.number, value)))
}

// The line of a token that takes place, if its values were read.
fn active_line(
    name: TokenName,
    fact: bool,
    values: Result<Sequence<i32>, Wrong>,
) -> Result<Option<Statement>, Wrong>
    ensures { MatchResult values
        (λ values. result ≡ Ok (Some (statements.Of (lines.Token name fact values))))
        (λ wrong. result ≡ Err wrong) }
{
    match values {
        Ok(values) => Ok(Some(Statement::Of(Line::Token { name, fact, values }))),
        Err(wrong) => Err(wrong),
    }
}

// What follows `fact` or `token`.
fn after_active(
    cursor: &mut Cursor<'_>,
    alloc: Global,
    model: &IndexedModel<'_>,
    known: &IndexSet<VarName>,
    fact: bool,
) -> Result<Option<Statement>, Wrong>
    requires { IsLawful model.now }
    ensures { FindsWords (AfterKeyword model.now known.now.keys (active_keyword fact) cursor.old.rest.now) result cursor.new.rest.now }
{
    let token = one_token(cursor, alloc, model, known)?;
    let values = active_values(cursor, alloc, model, token.pred);
    active_line(token.name, fact, values)
}

// The line of a token that is another one, if that one was read.
fn merged_line(
    name: TokenName,
    target: Result<TokenName, Wrong>,
) -> Result<Option<Statement>, Wrong>
    ensures { MatchResult target
        (λ target. result ≡ Ok (Some (statements.Of (lines.Merged name target))))
        (λ wrong. result ≡ Err wrong) }
{
    match target {
        Ok(target) => Ok(Some(Statement::Of(Line::Merged { name, target }))),
        Err(wrong) => Err(wrong),
    }
}

// What follows `merged`.
fn after_merged(
    cursor: &mut Cursor<'_>,
    alloc: Global,
    model: &IndexedModel<'_>,
    known: &IndexSet<VarName>,
) -> Result<Option<Statement>, Wrong>
    requires { IsLawful model.now }
    ensures { FindsWords (AfterKeyword model.now known.now.keys keywords.Merged cursor.old.rest.now) result cursor.new.rest.now }
{
    let token = one_token(cursor, alloc, model, known)?;
    let target = one_target(cursor, alloc, model);
    merged_line(token.name, target)
}

// What follows `rejected`.
fn after_rejected(
    cursor: &mut Cursor<'_>,
    alloc: Global,
    model: &IndexedModel<'_>,
    known: &IndexSet<VarName>,
) -> Result<Option<Statement>, Wrong>
    requires { IsLawful model.now }
    ensures { FindsWords (AfterKeyword model.now known.now.keys keywords.Rejected cursor.old.rest.now) result cursor.new.rest.now }
{
    let token = one_token(cursor, alloc, model, known)?;
    Ok(Some(Statement::Of(Line::Rejected { name: token.name })))
}

// The line of a local, if its value was read.
fn local_line(name: VarName, value: Result<i32, Wrong>) -> Result<Option<Statement>, Wrong>
    ensures { MatchResult value
        (λ value. result ≡ Ok (Some (statements.Of (lines.Local name value))))
        (λ wrong. result ≡ Err wrong) }
{
    match value {
        Ok(value) => Ok(Some(Statement::Of(Line::Local { name, value }))),
        Err(wrong) => Err(wrong),
    }
}

// What follows `local`.
fn after_local(
    cursor: &mut Cursor<'_>,
    alloc: Global,
    model: &IndexedModel<'_>,
    known: &IndexSet<VarName>,
) -> Result<Option<Statement>, Wrong>
    requires { IsLawful model.now }
    ensures { FindsWords (AfterKeyword model.now known.now.keys keywords.Local cursor.old.rest.now) result cursor.new.rest.now }
{
    let local = one_local(cursor, alloc, model, known)?;
    let value = one_value(cursor, model, local.kind);
    local_line(local.name, value)
}

// What follows the word with which a line begins.
fn after_keyword(
    cursor: &mut Cursor<'_>,
    alloc: Global,
    model: &IndexedModel<'_>,
    known: &IndexSet<VarName>,
    keyword: Keyword,
) -> Result<Option<Statement>, Wrong>
    requires { IsLawful model.now }
    ensures { FindsWords (AfterKeyword model.now known.now.keys keyword cursor.old.rest.now) result cursor.new.rest.now }
{
    match keyword {
        Keyword::Global => after_global(cursor, alloc, model, known),
        Keyword::Fact => after_active(cursor, alloc, model, known, true),
        Keyword::Token => after_active(cursor, alloc, model, known, false),
        Keyword::Merged => after_merged(cursor, alloc, model, known),
        Keyword::Rejected => after_rejected(cursor, alloc, model, known),
        Keyword::Local => after_local(cursor, alloc, model, known),
        Keyword::End => Ok(None),
    }
}

/// A line, or none behind `end`.
pub fn one_line(
    cursor: &mut Cursor<'_>,
    alloc: Global,
    model: &IndexedModel<'_>,
    known: &IndexSet<VarName>,
) -> Result<Option<Statement>, Wrong>
    requires { IsLawful model.now }
    ensures { FindsWords (OneLine model.now known.now.keys cursor.old.rest.now) result cursor.new.rest.now }
{
    let keyword = one_keyword(cursor)?;
    after_keyword(cursor, alloc, model, known, keyword)
}
