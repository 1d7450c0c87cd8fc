//! Reads whole texts.

ghost use Rattle.std.specs.Prelude.{◌≡◌, ◌<◌, ◌≤◌, ◌^◌, ◌++◌, ◌∷◌, [], List, ℕ, length, IfOk, OnOk, IsErr, MatchResult, Contains, Err};
ghost use Rattle.model_core.specs.Lawful.{IsLawful};
ghost use Rattle.plan_defs.specs.Plans.{IsPlanOf, order_name};
ghost use Rattle.plan_text.specs.declared.fault.PlanTextFault.TheVariants as faults;
ghost use Rattle.plan_text.specs.Found.{Got, Stopped};
ghost use Rattle.plan_text.specs.Lines.{stated_name};
ghost use Rattle.plan_text.specs.PlanTexts.{AllLines, WholeText, Gathers, ReadsPlan, plan_fault_at};
ghost use Rattle.plan_text.specs.Words.{place_in};
ghost use Rattle.plan_core.specs.Gathering.{said_of, AreNamed, AreNamesOnce, AreKept};
ghost use Rattle.plan_resolve.specs.Indexing.{IsModelIndex};

use super::gathering::{Named, gathered};
use super::openings::{opening, text_ending};
use crate::one_line;
use eu_name::laws::names_are_told_apart;
use eu_name::name::{Part, VarName};
use indexmap::IndexSet;
use model_core::model::Model;
use plan_defs::plan::{Line, Plan};
use plan_resolve::indexed::{IndexedModel, ModelIndex};
use plan_text::fault::{PlanTextFault, Wrong};
use plan_text::statement::Statement;
use plan_text::words::{Cursor, place_in};
use std::alloc::{AllocError, Global};

// The name that the line goes by.
fn line_name(line: &Line) -> Result<VarName, AllocError>
    ensures { IfOk result (λ name. name ≡ order_name line.now) }
{
    match line {
        Line::Token { name, .. } => Ok(VarName::Token(name.copy()?, Part::Start)),
        Line::Merged { name, .. } => Ok(VarName::Token(name.copy()?, Part::Start)),
        Line::Rejected { name } => Ok(VarName::Token(name.copy()?, Part::Start)),
        Line::Local { name, .. } => name.copy(),
    }
}

// The name of what the statement is about.
fn statement_name(statement: &Statement) -> Result<VarName, AllocError>
    ensures { IfOk result (λ name. name ≡ stated_name statement.now) }
{
    match statement {
        Statement::Global(number, _) => Ok(VarName::Global(*number)),
        Statement::Of(line) => line_name(line),
    }
}

// Adds the name to those that are known.
fn know(known: &mut IndexSet<VarName>, name: VarName) -> Result<(), AllocError>
    requires { Contains known.old.keys name → ⊥ }
    ensures { OnOk result (known.new.keys ≡ known.old.keys ++ name ∷ []) }
{
    names_are_told_apart();
    known.insert(name)?;
    Ok(())
}

// The name of what the statement is about, which is added to those that are known.
fn note_name(known: &mut IndexSet<VarName>, statement: &Statement) -> Result<VarName, AllocError>
    requires { Contains known.old.keys (stated_name statement.now) → ⊥ }
    ensures name { IfOk result (λ name. name ≡ stated_name statement.now) }
    ensures known { OnOk result (known.new.keys ≡ known.old.keys ++ stated_name statement.now ∷ []) }
{
    let name = statement_name(statement)?;
    know(known, name)?;
    statement_name(statement)
}

// Puts the statement behind the others, if there was memory for its name.
fn push_named(
    said: &mut Vec<Named>,
    name: Result<VarName, AllocError>,
    statement: Statement,
) -> Result<(), AllocError>
    ensures { MatchResult name
        (λ name. OnOk result (said.new.items ≡ said.old.items ++ record { name = name; statement = statement } ∷ []))
        (λ _. IsErr result) }
{
    match name {
        Ok(name) => {
            said.push(Named { name, statement })?;
            Ok(())
        }
        Err(none) => Err(none),
    }
}

// Adds a statement about something of which nothing was said.
fn add(
    known: &mut IndexSet<VarName>,
    said: &mut Vec<Named>,
    statement: Statement,
) -> Result<(), AllocError>
    requires kept { AreKept known.old.keys said.old.items }
    requires new { Contains known.old.keys (stated_name statement) → ⊥ }
    ensures kept { OnOk result (AreKept known.new.keys said.new.items) }
    ensures said { OnOk result (said_of said.new.items ≡ said_of said.old.items ++ statement ∷ []) }
{
    let name = note_name(known, &statement);
    push_named(said, name, statement)
}

// Reads lines up to `end`.
fn all_lines(
    cursor: &mut Cursor<'_>,
    alloc: Global,
    model: &IndexedModel<'_>,
    known: &mut IndexSet<VarName>,
    said: &mut Vec<Named>,
) -> Result<(), Wrong>
    requires lawful { IsLawful model.now }
    requires none_known { known.old.keys ≡ [] }
    requires none_said { said.old.items ≡ [] }
    ensures lines { MatchResult result
        (λ _. AllLines model.now cursor.old.rest.now (Got (said_of said.new.items) cursor.new.rest.now))
        (λ wrong. AllLines model.now cursor.old.rest.now (Stopped wrong cursor.new.rest.now)) }
    ensures kept { OnOk result (AreKept known.new.keys said.new.items) }
{
    'lines: loop {
        let line = one_line(cursor, alloc, model, known)?;
        match line {
            None => return Ok(()),
            Some(statement) => add(known, said, statement)?,
        }
    }
}

// Reads all of a text.
fn whole_text(
    cursor: &mut Cursor<'_>,
    alloc: Global,
    model: &IndexedModel<'_>,
    known: &mut IndexSet<VarName>,
    said: &mut Vec<Named>,
) -> Result<(), Wrong>
    requires lawful { IsLawful model.now }
    requires none_known { known.old.keys ≡ [] }
    requires none_said { said.old.items ≡ [] }
    ensures text { MatchResult result
        (λ _. (rest : List ℕ) × WholeText model.now cursor.old.rest.now (Got (said_of said.new.items) rest))
        (λ wrong. WholeText model.now cursor.old.rest.now (Stopped wrong cursor.new.rest.now)) }
    ensures kept { OnOk result (AreKept known.new.keys said.new.items) }
{
    opening(cursor)?;
    all_lines(cursor, alloc, model, known, said)?;
    text_ending(cursor)
}

// The fault of this sort, at the place.
fn fault_at(wrong: Wrong, at: u32) -> PlanTextFault
    ensures { result ≡ plan_fault_at wrong at }
{
    match wrong {
        Wrong::Syntax => PlanTextFault::Syntax(at),
        Wrong::Twice => PlanTextFault::Twice(at),
        Wrong::Unknown => PlanTextFault::Unknown(at),
        Wrong::Memory => PlanTextFault::Memory,
    }
}

// What the text is read as, of which this was read.
fn answer(
    alloc: Global,
    text: &[u8],
    rest: &[u8],
    read: Result<(), Wrong>,
    said: Vec<Named>,
) -> Result<Plan, PlanTextFault>
    requires small { length text.now < 2 ^ 32 }
    requires named { OnOk read (AreNamed said.items) }
    requires once { OnOk read (AreNamesOnce said.items) }
    ensures { MatchResult read
        (λ _. MatchResult result
        (λ plan. Gathers (said_of said.items) plan × (length plan.lines ≤ length said.items))
        (λ fault. fault ≡ faults.Memory))
        (λ wrong. result ≡ Err (plan_fault_at wrong (place_in text.now rest.now))) }
{
    match read {
        Ok(()) => match gathered(alloc, said) {
            Ok(plan) => Ok(plan),
            Err(_none) => Err(PlanTextFault::Memory),
        },
        Err(wrong) => Err(fault_at(wrong, place_in(text, rest) as u32)),
    }
}

// Reads the plan from a text whose places have numbers, where the model has an index.
fn read_indexed(alloc: Global, model: &IndexedModel<'_>, text: &[u8]) -> Result<Plan, PlanTextFault>
    requires lawful { IsLawful model.now }
    requires small { length text.now < 2 ^ 32 }
    ensures reads { ReadsPlan model.now text.now result }
    ensures plan { IfOk result (IsPlanOf model.now) }
{
    let mut known = IndexSet::new(alloc);
    let mut said = Vec::new(alloc);
    let mut cursor = Cursor { rest: text };
    let read = whole_text(&mut cursor, alloc, model, &mut known, &mut said);
    answer(alloc, text, cursor.rest, read, said)
}

// Joins the model with its index, and reads the plan by both.
fn read_with<'a>(
    alloc: Global,
    model: &'a Model,
    index: &'a ModelIndex,
    text: &[u8],
) -> Result<Plan, PlanTextFault>
    requires lawful { IsLawful model.now }
    requires indexed { IsModelIndex model.now index.now }
    requires small { length text.now < 2 ^ 32 }
    ensures reads { ReadsPlan model.now text.now result }
    ensures plan { IfOk result (IsPlanOf model.now) }
{
    let indexed = index.of(model);
    read_indexed(alloc, &indexed, text)
}

/// Reads the plan that the text says, whatever the order of its lines; or says what is wrong with the text first, by place. A
/// text of 2^32 bytes or more, whose places have no numbers, is answered by `Memory`.
pub fn read_plan(alloc: Global, model: &Model, text: &[u8]) -> Result<Plan, PlanTextFault>
    requires { IsLawful model.now }
    ensures reads { ReadsPlan model.now text.now result }
    ensures plan { IfOk result (IsPlanOf model.now) }
{
    if text.len() > u32::MAX as usize {
        return Err(PlanTextFault::Memory);
    }
    match ModelIndex::new(alloc, model) {
        Ok(index) => read_with(alloc, &*model, &index, text),
        Err(_none) => Err(PlanTextFault::Memory),
    }
}
