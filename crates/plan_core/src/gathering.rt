//! Makes a plan of what its lines say.

ghost use Rattle.std.specs.Prelude.{◌≡◌, ◌≤◌, ◌↔◌, List, [], length, IfOk, OnOk, IsErr, MatchResult, AllPairs};
ghost use Rattle.std.specs.declared.cmp.Ordering.TheVariants.{Less};
ghost use Rattle.eu_name.specs.NameOrder.{IsVarBefore};
ghost use Rattle.plan_text.specs.declared.statement.Statement.TheVariants as statements;
ghost use Rattle.plan_defs.specs.declared.plan.Line.{Line};
ghost use Rattle.plan_text.specs.PlanTexts.{Gathers, IsStatedBefore, global_values, plan_lines};
ghost use Rattle.std.specs.List.Sorted.{IsPermutation};
ghost use Rattle.plan_core.specs.Gathering.{said_of, AreNamed, AreNamesOnce, Takes};

use eu_name::laws::{names_are_in_order, names_are_told_apart};
use eu_name::name::VarName;
use eu_name::name_order::var_order;
use eu_name::sequence::Sequence;
use plan_defs::plan::{Line, Plan};
use plan_text::statement::Statement;
use std::alloc::{AllocError, Global};
use std::cmp::Ordering;

/// A statement with the name of what it is about.
#[derive(Drop)]
pub struct Named {
    pub name: VarName,
    pub statement: Statement,
}

// Puts the statements in order of names.
fn sort(said: &mut Vec<Named>)
    requires named { AreNamed said.old.items }
    requires once { AreNamesOnce said.old.items }
    ensures order { AllPairs IsStatedBefore (said_of said.new.items) }
    ensures same { IsPermutation said.old.items said.new.items }
{
    names_are_in_order();
    names_are_told_apart();
    said.sort_unstable_by(
        |one: &Named, other: &Named| -> Ordering
            ensures { (result ≡ Less) ↔ IsVarBefore one.now.name other.now.name }
        { var_order(&one.name, &other.name) },
    );
}

// Puts the value of the global behind the others, if it is the next one and they still go on; answers whether it was.
fn take_global(
    number: u32,
    value: i32,
    going_on: bool,
    globals: &mut Vec<i32>,
) -> Result<bool, AllocError>
    ensures { IfOk result (λ goes_on. (lines : List Line)
        → Takes (statements.Global number value) going_on goes_on globals.old.items globals.new.items lines lines) }
{
    if !going_on {
        return Ok(false);
    }
    if number as usize != globals.len() {
        return Ok(false);
    }
    globals.push(value)?;
    Ok(true)
}

// Takes the statement: a value is put behind those of the globals as long as these go on, and a line behind the lines.
fn take_statement(
    statement: Statement,
    going_on: bool,
    globals: &mut Vec<i32>,
    lines: &mut Vec<Line>,
) -> Result<bool, AllocError>
    ensures { IfOk result (λ goes_on.
        Takes statement going_on goes_on globals.old.items globals.new.items lines.old.items lines.new.items) }
{
    match statement {
        Statement::Global(number, value) => take_global(number, value, going_on, globals),
        Statement::Of(line) => {
            lines.push(line)?;
            Ok(false)
        }
    }
}

// What is said, without its name.
fn statement_of(named: Named) -> Statement
    ensures { result ≡ named.statement }
{
    named.statement
}

// Takes the statement, if there was memory for those before it.
fn take_next(
    statement: Statement,
    going_on: Result<bool, AllocError>,
    globals: &mut Vec<i32>,
    lines: &mut Vec<Line>,
) -> Result<bool, AllocError>
    ensures { MatchResult going_on
        (λ going_on. IfOk result (λ goes_on.
        Takes statement going_on goes_on globals.old.items globals.new.items lines.old.items lines.new.items))
        (λ _. IsErr result) }
{
    match going_on {
        Ok(going_on) => take_statement(statement, going_on, globals, lines),
        Err(none) => Err(none),
    }
}

// Takes the statements in turn. Without memory the others are only dropped, so the loop has one exit.
fn take_all(
    said: Vec<Named>,
    globals: &mut Vec<i32>,
    lines: &mut Vec<Line>,
) -> Result<(), AllocError>
    requires no_globals { globals.old.items ≡ [] }
    requires no_lines { lines.old.items ≡ [] }
    ensures globals { OnOk result (globals.new.items ≡ global_values 0 (said_of said.items)) }
    ensures lines { OnOk result (lines.new.items ≡ plan_lines (said_of said.items)) }
{
    let mut going_on: Result<bool, AllocError> = Ok(true);
    for named in said {
        going_on = take_next(statement_of(named), going_on, globals, lines);
    }
    match going_on {
        Ok(_goes_on) => Ok(()),
        Err(none) => Err(none),
    }
}

/// The plan that the statements make.
pub fn gathered(alloc: Global, said: Vec<Named>) -> Result<Plan, AllocError>
    requires named { AreNamed said.items }
    requires once { AreNamesOnce said.items }
    ensures gathers { IfOk result (Gathers (said_of said.items)) }
    ensures few { IfOk result (λ plan. length plan.lines ≤ length said.items) }
{
    let mut said = said;
    sort(&mut said);
    let mut globals = Vec::new(alloc);
    let mut lines = Vec::new(alloc);
    let taken = take_all(said, &mut globals, &mut lines);
    plan_of(taken, globals, lines)
}

// The plan of these values and lines, if all were taken.
fn plan_of(
    taken: Result<(), AllocError>,
    globals: Vec<i32>,
    lines: Vec<Line>,
) -> Result<Plan, AllocError>
    ensures { MatchResult taken
        (λ _. IfOk result (λ plan. (plan.globals ≡ globals.items) × (plan.lines ≡ lines.items)))
        (λ _. IsErr result) }
{
    match taken {
        Ok(()) => Ok(Plan {
            globals: Sequence::from_vec(globals),
            lines: Sequence::from_vec(lines),
        }),
        Err(none) => Err(none),
    }
}
