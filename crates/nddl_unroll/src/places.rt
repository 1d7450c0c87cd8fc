//! Where the text of a rule declares things.

ghost use Rattle.std.specs.Prelude.{◌≡◌, OnOk};
ghost use Rattle.std.specs.Option.{option_map_or};
ghost use Rattle.nddl_ast.specs.Block.{statements_of, with_statement};
ghost use Rattle.nddl_ast.specs.Tree.{Statements};
ghost use Rattle.nddl_terms.specs.Readings.{no_places};
ghost use Rattle.nddl_unroll.specs.Places.{asked_place, call_place, place_if_more, text_places, with_slot_places};

use eu_name::sequence::Sequence;
use nddl_ast::expression::Expr;
use nddl_ast::name::Name;
use nddl_ast::statement::{Call, Stmt, StmtBlock};
use nddl_rule_check::words::relation_named;
use nddl_terms::TextPlaces;
use std::alloc::{AllocError, Global};

/// No places.
pub fn no_places(alloc: Global) -> TextPlaces
    ensures { result ≡ no_places }
{
    TextPlaces {
        turns: Sequence::new(alloc),
        locals: Sequence::new(alloc),
        slots: Sequence::new(alloc),
    }
}

// Notes the place, if a path has more names than one.
fn note_if_more(at: u32, names: &[Name], places: &mut TextPlaces) -> Result<(), AllocError>
    ensures { OnOk result (places.new ≡ with_slot_places (place_if_more at names.now) places.old) }
{
    match names.first() {
        Some(_) => places.slots.push(at),
        None => Ok(()),
    }
}

// Notes the place of a relation that asks for a token without a label.
fn note_asked(at: u32, exprs: &[Expr], places: &mut TextPlaces) -> Result<(), AllocError>
    ensures { OnOk result (places.new ≡ with_slot_places (asked_place at exprs.now) places.old) }
{
    match exprs {
        [expr] => match expr {
            Expr::Path(path) => note_if_more(at, path.rest.as_slice(), places),
            Expr::Literal(_) => Ok(()),
        },
        _ => Ok(()),
    }
}

fn note_call(call: &Call, places: &mut TextPlaces) -> Result<(), AllocError>
    ensures { OnOk result (places.new ≡ with_slot_places (call_place call.now) places.old) }
{
    let word = &call.path.first;
    match relation_named(&word.text) {
        Some(_) => note_asked(word.at, call.arguments.as_slice(), places),
        None => Ok(()),
    }
}

/// Notes the places of statements.
#[cycle(placing)]
pub fn note_stmts(stmts: &[Stmt], places: &mut TextPlaces) -> Result<(), AllocError>
    ensures { OnOk result (places.new ≡ text_places (statements_of stmts.now) places.old) }
{
    for stmt in stmts {
        note_stmt(stmt, places)?;
    }
    Ok(())
}

// Notes those of the statement. Those of it and others are then those of the others.
#[cycle(placing)]
fn note_stmt(stmt: &Stmt, places: &mut TextPlaces) -> Result<(), AllocError>
    ensures { OnOk result ((more : Statements)
        → text_places more places.new ≡ text_places (with_statement stmt.now more) places.old) }
{
    match stmt {
        Stmt::Variable(variable) => places.locals.push(variable.name.at),
        Stmt::Call(call) => note_call(call, places),
        Stmt::Ask(ask) => places.slots.push(ask.label.at),
        Stmt::If {
            then,
            otherwise,
            ..
        } => {
            note_block(then, places)?;
            note_otherwise(otherwise, places)
        }
        Stmt::Foreach { variable, body, .. } => {
            places.turns.push(variable.at)?;
            note_block(body, places)
        }
    }
}

#[cycle(placing)]
fn note_block(block: &StmtBlock, places: &mut TextPlaces) -> Result<(), AllocError>
    ensures { OnOk result (places.new ≡ text_places block.now.statements places.old) }
{
    note_stmts(block.stmts.as_slice(), places)
}

#[cycle(placing)]
fn note_otherwise(otherwise: &Option<StmtBlock>, places: &mut TextPlaces) -> Result<(), AllocError>
    ensures { OnOk result (places.new
        ≡ option_map_or (λ block. text_places block.statements places.old) otherwise.now places.old) }
{
    match otherwise {
        Some(block) => note_block(block, places),
        None => Ok(()),
    }
}
