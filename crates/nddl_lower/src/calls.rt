//! What calls and labelled relations stand for.

ghost use Rattle.std.specs.Prelude.{◌≡◌, OnOk};
ghost use Rattle.nddl_terms.specs.Readings.{readings_of};
ghost use Rattle.nddl_lower.specs.Calls.{with_ask, with_call, with_constraint_named, with_related, with_relation_to};

use super::arguments::add_constraint;
use super::slots::{add_relation, add_wanted, asked_labelled, asked_path};
use model_core::item::Rel;
use nddl_ast::expression::Expr;
use nddl_ast::name::{Name, Path};
use nddl_ast::statement::{Ask, Call};
use nddl_rule_check::words::{constraint_named, relation_named};
use nddl_terms::stands::first_stand;
use nddl_terms::{Growth, Made, Reading};
use std::alloc::{AllocError, Global};

// A relation that is written there, with the slot of a label or a further token.
fn add_related(
    alloc: Global,
    reading: &Reading<'_>,
    turns: &[Made],
    at: u32,
    relation: Rel,
    path: &Path,
    growth: &mut Growth,
) -> Result<(), AllocError>
    ensures { OnOk result (growth.new
        ≡ with_related (readings_of reading.now) turns.now at relation path.now path.now.rest growth.old) }
{
    match path.rest.as_slice().first() {
        None => {
            let label = first_stand(reading, turns, growth, path.first.at);
            add_relation(relation, label, growth)
        }
        Some(_) => {
            let wanted = asked_path(alloc, reading, turns, path, growth)?;
            add_wanted(alloc, reading.lexicon, at, relation, wanted, growth)
        }
    }
}

// A relation with its one argument, which is a path; any other arguments add nothing.
fn add_relation_to(
    alloc: Global,
    reading: &Reading<'_>,
    turns: &[Made],
    at: u32,
    relation: Rel,
    exprs: &[Expr],
    growth: &mut Growth,
) -> Result<(), AllocError>
    ensures { OnOk result (growth.new
        ≡ with_relation_to (readings_of reading.now) turns.now at relation exprs.now growth.old) }
{
    match exprs {
        [expr] => match expr {
            Expr::Path(path) => add_related(alloc, reading, turns, at, relation, path, growth),
            Expr::Literal(_) => Ok(()),
        },
        _ => Ok(()),
    }
}

// A constraint, if the word is one.
fn add_constraint_named(
    alloc: Global,
    reading: &Reading<'_>,
    turns: &[Made],
    word: &Name,
    exprs: &[Expr],
    growth: &mut Growth,
) -> Result<(), AllocError>
    ensures { OnOk result (growth.new
        ≡ with_constraint_named (readings_of reading.now) turns.now word.now exprs.now growth.old) }
{
    match constraint_named(&word.text) {
        Some(kind) => add_constraint(alloc, reading, turns, kind, exprs, growth),
        None => Ok(()),
    }
}

/// A relation or a constraint.
pub fn add_call(
    alloc: Global,
    reading: &Reading<'_>,
    turns: &[Made],
    call: &Call,
    growth: &mut Growth,
) -> Result<(), AllocError>
    ensures { OnOk result (growth.new ≡ with_call (readings_of reading.now) turns.now call.now growth.old) }
{
    let word = &call.path.first;
    let exprs = call.arguments.as_slice();
    match relation_named(&word.text) {
        Some(relation) => add_relation_to(alloc, reading, turns, word.at, relation, exprs, growth),
        None => add_constraint_named(alloc, reading, turns, word, exprs, growth),
    }
}

/// A relation to a token that gets a label.
pub fn add_ask(
    alloc: Global,
    reading: &Reading<'_>,
    turns: &[Made],
    ask: &Ask,
    growth: &mut Growth,
) -> Result<(), AllocError>
    ensures { OnOk result (growth.new ≡ with_ask (readings_of reading.now) turns.now ask.now growth.old) }
{
    match relation_named(&ask.word.text) {
        Some(relation) => {
            let wanted = asked_labelled(alloc, reading, turns, &ask.path, growth)?;
            add_wanted(
                alloc,
                reading.lexicon,
                ask.label.at,
                relation,
                wanted,
                growth,
            )
        }
        None => Ok(()),
    }
}
