//! The names that are read in blocks.

ghost use Rattle.std.specs.Prelude.{◌≡◌, ◌++◌, [], IfOk, OnOk};
ghost use Rattle.std.specs.Option.{option_map_or};
ghost use Rattle.nddl_ast.specs.Block.{statements_of, with_statement};
ghost use Rattle.nddl_ast.specs.Tree.{Statements};
ghost use Rattle.nddl_rules.specs.Blocks.{ReadsTo, asks_slot, block_names, call_tally, has_long_path, is_long_path, tallied};
ghost use Rattle.nddl_rules.specs.Tally.{local_more, slot_more, turn_more};
ghost use Rattle.nddl_rules.specs.Reads.{asked_read, exprs_read, local_read, sources_of};
ghost use Rattle.nddl_rules.specs.Sight.{SeesFurther, with_label, with_rule_local, with_turn};

use crate::reads::{
    push_asked_read, push_condition_read, push_exprs_read, push_local_read, push_scope_read,
};
use crate::{NameSources, Sight, Tally};
use eu_name::sequence::Sequence;
use nddl_ast::expression::Expr;
use nddl_ast::name::Name;
use nddl_ast::statement::{Ask, Call, Stmt, StmtBlock, Variable};
use nddl_rule_check::words::relation_named;
use nddl_terms::ReadName;
use std::alloc::AllocError;

/// Puts the names that are read in the statements of a block at the end, where these are seen and so many turns, locals
/// and slots stand before. Counts on to what stands behind.
#[tactic(auto, using(crate::proofs::Seeing::forgotten))]
#[cycle(naming)]
pub fn push_block_names(
    sources: &NameSources<'_>,
    block: &StmtBlock,
    sight: &mut Sight,
    tally: &mut Tally,
    names: &mut Sequence<ReadName>,
) -> Result<(), AllocError>
    ensures names { OnOk result (names.new
        ≡ names.old ++ block_names (sources_of sources.now) sight.old tally.old block.now.statements) }
    ensures tally { OnOk result (tally.new ≡ tallied tally.old block.now.statements) }
    ensures seen { OnOk result (sight.new ≡ sight.old) }
{
    let until = sight.until();
    push_stmts_names(sources, block.stmts.as_slice(), sight, tally, names)?;
    sight.forget(until)?;
    Ok(())
}

/// Puts the names of the statements at the end. What is declared there stays in sight.
#[cycle(naming)]
pub fn push_stmts_names(
    sources: &NameSources<'_>,
    stmts: &[Stmt],
    sight: &mut Sight,
    tally: &mut Tally,
    names: &mut Sequence<ReadName>,
) -> Result<(), AllocError>
    ensures names { OnOk result (names.new
        ≡ names.old ++ block_names (sources_of sources.now) sight.old tally.old (statements_of stmts.now)) }
    ensures tally { OnOk result (tally.new ≡ tallied tally.old (statements_of stmts.now)) }
    ensures seen { OnOk result (SeesFurther sight.old sight.new) }
{
    for stmt in stmts {
        push_stmt_names(sources, stmt, sight, tally, names)?;
    }
    Ok(())
}

// Puts the names of the statement at the end, and counts what it declares for those behind it.
#[cycle(naming)]
fn push_stmt_names(
    sources: &NameSources<'_>,
    stmt: &Stmt,
    sight: &mut Sight,
    tally: &mut Tally,
    names: &mut Sequence<ReadName>,
) -> Result<(), AllocError>
    ensures { OnOk result ((more : Statements) → ReadsTo (sources_of sources.now) sight.old sight.new tally.old tally.new
        names.old names.new (with_statement stmt.now more) more) }
{
    match stmt {
        Stmt::Variable(variable) => push_local_names(sources, variable, sight, tally, names),
        Stmt::Call(call) => push_call_names(sources, call, &*sight, tally, names),
        Stmt::Ask(ask) => push_ask_names(sources, ask, sight, tally, names),
        Stmt::If {
            condition,
            then,
            otherwise,
            ..
        } => {
            push_condition_read(sources, &*sight, condition, names)?;
            push_block_names(sources, then, sight, tally, names)?;
            push_otherwise_names(sources, otherwise, sight, tally, names)
        }
        Stmt::Foreach {
            variable,
            class,
            body,
            ..
        } => {
            push_scope_read(sources.scope, class, names)?;
            push_turns_names(sources, variable, body, sight, tally, names)
        }
    }
}

#[cycle(naming)]
fn push_otherwise_names(
    sources: &NameSources<'_>,
    otherwise: &Option<StmtBlock>,
    sight: &mut Sight,
    tally: &mut Tally,
    names: &mut Sequence<ReadName>,
) -> Result<(), AllocError>
    ensures names { OnOk result (names.new ≡ names.old
        ++ option_map_or (λ block. block_names (sources_of sources.now) sight.old tally.old block.statements) otherwise.now []) }
    ensures tally { OnOk result (tally.new ≡ option_map_or (λ block. tallied tally.old block.statements) otherwise.now tally.old) }
    ensures seen { OnOk result (sight.new ≡ sight.old) }
{
    match otherwise {
        Some(block) => push_block_names(sources, block, sight, tally, names),
        None => Ok(()),
    }
}

// Puts the names of the block of a `foreach` at the end. Its variable is seen there alone.
#[tactic(auto, using(crate::proofs::Steps::turn_names, crate::proofs::Steps::turn_tally, crate::proofs::Steps::turn_forgotten))]
#[cycle(naming)]
fn push_turns_names(
    sources: &NameSources<'_>,
    variable: &Name,
    body: &StmtBlock,
    sight: &mut Sight,
    tally: &mut Tally,
    names: &mut Sequence<ReadName>,
) -> Result<(), AllocError>
    ensures names { OnOk result (names.new ≡ names.old
        ++ block_names (sources_of sources.now) (with_turn sight.old variable.now.text tally.old.turns)
        (turn_more tally.old) body.now.statements) }
    ensures tally { OnOk result (tally.new ≡ tallied (turn_more tally.old) body.now.statements) }
    ensures seen { OnOk result (sight.new ≡ sight.old) }
{
    let until = sight.until();
    sight.see_turn(&variable.text, tally.turns)?;
    *tally = tally.turn_more()?;
    push_block_names(sources, body, sight, tally, names)?;
    sight.forget(until)?;
    Ok(())
}

// Puts the names of a local at the end, which is seen from here on.
fn push_local_names(
    sources: &NameSources<'_>,
    variable: &Variable,
    sight: &mut Sight,
    tally: &mut Tally,
    names: &mut Sequence<ReadName>,
) -> Result<(), AllocError>
    ensures names { OnOk result (names.new
        ≡ names.old ++ local_read (sources_of sources.now) sight.old variable.now) }
    ensures tally { OnOk result (tally.new ≡ local_more tally.old) }
    ensures seen { OnOk result (sight.new ≡ with_rule_local sight.old variable.now.name.text tally.old.locals) }
{
    push_local_read(sources, &*sight, variable, names)?;
    sight.see_local(&variable.name.text, tally.locals)?;
    *tally = tally.local_more()?;
    Ok(())
}

// Puts the names of a constraint or a relation at the end, and counts the slot that it asks for without a label.
fn push_call_names(
    sources: &NameSources<'_>,
    call: &Call,
    sight: &Sight,
    tally: &mut Tally,
    names: &mut Sequence<ReadName>,
) -> Result<(), AllocError>
    ensures names { OnOk result (names.new
        ≡ names.old ++ exprs_read (sources_of sources.now) sight.now call.now.arguments) }
    ensures tally { OnOk result (tally.new ≡ call_tally tally.old call.now) }
{
    push_exprs_read(sources, sight, call.arguments.as_slice(), names)?;
    if asks_slot(call) {
        *tally = tally.slot_more()?;
    }
    Ok(())
}

// Whether the call is a relation with a token that gets no label.
fn asks_slot(call: &Call) -> bool
    ensures { result ≡ asks_slot call.now }
{
    relation_named(&call.path.first.text).is_some() && has_long_path(call.arguments.as_slice())
}

fn has_long_path(exprs: &[Expr]) -> bool
    ensures { result ≡ has_long_path exprs.now }
{
    for expr in exprs {
        if is_long_path(expr) {
            return true;
        }
    }
    false
}

// Whether the argument is a path of several names.
fn is_long_path(expr: &Expr) -> bool
    ensures { result ≡ is_long_path expr.now }
{
    match expr {
        Expr::Path(path) => !path.rest.is_empty(),
        Expr::Literal(_) => false,
    }
}

// Puts the names of a slot with a label at the end, which is seen from here on.
fn push_ask_names(
    sources: &NameSources<'_>,
    ask: &Ask,
    sight: &mut Sight,
    tally: &mut Tally,
    names: &mut Sequence<ReadName>,
) -> Result<(), AllocError>
    ensures names { OnOk result (names.new
        ≡ names.old ++ asked_read (sources_of sources.now) sight.old ask.now.path.first ask.now.path.rest) }
    ensures tally { OnOk result (tally.new ≡ slot_more tally.old) }
    ensures seen { OnOk result (sight.new ≡ with_label sight.old ask.now.label.text tally.old.slots) }
{
    push_asked_read(sources, &*sight, &ask.path, names)?;
    sight.see_label(&ask.label.text, tally.slots)?;
    *tally = tally.slot_more()?;
    Ok(())
}
