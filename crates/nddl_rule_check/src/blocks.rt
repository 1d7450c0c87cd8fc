//! What is wrong with the statements of blocks.

ghost use Rattle.std.specs.Prelude.{◌≡◌, ◌++◌, [], OnOk};
ghost use Rattle.std.specs.Option.{option_map_or};
ghost use Rattle.nddl_ast.specs.Block.{statements_of, with_statement};
ghost use Rattle.nddl_ast.specs.Tree.{Statements};
ghost use Rattle.nddl_symbols.specs.Finding.{earliest_fault};
ghost use Rattle.eu_index.specs.Index.{with_noted};
ghost use Rattle.nddl_hierarchy.specs.Facts.{facts_of};
ghost use Rattle.nddl_rule_check.specs.Blocks.{block_faults, local_faults, local_value, object_unless, slot_faults, slot_value, turn_faults, turn_value};
ghost use Rattle.nddl_rule_check.specs.Seeing.{SeesMore, seeing_label, seeing_local, seeing_turn};

use super::visible::Visible;
use crate::{labelled_slot, note_ask, note_condition, note_init, note_local_type, note_rule_call};
use eu_index::NameIndex;
use nddl_ast::TextKind;
use nddl_ast::name::Name;
use nddl_ast::statement::{Ask, Stmt, StmtBlock, Variable};
use nddl_declarations::class_fault;
use nddl_hierarchy::Spot;
use nddl_resolve::Denoted;
use nddl_resolve::denoted::or_faulty;
use nddl_resolve::fields::type_value;
use nddl_symbols::repeats::note_repeated;
use nddl_symbols::{Fault, Meaning, Scope, note_at};
use nddl_typeexpr::TypeKind;
use std::alloc::{AllocError, Global};

/// Notes what is wrong with the statements of the block.
#[tactic(auto, using(crate::proofs::Seeing::forgotten))]
#[cycle(judging)]
pub fn note_block(
    alloc: Global,
    spot: &Spot<'_>,
    block: &StmtBlock,
    visible: &mut Visible,
    first: &mut Option<Fault>,
) -> Result<(), AllocError>
    ensures faults { OnOk result (first.new ≡ earliest_fault first.old
        (block_faults (facts_of spot.now.basis) spot.now.decl visible.old [] block.now.statements)) }
    ensures seen { OnOk result (visible.new ≡ visible.old) }
{
    let until = visible.until();
    let mut own = NameIndex::new(alloc);
    note_stmts(
        alloc,
        spot,
        block.stmts.as_slice(),
        visible,
        &mut own,
        first,
    )?;
    visible.forget(until)
}

// Notes what is wrong with statements of a block, where those names are declared in it before.
#[cycle(judging)]
fn note_stmts(
    alloc: Global,
    spot: &Spot<'_>,
    stmts: &[Stmt],
    visible: &mut Visible,
    own: &mut NameIndex,
    first: &mut Option<Fault>,
) -> Result<(), AllocError>
    ensures faults { OnOk result (first.new ≡ earliest_fault first.old
        (block_faults (facts_of spot.now.basis) spot.now.decl visible.old own.old (statements_of stmts.now))) }
    ensures seen { OnOk result (SeesMore visible.old visible.new) }
{
    for stmt in stmts {
        note_stmt(alloc, spot, stmt, visible, own, first)?;
    }
    Ok(())
}

// Notes what is wrong with the statement. What is wrong with it and others is then what is wrong with the others.
#[tactic(auto, using(crate::proofs::Steps::asked_on, crate::proofs::Steps::sees_if_same, crate::proofs::Steps::sees_tested, crate::proofs::Steps::sees_declared, crate::proofs::Steps::sees_asked, crate::proofs::Steps::sees_anyway))]
#[cycle(judging)]
fn note_stmt(
    alloc: Global,
    spot: &Spot<'_>,
    stmt: &Stmt,
    visible: &mut Visible,
    own: &mut NameIndex,
    first: &mut Option<Fault>,
) -> Result<(), AllocError>
    ensures faults { OnOk result ((more : Statements)
        → earliest_fault first.new (block_faults (facts_of spot.now.basis) spot.now.decl visible.new own.new more)
        ≡ earliest_fault first.old
        (block_faults (facts_of spot.now.basis) spot.now.decl visible.old own.old (with_statement stmt.now more))) }
    ensures seen { OnOk result (SeesMore visible.old visible.new) }
{
    match stmt {
        Stmt::Variable(variable) => note_local(alloc, spot, variable, visible, own, first),
        Stmt::Call(call) => note_rule_call(alloc, spot, &visible.around(), call, first),
        Stmt::Ask(ask) => note_slot(alloc, spot, ask, visible, own, first),
        Stmt::If {
            condition,
            then,
            otherwise,
            ..
        } => {
            note_condition(alloc, spot, &visible.around(), condition, first)?;
            note_block(alloc, spot, then, visible, first)?;
            note_otherwise(alloc, spot, otherwise, visible, first)
        }
        Stmt::Foreach {
            variable,
            class,
            body,
            ..
        } => note_turns(alloc, spot, variable, class, body, visible, first),
    }
}

#[cycle(judging)]
fn note_otherwise(
    alloc: Global,
    spot: &Spot<'_>,
    otherwise: &Option<StmtBlock>,
    visible: &mut Visible,
    first: &mut Option<Fault>,
) -> Result<(), AllocError>
    ensures faults { OnOk result (first.new ≡ earliest_fault first.old
        (option_map_or (λ block. block_faults (facts_of spot.now.basis) spot.now.decl visible.old [] block.statements)
        otherwise.now [])) }
    ensures seen { OnOk result (visible.new ≡ visible.old) }
{
    match otherwise {
        Some(block) => note_block(alloc, spot, block, visible, first),
        None => Ok(()),
    }
}

// Notes what is wrong with the class of a `foreach`, and with its block.
#[tactic(auto, using(crate::proofs::Steps::turned_step, crate::proofs::Steps::turn_forgotten))]
#[cycle(judging)]
fn note_turns(
    alloc: Global,
    spot: &Spot<'_>,
    variable: &Name,
    class: &Name,
    body: &StmtBlock,
    visible: &mut Visible,
    first: &mut Option<Fault>,
) -> Result<(), AllocError>
    ensures faults { OnOk result (first.new ≡ earliest_fault first.old
        (turn_faults (facts_of spot.now.basis) spot.now.decl class.now
        ++ block_faults (facts_of spot.now.basis) spot.now.decl
        (seeing_turn visible.old variable.now (turn_value (facts_of spot.now.basis) class.now)) []
        body.now.statements)) }
    ensures seen { OnOk result (visible.new ≡ visible.old) }
{
    let until = visible.until();
    let turn = note_class(spot, class, first);
    visible.see_turn(variable, turn)?;
    note_block(alloc, spot, body, visible, first)?;
    visible.forget(until)
}

// Notes what is wrong with the class of a `foreach`. Answers what its variable means.
fn note_class(spot: &Spot<'_>, class: &Name, first: &mut Option<Fault>) -> Denoted
    ensures faults { first.new ≡ earliest_fault first.old
        (turn_faults (facts_of spot.now.basis) spot.now.decl class.now) }
    ensures meant { result ≡ turn_value (facts_of spot.now.basis) class.now }
{
    let meaning = spot.basis.types.scope.meaning(&class.text);
    let kind = class_fault(spot.basis.types.scope, meaning);
    note_at(first, spot.decl, class.at, kind);
    object_unless(meaning, kind.is_some())
}

// An object of this class, if there is nothing wrong with it.
fn object_unless(meaning: Option<Meaning>, is_wrong: bool) -> Denoted
    ensures { result ≡ object_unless meaning is_wrong }
{
    match (meaning, is_wrong) {
        (Some(class), false) => Denoted::Value {
            kind: TypeKind::Object(class),
            constant: true,
        },
        _ => Denoted::Faulty,
    }
}

// Notes what is wrong with a local, which is seen from here on.
#[tactic(auto, using(crate::proofs::Steps::local_step))]
fn note_local(
    alloc: Global,
    spot: &Spot<'_>,
    variable: &Variable,
    visible: &mut Visible,
    own: &mut NameIndex,
    first: &mut Option<Fault>,
) -> Result<(), AllocError>
    ensures faults { OnOk result (first.new ≡ earliest_fault first.old
        (local_faults (facts_of spot.now.basis) visible.old spot.now.decl own.old variable.now)) }
    ensures seen { OnOk result (visible.new
        ≡ seeing_local visible.old variable.now.name (local_value (facts_of spot.now.basis) variable.now)) }
    ensures noted { OnOk result (own.new ≡ with_noted own.old variable.now.name.text 0) }
{
    note_local_type(alloc, spot, &visible.around(), &variable.declared, first)?;
    note_repeated(own, spot.decl, &variable.name, first)?;
    note_init(
        alloc,
        spot,
        &visible.around(),
        &variable.declared,
        &variable.init,
        first,
    )?;
    let meant = type_value(&spot.basis.types, false, &variable.declared);
    visible.see_local(&variable.name, meant)
}

// Notes what is wrong with a slot that gets a label, which is seen from here on.
#[tactic(auto, using(crate::proofs::Steps::slot_step, crate::proofs::Steps::slot_seen))]
fn note_slot(
    alloc: Global,
    spot: &Spot<'_>,
    ask: &Ask,
    visible: &mut Visible,
    own: &mut NameIndex,
    first: &mut Option<Fault>,
) -> Result<(), AllocError>
    ensures faults { OnOk result (first.new ≡ earliest_fault first.old
        (slot_faults (facts_of spot.now.basis) visible.old spot.now.decl own.old ask.now)) }
    ensures seen { OnOk result (visible.new
        ≡ seeing_label visible.old ask.now.label (slot_value (facts_of spot.now.basis) visible.old ask.now)) }
    ensures noted { OnOk result (own.new ≡ with_noted own.old ask.now.label.text 0) }
{
    note_ask(alloc, spot, &visible.around(), ask, first)?;
    note_repeated(own, spot.decl, &ask.label, first)?;
    let found = labelled_slot(alloc, &spot.basis, &visible.around(), &ask.path)?;
    visible.see_label(&ask.label, or_faulty(found))
}
