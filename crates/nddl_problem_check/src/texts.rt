//! The text of a problem, one declaration after another.

ghost use Rattle.std.specs.Prelude.{◌≡◌, OnOk, map};
ghost use Rattle.nddl_symbols.specs.Finding.{earliest_fault};
ghost use Rattle.nddl_hierarchy.specs.Facts.{facts_of};
ghost use Rattle.nddl_rule_check.specs.Calls.{constraint_call_faults};
ghost use Rattle.nddl_problem_check.specs.Acts.{nothing_around};
ghost use Rattle.nddl_problem_check.specs.Texts.{begun_faults, lone_call_faults, problem_call_faults, problem_decl_faults, problem_faults_from, problem_text_faults};

use super::acts::WrittenAct;
use super::decisions::{note_act, note_none_taken};
use super::owners::nothing_around;
use super::posted::note_posting;
use nddl_ast::declaration::Decl;
use nddl_ast::expression::{Expr, Init};
use nddl_ast::name::Name;
use nddl_ast::statement::{Call, Variable};
use nddl_ast::{TextKind, front, last};
use nddl_constructors::constants::note_value;
use nddl_hierarchy::{Basis, Spot};
use nddl_rule_check::{constraint_named, note_constraint};
use nddl_symbols::{Fault, note_at};
use nddl_typeexpr::base::base_kind;
use std::alloc::{AllocError, Global};

/// Notes all that is wrong with the text of the problem.
pub fn note_problem_texts(
    alloc: Global,
    basis: &Basis<'_>,
    first: &mut Option<Fault>,
) -> Result<(), AllocError>
    ensures { OnOk result (first.new ≡ earliest_fault first.old (problem_text_faults (facts_of basis.now))) }
{
    note_texts(alloc, basis, basis.decls, first)
}

// Notes the same of each of the declarations.
#[tactic(auto, using(nddl_symbols::proofs::Earliest::earliest_append))]
fn note_texts(
    alloc: Global,
    basis: &Basis<'_>,
    decls: &[&Decl],
    first: &mut Option<Fault>,
) -> Result<(), AllocError>
    ensures { OnOk result (first.new ≡ earliest_fault first.old
        (problem_faults_from (facts_of basis.now) 0 (map (λ decl. decl.now) decls.now))) }
{
    for (number, decl) in decls.iter().enumerate() {
        note_decl(alloc, basis, number, *decl, first)?;
    }
    Ok(())
}

// Notes the same of the declaration of this number.
fn note_decl(
    alloc: Global,
    basis: &Basis<'_>,
    number: usize,
    decl: &Decl,
    first: &mut Option<Fault>,
) -> Result<(), AllocError>
    ensures { OnOk result (first.new ≡ earliest_fault first.old
        (problem_decl_faults (facts_of basis.now) number decl.now)) }
{
    match decl {
        Decl::Variable(variable) => note_begun(alloc, basis, number, variable, first),
        Decl::Call(call) => note_call(alloc, basis, number, call, first),
        Decl::Ask(ask) => note_posting(alloc, basis, number, ask, first),
        _ => Ok(()),
    }
}

// Notes what is wrong with the value with which the variable begins.
fn note_begun(
    alloc: Global,
    basis: &Basis<'_>,
    decl: usize,
    variable: &Variable,
    first: &mut Option<Fault>,
) -> Result<(), AllocError>
    ensures { OnOk result (first.new ≡ earliest_fault first.old
        (begun_faults (facts_of basis.now) decl variable.now variable.now.init)) }
{
    match &variable.init {
        Some(Init::Expr(expr)) => {
            let kind = base_kind(&basis.types, &variable.declared.base);
            note_value(alloc, basis, &nothing_around(), decl, kind, expr, first)
        }
        _ => Ok(()),
    }
}

// Notes what is wrong with a call: with an act, or with what has one name.
fn note_call(
    alloc: Global,
    basis: &Basis<'_>,
    decl: usize,
    call: &Call,
    first: &mut Option<Fault>,
) -> Result<(), AllocError>
    ensures { OnOk result (first.new ≡ earliest_fault first.old
        (problem_call_faults (facts_of basis.now) decl call.now)) }
{
    let name = &call.path.first;
    let exprs = call.arguments.as_slice();
    match front(&call.path) {
        Some(names) => {
            let act = last(&call.path);
            let written = WrittenAct {
                name,
                names,
                act,
                exprs,
            };
            note_act(alloc, basis, decl, &written, first)
        }
        None => note_lone_call(alloc, basis, decl, name, exprs, first),
    }
}

// Notes what is wrong with a call of one name.
fn note_lone_call(
    alloc: Global,
    basis: &Basis<'_>,
    decl: usize,
    name: &Name,
    exprs: &[Expr],
    first: &mut Option<Fault>,
) -> Result<(), AllocError>
    ensures { OnOk result (first.new ≡ earliest_fault first.old
        (lone_call_faults (facts_of basis.now) decl name.now exprs.now)) }
{
    if name.text.as_str() == "close" {
        note_none_taken(decl, name.at, exprs, first);
        Ok(())
    } else {
        note_constraint_call(alloc, basis, decl, name, exprs, first)
    }
}

// Notes what is wrong with a constraint of this name, or with the name.
fn note_constraint_call(
    alloc: Global,
    basis: &Basis<'_>,
    decl: usize,
    name: &Name,
    exprs: &[Expr],
    first: &mut Option<Fault>,
) -> Result<(), AllocError>
    ensures { OnOk result (first.new ≡ earliest_fault first.old
        (constraint_call_faults (facts_of basis.now) nothing_around decl name.now exprs.now)) }
{
    match constraint_named(&name.text) {
        Some(kind) => {
            let spot = Spot {
                basis: *basis,
                decl,
            };
            let around = nothing_around();
            note_constraint(alloc, &spot, &around, kind, name.at, exprs, first)
        }
        None => {
            note_at(first, decl, name.at, Some(TextKind::Unknown));
            Ok(())
        }
    }
}
