//! Constraints and relations as they are written in rules and in predicates.

ghost use Rattle.std.specs.Prelude.{◌≡◌, IfOk, OnOk};
ghost use Rattle.nddl_symbols.specs.Finding.{earliest_fault};
ghost use Rattle.nddl_hierarchy.specs.Facts.{facts_of};
ghost use Rattle.nddl_resolve.specs.Paths.{around_of, path_denoted};
ghost use Rattle.nddl_rule_check.specs.Calls.{body_call_faults, constraint_call_faults, named_call_faults, no_act_faults, rule_call_faults};

use super::arguments::note_constraint;
use super::slots::note_relation;
use super::words::{constraint_named, relation_named};
use eu_name::sequence::Sequence;
use nddl_ast::expression::Expr;
use nddl_ast::name::{Name, Path};
use nddl_ast::statement::Call;
use nddl_ast::{TextKind, front, last};
use nddl_hierarchy::Spot;
use nddl_resolve::{Around, Denoted, PathFault, path_denoted};
use nddl_symbols::{Fault, note_at};
use std::alloc::{AllocError, Global};

/// Notes what is wrong with a call in a rule: a constraint or a relation.
pub fn note_rule_call(
    alloc: Global,
    spot: &Spot<'_>,
    around: &Around<'_>,
    call: &Call,
    first: &mut Option<Fault>,
) -> Result<(), AllocError>
    ensures { OnOk result (first.new ≡ earliest_fault first.old
        (rule_call_faults (facts_of spot.now.basis) (around_of around.now) spot.now.decl call.now)) }
{
    let name = &call.path.first;
    match front(&call.path) {
        Some(names) => note_act(alloc, spot, around, name, names, last(&call.path), first),
        None => note_named(alloc, spot, around, name, call.arguments.as_slice(), first),
    }
}

/// Notes what is wrong with a call in the body of a predicate, which has no relations.
pub fn note_body_call(
    alloc: Global,
    spot: &Spot<'_>,
    around: &Around<'_>,
    call: &Call,
    first: &mut Option<Fault>,
) -> Result<(), AllocError>
    ensures { OnOk result (first.new ≡ earliest_fault first.old
        (body_call_faults (facts_of spot.now.basis) (around_of around.now) spot.now.decl call.now)) }
{
    let name = &call.path.first;
    match front(&call.path) {
        Some(names) => note_act(alloc, spot, around, name, names, last(&call.path), first),
        None => note_constraint_call(alloc, spot, around, name, call.arguments.as_slice(), first),
    }
}

// Notes what is wrong with a call of this name in a rule.
fn note_named(
    alloc: Global,
    spot: &Spot<'_>,
    around: &Around<'_>,
    name: &Name,
    exprs: &[Expr],
    first: &mut Option<Fault>,
) -> Result<(), AllocError>
    ensures { OnOk result (first.new ≡ earliest_fault first.old
        (named_call_faults (facts_of spot.now.basis) (around_of around.now) spot.now.decl name.now exprs.now)) }
{
    match relation_named(&name.text) {
        Some(_) => note_relation(alloc, spot, around, name.at, exprs, first),
        None => note_constraint_call(alloc, spot, around, name, exprs, first),
    }
}

// Notes what is wrong with a constraint of this name, or with the name.
fn note_constraint_call(
    alloc: Global,
    spot: &Spot<'_>,
    around: &Around<'_>,
    name: &Name,
    exprs: &[Expr],
    first: &mut Option<Fault>,
) -> Result<(), AllocError>
    ensures { OnOk result (first.new ≡ earliest_fault first.old
        (constraint_call_faults (facts_of spot.now.basis) (around_of around.now) spot.now.decl name.now exprs.now)) }
{
    match constraint_named(&name.text) {
        Some(kind) => note_constraint(alloc, spot, around, kind, name.at, exprs, first),
        None => {
            note_at(first, spot.decl, name.at, Some(TextKind::Unknown));
            Ok(())
        }
    }
}

// Notes what is wrong with an act behind these names.
fn note_act(
    alloc: Global,
    spot: &Spot<'_>,
    around: &Around<'_>,
    name: &Name,
    names: &[Name],
    act: &Name,
    first: &mut Option<Fault>,
) -> Result<(), AllocError>
    ensures { OnOk result (first.new ≡ earliest_fault first.old
        (no_act_faults spot.now.decl act.now
        (path_denoted (facts_of spot.now.basis) (around_of around.now)
        (record { first = name.now; rest = names.now })))) }
{
    let front = path_of(alloc, name, names)?;
    let found = path_denoted(alloc, &spot.basis, around, &front)?;
    note_no_act(spot.decl, act, found, first);
    Ok(())
}

// Notes what is wrong behind what stands before an act.
fn note_no_act(
    decl: usize,
    act: &Name,
    found: Result<Denoted, PathFault>,
    first: &mut Option<Fault>,
)
    ensures { first.new ≡ earliest_fault first.old (no_act_faults decl act.now found) }
{
    match found {
        Ok(_) => note_at(first, decl, act.at, Some(TextKind::Unknown)),
        Err(fault) => note_at(first, decl, fault.at, Some(fault.kind)),
    }
}

// The path of these names.
fn path_of(alloc: Global, first: &Name, names: &[Name]) -> Result<Path, AllocError>
    ensures { IfOk result (λ path. path ≡ record { first = first.now; rest = names.now }) }
{
    let rest = copies(alloc, names)?;
    Ok(Path {
        first: first.copy()?,
        rest,
    })
}

fn copies(alloc: Global, names: &[Name]) -> Result<Sequence<Name>, AllocError>
    ensures { IfOk result (λ copies. copies ≡ names.now) }
{
    let mut copies = Sequence::new(alloc);
    for name in names {
        copies.push(name.copy()?)?;
    }
    Ok(copies)
}
