//! Decisions and `close` as they are written.

ghost use Rattle.std.specs.Prelude.{◌≡◌, ◌++◌, OnOk};
ghost use Rattle.nddl_symbols.specs.Finding.{earliest_fault};
ghost use Rattle.nddl_hierarchy.specs.Facts.{facts_of};
ghost use Rattle.nddl_rule_check.specs.Calls.{no_act_faults};
ghost use Rattle.nddl_problem_check.specs.Acts.{act_faults, class_kind_fault, closing_faults, decided_faults, file_path_denoted, merged_faults, none_taken_faults, one_act_faults, path_of_act, root_label_faults, specified_faults, specify_faults, variable_kind_fault};

use super::acts::{Act, WrittenAct, act_named};
use super::owners::{file_path_denoted, nothing_around};
use super::roots::{note_root_argument, note_root_label};
use nddl_ast::TextKind;
use nddl_ast::expression::Expr;
use nddl_constructors::constants::note_value;
use nddl_hierarchy::Basis;
use nddl_resolve::denoted::or_faulty;
use nddl_resolve::{Denoted, PathFault};
use nddl_rule_check::values::kind_of_value;
use nddl_symbols::{Fault, note_at};
use nddl_typeexpr::TypeKind;
use std::alloc::{AllocError, Global};

// What is wrong with what has to be a variable.
fn variable_kind_fault(meant: Denoted) -> Option<TextKind>
    ensures { result ≡ variable_kind_fault meant }
{
    match meant {
        Denoted::Value { constant: true, .. } => Some(TextKind::WrongType),
        Denoted::Value {
            constant: false,
            ..
        } => None,
        Denoted::Token(_) | Denoted::Class(_) => Some(TextKind::WrongType),
        Denoted::Faulty => None,
    }
}

// What is wrong with what has to be a class.
fn class_kind_fault(meant: Denoted) -> Option<TextKind>
    ensures { result ≡ class_kind_fault meant }
{
    match meant {
        Denoted::Class(_) | Denoted::Faulty => None,
        Denoted::Value { .. } | Denoted::Token(_) => Some(TextKind::WrongType),
    }
}

// Notes what is wrong with what has to be a variable, in a path that begins there.
fn note_specified(
    decl: usize,
    at: u32,
    found: Result<Denoted, PathFault>,
    first: &mut Option<Fault>,
)
    ensures { first.new ≡ earliest_fault first.old (specified_faults decl at found) }
{
    match found {
        Ok(meant) => note_at(first, decl, at, variable_kind_fault(meant)),
        Err(fault) => note_at(first, decl, fault.at, Some(fault.kind)),
    }
}

// Notes what is wrong with what has to be a class, in a path that begins there.
fn note_closing(decl: usize, at: u32, found: Result<Denoted, PathFault>, first: &mut Option<Fault>)
    ensures { first.new ≡ earliest_fault first.old (closing_faults decl at found) }
{
    match found {
        Ok(meant) => note_at(first, decl, at, class_kind_fault(meant)),
        Err(fault) => note_at(first, decl, fault.at, Some(fault.kind)),
    }
}

/// Notes what is wrong with the arguments of what has none, whose name stands there.
pub fn note_none_taken(decl: usize, at: u32, exprs: &[Expr], first: &mut Option<Fault>)
    ensures { first.new ≡ earliest_fault first.old (none_taken_faults decl at exprs.now) }
{
    if !exprs.is_empty() {
        note_at(first, decl, at, Some(TextKind::WrongCount));
    }
}

// Notes what is wrong with the value of which a variable of this kind is decided.
fn note_decided(
    alloc: Global,
    basis: &Basis<'_>,
    decl: usize,
    at: u32,
    kind: Option<TypeKind>,
    exprs: &[Expr],
    first: &mut Option<Fault>,
) -> Result<(), AllocError>
    ensures { OnOk result (first.new ≡ earliest_fault first.old
        (decided_faults (facts_of basis.now) decl at kind exprs.now)) }
{
    match exprs {
        [expr] => note_value(alloc, basis, &nothing_around(), decl, kind, expr, first),
        _ => {
            note_at(first, decl, at, Some(TextKind::WrongCount));
            Ok(())
        }
    }
}

// Notes what is wrong with the token into which another is merged.
fn note_merged(
    alloc: Global,
    basis: &Basis<'_>,
    decl: usize,
    at: u32,
    exprs: &[Expr],
    first: &mut Option<Fault>,
) -> Result<(), AllocError>
    ensures { OnOk result (first.new ≡ earliest_fault first.old
        (merged_faults (facts_of basis.now) decl at exprs.now)) }
{
    match exprs {
        [expr] => note_root_argument(alloc, basis, decl, expr, first),
        _ => {
            note_at(first, decl, at, Some(TextKind::WrongCount));
            Ok(())
        }
    }
}

// Notes what is wrong with a `specify`.
#[tactic(auto, using(nddl_symbols::proofs::Earliest::earliest_append))]
fn note_specify(
    alloc: Global,
    basis: &Basis<'_>,
    decl: usize,
    written: &WrittenAct<'_>,
    first: &mut Option<Fault>,
) -> Result<(), AllocError>
    ensures { OnOk result (first.new ≡ earliest_fault first.old
        (specify_faults (facts_of basis.now) decl (path_of_act written.now) written.now.act.now written.now.exprs.now)) }
{
    let found = file_path_denoted(alloc, basis, written.name, written.names)?;
    note_specified(decl, written.name.at, found, first);
    let kind = kind_of_value(or_faulty(found));
    note_decided(
        alloc,
        basis,
        decl,
        written.act.at,
        kind,
        written.exprs,
        first,
    )
}

// Notes what is wrong with an act without arguments on the token whose label stands before it.
#[tactic(auto, using(nddl_symbols::proofs::Earliest::earliest_append))]
fn note_bare_act(
    alloc: Global,
    basis: &Basis<'_>,
    decl: usize,
    written: &WrittenAct<'_>,
    first: &mut Option<Fault>,
) -> Result<(), AllocError>
    ensures { OnOk result (first.new ≡ earliest_fault first.old
        (root_label_faults (facts_of basis.now) decl (path_of_act written.now)
        ++ none_taken_faults decl written.now.act.now.at written.now.exprs.now)) }
{
    note_root_label(alloc, basis, decl, written.name, written.names, first)?;
    note_none_taken(decl, written.act.at, written.exprs, first);
    Ok(())
}

// Notes what is wrong with a `merge`.
#[tactic(auto, using(nddl_symbols::proofs::Earliest::earliest_append))]
fn note_merge(
    alloc: Global,
    basis: &Basis<'_>,
    decl: usize,
    written: &WrittenAct<'_>,
    first: &mut Option<Fault>,
) -> Result<(), AllocError>
    ensures { OnOk result (first.new ≡ earliest_fault first.old
        (root_label_faults (facts_of basis.now) decl (path_of_act written.now)
        ++ merged_faults (facts_of basis.now) decl written.now.act.now.at written.now.exprs.now)) }
{
    note_root_label(alloc, basis, decl, written.name, written.names, first)?;
    note_merged(alloc, basis, decl, written.act.at, written.exprs, first)
}

// Notes what is wrong with a `close`.
#[tactic(auto, using(nddl_symbols::proofs::Earliest::earliest_append))]
fn note_close(
    alloc: Global,
    basis: &Basis<'_>,
    decl: usize,
    written: &WrittenAct<'_>,
    first: &mut Option<Fault>,
) -> Result<(), AllocError>
    ensures { OnOk result (first.new ≡ earliest_fault first.old
        (closing_faults decl written.now.name.now.at (file_path_denoted (facts_of basis.now) (path_of_act written.now))
        ++ none_taken_faults decl written.now.act.now.at written.now.exprs.now)) }
{
    let found = file_path_denoted(alloc, basis, written.name, written.names)?;
    note_closing(decl, written.name.at, found, first);
    note_none_taken(decl, written.act.at, written.exprs, first);
    Ok(())
}

// Notes what is wrong with the act, which is this one.
fn note_one_act(
    alloc: Global,
    basis: &Basis<'_>,
    decl: usize,
    written: &WrittenAct<'_>,
    done: Act,
    first: &mut Option<Fault>,
) -> Result<(), AllocError>
    ensures { OnOk result (first.new ≡ earliest_fault first.old
        (one_act_faults (facts_of basis.now) decl (path_of_act written.now) written.now.act.now written.now.exprs.now
        done)) }
{
    match done {
        Act::Specify => note_specify(alloc, basis, decl, written, first),
        Act::Activate => note_bare_act(alloc, basis, decl, written, first),
        Act::Reject => note_bare_act(alloc, basis, decl, written, first),
        Act::Merge => note_merge(alloc, basis, decl, written, first),
        Act::Close => note_close(alloc, basis, decl, written, first),
    }
}

// Notes what is wrong with the path before an act that isn't there, or else with its name.
fn note_no_act(
    alloc: Global,
    basis: &Basis<'_>,
    decl: usize,
    written: &WrittenAct<'_>,
    first: &mut Option<Fault>,
) -> Result<(), AllocError>
    ensures { OnOk result (first.new ≡ earliest_fault first.old
        (no_act_faults decl written.now.act.now
        (file_path_denoted (facts_of basis.now) (path_of_act written.now)))) }
{
    match file_path_denoted(alloc, basis, written.name, written.names)? {
        Ok(_) => note_at(first, decl, written.act.at, Some(TextKind::Unknown)),
        Err(fault) => note_at(first, decl, fault.at, Some(fault.kind)),
    }
    Ok(())
}

/// Notes what is wrong with the act.
pub fn note_act(
    alloc: Global,
    basis: &Basis<'_>,
    decl: usize,
    written: &WrittenAct<'_>,
    first: &mut Option<Fault>,
) -> Result<(), AllocError>
    ensures { OnOk result (first.new ≡ earliest_fault first.old
        (act_faults (facts_of basis.now) decl (path_of_act written.now) written.now.act.now written.now.exprs.now)) }
{
    match act_named(&written.act.text) {
        Some(done) => note_one_act(alloc, basis, decl, written, done, first),
        None => note_no_act(alloc, basis, decl, written, first),
    }
}
