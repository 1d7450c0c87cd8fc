//! What is wrong with arguments where they stand.

ghost use Rattle.std.specs.Prelude.{◌≡◌, None, IfOk, OnOk};
ghost use Rattle.nddl_symbols.specs.Finding.{earliest_fault};
ghost use Rattle.nddl_hierarchy.specs.Facts.{facts_of};
ghost use Rattle.nddl_resolve.specs.Paths.{around_of};
ghost use Rattle.nddl_resolve.specs.Following.{understood_faults};
ghost use Rattle.nddl_rule_check.specs.Arguments.{are_decimals, argument_faults, arguments_faults, asked_by_type, asked_of_both, compared_faults, condition_faults, constraint_faults, init_faults, meant_by};
ghost use Rattle.nddl_rule_check.specs.Constraints.{asked_among};

use super::asked::{Asked, asked_among, is_compared_at, takes};
use super::values::{compared_with, is_decimal, unfit_fault};
use domain_core::kind::Kind;
use nddl_ast::TextKind;
use nddl_ast::expression::{Expr, Init, Type};
use nddl_ast::statement::Condition;
use nddl_hierarchy::{Basis, Spot};
use nddl_resolve::denoted::or_faulty;
use nddl_resolve::{Around, Denoted, PathFault, expr_denoted};
use nddl_symbols::{Fault, note_at};
use nddl_typeexpr::TypeKind;
use nddl_typeexpr::base::base_kind;
use std::alloc::{AllocError, Global};

/// Notes what is wrong with what was to be understood in the declaration of this number.
pub fn note_understood(decl: usize, found: Result<Denoted, PathFault>, first: &mut Option<Fault>)
    ensures { first.new ≡ earliest_fault first.old (understood_faults decl found) }
{
    if let Err(fault) = found {
        note_at(first, decl, fault.at, Some(fault.kind));
    }
}

/// Notes what is wrong with the argument, of which this is asked, where those that are compared before it are of this
/// kind. Answers what it means.
#[tactic(auto, using(nddl_symbols::proofs::Earliest::earliest_append))]
pub fn note_argument(
    alloc: Global,
    spot: &Spot<'_>,
    around: &Around<'_>,
    asks: Asked,
    compared: Option<TypeKind>,
    expr: &Expr,
    first: &mut Option<Fault>,
) -> Result<Denoted, AllocError>
    ensures faults { OnOk result (first.new ≡ earliest_fault first.old
        (argument_faults (facts_of spot.now.basis) (around_of around.now) spot.now.decl asks compared expr.now)) }
    ensures meant { IfOk result (λ meant. meant ≡ meant_by (facts_of spot.now.basis) (around_of around.now) expr.now) }
{
    let found = expr_denoted(alloc, &spot.basis, around, expr)?;
    note_understood(spot.decl, found, first);
    let meant = or_faulty(found);
    let fault = unfit_fault(asks, compared, expr, meant);
    note_at(first, spot.decl, expr.place(), fault);
    Ok(meant)
}

/// Notes what is wrong with the arguments of a constraint whose name stands there.
pub fn note_constraint(
    alloc: Global,
    spot: &Spot<'_>,
    around: &Around<'_>,
    kind: Kind,
    at: u32,
    exprs: &[Expr],
    first: &mut Option<Fault>,
) -> Result<(), AllocError>
    ensures { OnOk result (first.new ≡ earliest_fault first.old
        (constraint_faults (facts_of spot.now.basis) (around_of around.now) spot.now.decl kind at exprs.now)) }
{
    if takes(kind, exprs.len()) {
        note_arguments(alloc, spot, around, kind, exprs, first)
    } else {
        note_at(first, spot.decl, at, Some(TextKind::WrongCount));
        Ok(())
    }
}

// What the argument means for others.
fn meant_by(
    alloc: Global,
    spot: &Spot<'_>,
    around: &Around<'_>,
    expr: &Expr,
) -> Result<Denoted, AllocError>
    ensures { IfOk result (λ meant. meant ≡ meant_by (facts_of spot.now.basis) (around_of around.now) expr.now) }
{
    let found = expr_denoted(alloc, &spot.basis, around, expr)?;
    Ok(or_faulty(found))
}

// Whether one of the arguments is compared and means a value of kind float.
fn are_decimals(
    alloc: Global,
    spot: &Spot<'_>,
    around: &Around<'_>,
    kind: Kind,
    exprs: &[Expr],
) -> Result<bool, AllocError>
    ensures { IfOk result (λ so. so ≡ are_decimals (facts_of spot.now.basis) (around_of around.now) kind 0 exprs.now) }
{
    for (place, expr) in exprs.iter().enumerate() {
        let meant = meant_by(alloc, spot, around, expr)?;
        if is_compared_at(kind, place) && is_decimal(meant) {
            return Ok(true);
        }
    }
    Ok(false)
}

// Notes what is wrong with the arguments.
#[tactic(auto, using(nddl_symbols::proofs::Earliest::earliest_append))]
fn note_arguments(
    alloc: Global,
    spot: &Spot<'_>,
    around: &Around<'_>,
    kind: Kind,
    exprs: &[Expr],
    first: &mut Option<Fault>,
) -> Result<(), AllocError>
    ensures { OnOk result (first.new ≡ earliest_fault first.old
        (arguments_faults (facts_of spot.now.basis) (around_of around.now) spot.now.decl
        (asked_among (are_decimals (facts_of spot.now.basis) (around_of around.now) kind 0 exprs.now) kind) 0 None exprs.now)) }
{
    let decimal = are_decimals(alloc, spot, around, kind, exprs)?;
    let mut compared = None;
    for (place, expr) in exprs.iter().enumerate() {
        let asks = asked_among(decimal, kind, place);
        let meant = note_argument(alloc, spot, around, asks, compared, expr, first)?;
        compared = compared_with(asks, compared, meant);
    }
    Ok(())
}

/// Notes what is wrong with what an `if` tests.
pub fn note_condition(
    alloc: Global,
    spot: &Spot<'_>,
    around: &Around<'_>,
    condition: &Condition,
    first: &mut Option<Fault>,
) -> Result<(), AllocError>
    ensures { OnOk result (first.new ≡ earliest_fault first.old
        (condition_faults (facts_of spot.now.basis) (around_of around.now) spot.now.decl condition.now)) }
{
    match condition {
        Condition::Truth(expr) => {
            let asks = Asked::Of(TypeKind::Bool);
            note_argument(alloc, spot, around, asks, None, expr, first)?;
            Ok(())
        }
        Condition::Equal(one, other) | Condition::NotEqual(one, other) => {
            note_compared(alloc, spot, around, one, other, first)
        }
    }
}

// What is asked of two arguments that are compared and mean this.
fn asked_of_both(one: Denoted, other: Denoted) -> Asked
    ensures { result ≡ asked_of_both one other }
{
    if is_decimal(one) || is_decimal(other) {
        Asked::Of(TypeKind::Float)
    } else {
        Asked::Compared
    }
}

// Notes what is wrong with two arguments that are compared.
#[tactic(auto, using(nddl_symbols::proofs::Earliest::earliest_append))]
fn note_compared(
    alloc: Global,
    spot: &Spot<'_>,
    around: &Around<'_>,
    one: &Expr,
    other: &Expr,
    first: &mut Option<Fault>,
) -> Result<(), AllocError>
    ensures { OnOk result (first.new ≡ earliest_fault first.old
        (compared_faults (facts_of spot.now.basis) (around_of around.now) spot.now.decl one.now other.now)) }
{
    let next = meant_by(alloc, spot, around, other)?;
    let asks = asked_of_both(meant_by(alloc, spot, around, one)?, next);
    let meant = note_argument(alloc, spot, around, asks, None, one, first)?;
    let compared = compared_with(asks, None, meant);
    note_argument(alloc, spot, around, asks, compared, other, first)?;
    Ok(())
}

/// Notes what is wrong with what a local variable of this type begins as.
pub fn note_init(
    alloc: Global,
    spot: &Spot<'_>,
    around: &Around<'_>,
    written: &Type,
    init: &Option<Init>,
    first: &mut Option<Fault>,
) -> Result<(), AllocError>
    ensures { OnOk result (first.new ≡ earliest_fault first.old
        (init_faults (facts_of spot.now.basis) (around_of around.now) spot.now.decl written.now init.now)) }
{
    match init {
        None => Ok(()),
        Some(Init::New(creation)) => {
            note_at(first, spot.decl, creation.at, Some(TextKind::WrongType));
            Ok(())
        }
        Some(Init::Expr(expr)) => {
            let asks = asked_by_type(&spot.basis, written);
            note_argument(alloc, spot, around, asks, None, expr, first)?;
            Ok(())
        }
    }
}

// What is asked of what a variable of this type begins as.
fn asked_by_type(basis: &Basis<'_>, written: &Type) -> Asked
    ensures { result ≡ asked_by_type (facts_of basis.now) written.now }
{
    match base_kind(&basis.types, &written.base) {
        Some(kind) => Asked::Of(kind),
        None => Asked::Compared,
    }
}
