//! What is wrong with values that have to be constants of some kind.

ghost use Rattle.std.specs.Prelude.{◌≡◌, OnOk};
ghost use Rattle.nddl_symbols.specs.Finding.{earliest_fault};
ghost use Rattle.nddl_hierarchy.specs.Facts.{facts_of};
ghost use Rattle.nddl_resolve.specs.Paths.{around_of};
ghost use Rattle.nddl_constructors.specs.Wanted.{wanted_kinds};
ghost use Rattle.nddl_constructors.specs.Constants.{constant_fault, constant_faults, constants_faults, is_understood, value_faults, wanted_fault};

use super::wanted::Wanted;
use nddl_ast::TextKind;
use nddl_ast::expression::Expr;
use nddl_hierarchy::Basis;
use nddl_resolve::{Around, Denoted, PathFault, expr_denoted, kind_fault};
use nddl_symbols::{Fault, note_at};
use nddl_typeexpr::TypeKind;
use std::alloc::{AllocError, Global};

// What is wrong with a value of this kind, where another may be wanted.
fn wanted_fault(wanted: Option<TypeKind>, expr: &Expr, kind: TypeKind) -> Option<TextKind>
    ensures { result ≡ wanted_fault wanted expr.now kind }
{
    match wanted {
        Some(wanted) => kind_fault(wanted, expr, kind),
        None => None,
    }
}

// What is wrong with a value that means this, where a constant of this kind is wanted.
fn constant_fault(wanted: Option<TypeKind>, expr: &Expr, denoted: Denoted) -> Option<TextKind>
    ensures { result ≡ constant_fault wanted expr.now denoted }
{
    match denoted {
        Denoted::Value { kind, constant } => {
            if constant {
                wanted_fault(wanted, expr, kind)
            } else {
                Some(TextKind::WrongType)
            }
        }
        Denoted::Token(_) => Some(TextKind::WrongType),
        Denoted::Class(_) => Some(TextKind::WrongType),
        Denoted::Faulty => None,
    }
}

/// Whether the value means something, and nothing is wrong with that, where a constant of this kind is wanted.
pub fn is_understood(
    wanted: Option<TypeKind>,
    expr: &Expr,
    found: Result<Denoted, PathFault>,
) -> bool
    ensures { result ≡ is_understood wanted expr.now found }
{
    match found {
        Ok(denoted) => constant_fault(wanted, expr, denoted).is_none(),
        Err(_) => false,
    }
}

// Notes what is wrong with what a value means, or with it by itself.
fn note_understood(
    decl: usize,
    wanted: Option<TypeKind>,
    expr: &Expr,
    found: Result<Denoted, PathFault>,
    first: &mut Option<Fault>,
)
    ensures { first.new ≡ earliest_fault first.old (constant_faults decl wanted expr.now found) }
{
    match found {
        Ok(denoted) => {
            let fault = constant_fault(wanted, expr, denoted);
            note_at(first, decl, expr.place(), fault)
        }
        Err(fault) => note_at(first, decl, fault.at, Some(fault.kind)),
    }
}

/// Notes all that is wrong with an argument, or with what a field is set to.
#[tactic(auto, unfolding(crate::specs::Constants::value_faults))]
pub fn note_value(
    alloc: Global,
    basis: &Basis<'_>,
    around: &Around<'_>,
    decl: usize,
    wanted: Option<TypeKind>,
    expr: &Expr,
    first: &mut Option<Fault>,
) -> Result<(), AllocError>
    ensures { OnOk result (first.new ≡ earliest_fault first.old
        (value_faults (facts_of basis.now) (around_of around.now) decl wanted expr.now)) }
{
    let found = expr_denoted(alloc, basis, around, expr)?;
    note_understood(decl, wanted, expr, found, first);
    Ok(())
}

/// Notes all that is wrong with arguments by themselves, where these are wanted.
#[tactic(auto, using(nddl_symbols::proofs::Earliest::earliest_append))]
pub fn note_arguments(
    alloc: Global,
    basis: &Basis<'_>,
    around: &Around<'_>,
    decl: usize,
    wanted: &Wanted<'_>,
    arguments: &[Expr],
    first: &mut Option<Fault>,
) -> Result<(), AllocError>
    ensures { OnOk result (first.new ≡ earliest_fault first.old
        (constants_faults (facts_of basis.now) (around_of around.now) decl
        (wanted_kinds (facts_of basis.now) wanted.now) 0 arguments.now)) }
{
    for (number, argument) in arguments.iter().enumerate() {
        let kind = wanted.kind(basis, number);
        note_value(alloc, basis, around, decl, kind, argument, first)?;
    }
    Ok(())
}
