//! Paths that have to be labels of posted tokens.

ghost use Rattle.std.specs.Prelude.{◌≡◌, OnOk};
ghost use Rattle.nddl_symbols.specs.Finding.{earliest_fault};
ghost use Rattle.nddl_hierarchy.specs.Facts.{facts_of};
ghost use Rattle.nddl_rule_check.specs.Slots.{unwanted_faults};
ghost use Rattle.nddl_problem_check.specs.Acts.{is_alone_label, root_argument_faults, root_label_faults};

use super::owners::{file_path_denoted, is_label_meaning};
use nddl_ast::TextKind;
use nddl_ast::expression::Expr;
use nddl_ast::name::Name;
use nddl_hierarchy::Basis;
use nddl_resolve::{Denoted, PathFault};
use nddl_symbols::{Fault, Scope, note_at};
use std::alloc::{AllocError, Global};

// Notes what is wrong with what isn't wanted where it stands.
fn note_unwanted(decl: usize, at: u32, found: Result<Denoted, PathFault>, first: &mut Option<Fault>)
    ensures { first.new ≡ earliest_fault first.old (unwanted_faults decl at found) }
{
    match found {
        Ok(_) => note_at(first, decl, at, Some(TextKind::WrongType)),
        Err(fault) => note_at(first, decl, fault.at, Some(fault.kind)),
    }
}

// Whether the path of these names is the label of a posted token.
fn is_alone_label(scope: &Scope, first: &Name, names: &[Name]) -> bool
    ensures { result ≡ is_alone_label scope.now (record { first = first.now; rest = names.now }) names.now }
{
    match names {
        [] => is_label_meaning(scope, scope.meaning(&first.text)),
        _ => false,
    }
}

/// Notes what is wrong with the path of these names, which has to be the label of a posted token.
pub fn note_root_label(
    alloc: Global,
    basis: &Basis<'_>,
    decl: usize,
    name: &Name,
    names: &[Name],
    first: &mut Option<Fault>,
) -> Result<(), AllocError>
    ensures { OnOk result (first.new ≡ earliest_fault first.old
        (root_label_faults (facts_of basis.now) decl (record { first = name.now; rest = names.now }))) }
{
    if !is_alone_label(basis.types.scope, name, names) {
        let found = file_path_denoted(alloc, basis, name, names)?;
        note_unwanted(decl, name.at, found, first);
    }
    Ok(())
}

/// Notes what is wrong with an argument that has to be such a label.
pub fn note_root_argument(
    alloc: Global,
    basis: &Basis<'_>,
    decl: usize,
    expr: &Expr,
    first: &mut Option<Fault>,
) -> Result<(), AllocError>
    ensures { OnOk result (first.new ≡ earliest_fault first.old
        (root_argument_faults (facts_of basis.now) decl expr.now)) }
{
    match expr {
        Expr::Path(path) => note_root_label(
            alloc,
            basis,
            decl,
            &path.first,
            path.rest.as_slice(),
            first,
        ),
        Expr::Literal(literal) => {
            note_at(first, decl, literal.at, Some(TextKind::WrongType));
            Ok(())
        }
    }
}
