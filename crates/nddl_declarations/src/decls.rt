//! What is wrong with declarations.

ghost use Rattle.std.specs.Prelude.{◌≡◌, OnOk, map};
ghost use Rattle.nddl_ast.specs.declared.declaration.Decl.TheVariants as variants;
ghost use Rattle.nddl_symbols.specs.Finding.{earliest_fault};
ghost use Rattle.nddl_hierarchy.specs.Facts.{facts_of};
ghost use Rattle.nddl_declarations.specs.Faults.{decl_faults, decls_faults};

use crate::{note_all_type_faults, note_class};
use nddl_ast::TextKind;
use nddl_ast::declaration::Decl;
use nddl_ast::statement::Variable;
use nddl_hierarchy::Basis;
use nddl_symbols::declared::variable_sort;
use nddl_symbols::{Fault, kind_if, note_at};
use std::alloc::{AllocError, Global};

/// Notes what is wrong with each of the declarations.
#[tactic(auto, using(nddl_symbols::proofs::Earliest::earliest_append))]
pub fn note_decls(
    alloc: Global,
    basis: &Basis<'_>,
    decls: &[&Decl],
    first: &mut Option<Fault>,
) -> Result<(), AllocError>
    ensures { OnOk result (first.new ≡ earliest_fault first.old
        (decls_faults (facts_of basis.now) 0 (map (λ decl. decl.now) decls.now))) }
{
    for (number, decl) in decls.iter().enumerate() {
        note_decl(alloc, basis, number, *decl, first)?;
    }
    Ok(())
}

// Notes what is wrong with the declaration of this number.
fn note_decl(
    alloc: Global,
    basis: &Basis<'_>,
    number: usize,
    decl: &Decl,
    first: &mut Option<Fault>,
) -> Result<(), AllocError>
    ensures { OnOk result (first.new ≡ earliest_fault first.old (decl_faults (facts_of basis.now) number decl.now)) }
{
    match decl {
        Decl::Enum {
            members_at,
            members,
            ..
        } => {
            let is_long = members.len() > 4096;
            note_at(
                first,
                number,
                *members_at,
                kind_if(is_long, TextKind::LimitMembers),
            );
            Ok(())
        }
        Decl::Typedef { declared, .. } => note_all_type_faults(
            alloc, basis, number, declared, first,
        ),
        Decl::Class {
            name,
            parent,
            members,
            ..
        } => note_class(
            alloc,
            basis,
            number,
            name,
            parent,
            members.as_slice(),
            first,
        ),
        Decl::Variable(variable) => note_variable(alloc, basis, number, variable, first),
        _ => Ok(()),
    }
}

// Notes what is wrong with the type of the variable, unless it is the settings of a search.
fn note_variable(
    alloc: Global,
    basis: &Basis<'_>,
    number: usize,
    variable: &Variable,
    first: &mut Option<Fault>,
) -> Result<(), AllocError>
    ensures { OnOk result (first.new ≡ earliest_fault first.old
        (decl_faults (facts_of basis.now) number (variants.Variable variable.now))) }
{
    if variable_sort(variable).is_config() {
        Ok(())
    } else {
        note_all_type_faults(alloc, basis, number, &variable.declared, first)
    }
}
