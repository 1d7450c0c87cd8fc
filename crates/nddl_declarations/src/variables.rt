//! The variables that are declared with types.

ghost use Rattle.std.specs.Prelude.{◌≡◌, ◌++◌, ◌∷◌, [], IfOk, OnOk};
ghost use Rattle.nddl_hierarchy.specs.Facts.{facts_of};
ghost use Rattle.nddl_declarations.specs.Declares.{number_variable, declared_variable, variable_with, variables_of};

use super::domains::{base_of, range, value_kind};
use crate::fine_meaning;
use eu_name::sequence::Sequence;
use eu_name::text::Text;
use model_core::class::Enum;
use model_core::variable::{Base, ValueKind, VarDecl};
use nddl_ast::declaration::Typed;
use nddl_hierarchy::Basis;
use nddl_typeexpr::TypeMeaning;
use std::alloc::{AllocError, Global};

// The variable that is declared, if nothing is wrong with its type.
fn declared_variable(
    alloc: Global,
    basis: &Basis<'_>,
    enums: &[Enum],
    typed: &Typed,
) -> Result<Option<VarDecl>, AllocError>
    ensures { IfOk result (λ variable. variable ≡ declared_variable (facts_of basis.now) enums.now typed.now) }
{
    match fine_meaning(alloc, basis, &typed.declared)? {
        Some(meaning) => Ok(Some(variable_with(alloc, basis, enums, typed, &meaning)?)),
        None => Ok(None),
    }
}

// The variable of a name and of a type that means this.
fn variable_with(
    alloc: Global,
    basis: &Basis<'_>,
    enums: &[Enum],
    typed: &Typed,
    meaning: &TypeMeaning,
) -> Result<VarDecl, AllocError>
    ensures { IfOk result (λ variable. variable ≡ variable_with (facts_of basis.now) enums.now typed.now meaning.now) }
{
    let name = typed.name.text.copy()?;
    let base = base_of(
        alloc,
        basis.types.scope,
        enums,
        meaning.kind,
        &meaning.extent,
    )?;
    Ok(VarDecl {
        name,
        kind: value_kind(meaning.kind),
        base,
    })
}

/// Puts the variable that is declared behind the others, if nothing is wrong with its type.
pub fn push_variable(
    alloc: Global,
    basis: &Basis<'_>,
    enums: &[Enum],
    typed: &Typed,
    variables: &mut Sequence<VarDecl>,
) -> Result<(), AllocError>
    ensures { OnOk result (variables.new ≡ variables.old ++ variables_of (facts_of basis.now) enums.now (typed.now ∷ [])) }
{
    match declared_variable(alloc, basis, enums, typed)? {
        Some(variable) => variables.push(variable),
        None => Ok(()),
    }
}

/// A variable whose values are the numbers between two.
pub fn number_variable(
    alloc: Global,
    name: &str,
    least: i32,
    greatest: i32,
) -> Result<VarDecl, AllocError>
    ensures { IfOk result (λ variable. variable ≡ number_variable name.now least greatest) }
{
    let name = Text::from_str(alloc, name)?;
    Ok(VarDecl {
        name,
        kind: ValueKind::Int,
        base: Base::Given(range(least, greatest)?),
    })
}
