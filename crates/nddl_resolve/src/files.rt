//! What the names of the files mean at the front of a path.

ghost use Rattle.std.specs.Prelude.{◌≡◌, IfOk};
ghost use Rattle.std.specs.Option.{option_copied};
ghost use Rattle.nddl_hierarchy.specs.Facts.{facts_of};
ghost use Rattle.nddl_resolve.specs.Files.{declared_ask, declared_value, file_denoted, file_owner, root_by, root_value, sort_denoted, sort_owner, variable_type};

use super::denoted::{Denoted, or_faulty};
use super::fields::type_value;
use super::following::asked_by;
use eu_name::text::Text;
use nddl_ast::declaration::Decl;
use nddl_ast::expression::Type;
use nddl_ast::name::Path;
use nddl_ast::statement::Ask;
use nddl_hierarchy::Basis;
use nddl_hierarchy::decls::decl_at;
use nddl_symbols::{Declared, Meaning, Sort};
use nddl_typeexpr::TypeKind;
use std::alloc::{AllocError, Global};

/// What the name means at the front of a path, as one of the files.
pub fn file_denoted(
    alloc: Global,
    basis: &Basis<'_>,
    name: &Text,
) -> Result<Option<Denoted>, AllocError>
    ensures { IfOk result (λ denoted. denoted ≡ file_denoted (facts_of basis.now) name.now) }
{
    let scope = basis.types.scope;
    match scope.meaning(name) {
        None => Ok(None),
        Some(Meaning::BuiltIn(number)) => Ok(Some(Denoted::Class(Meaning::BuiltIn(number)))),
        Some(Meaning::Entry(entry)) => match scope.names().get(entry) {
            Some(declared) => sort_denoted(alloc, basis, entry, declared),
            None => Ok(None),
        },
    }
}

// What the name of this number means that is declared as this.
fn sort_denoted(
    alloc: Global,
    basis: &Basis<'_>,
    entry: usize,
    declared: &Declared,
) -> Result<Option<Denoted>, AllocError>
    ensures { IfOk result (λ denoted. denoted ≡ sort_denoted (facts_of basis.now) entry declared.now declared.now.sort) }
{
    match declared.sort {
        Sort::Member { of, .. } => Ok(Some(Denoted::Value {
            kind: TypeKind::Enum(of),
            constant: true,
        })),
        Sort::Global => Ok(Some(declared_value(basis, false, declared))),
        Sort::Root => Ok(Some(root_value(alloc, basis, declared)?)),
        _ => Ok(sort_owner(basis, entry, declared)),
    }
}

// What the name of an object or of a class means, which can have tokens; None for any other.
fn sort_owner(basis: &Basis<'_>, entry: usize, declared: &Declared) -> Option<Denoted>
    ensures { result ≡ sort_owner (facts_of basis.now) entry declared.now declared.now.sort }
{
    match declared.sort {
        Sort::Object => Some(declared_value(basis, true, declared).object_alone()),
        Sort::Forward | Sort::Body => Some(Denoted::Class(Meaning::Entry(entry))),
        _ => None,
    }
}

// A value of the type with which the name is declared.
fn declared_value(basis: &Basis<'_>, constant: bool, declared: &Declared) -> Denoted
    ensures { result ≡ declared_value (facts_of basis.now) constant declared.now }
{
    match decl_at(basis.decls, declared.place.decl) {
        Some(decl) => match variable_type(decl) {
            Some(written) => type_value(&basis.types, constant, written),
            None => Denoted::Faulty,
        },
        None => Denoted::Faulty,
    }
}

fn variable_type(decl: &Decl) -> Option<&Type>
    ensures { option_copied result ≡ variable_type decl.now }
{
    match decl {
        Decl::Variable(variable) => Some(&variable.declared),
        _ => None,
    }
}

// The token whose label the name is.
fn root_value(alloc: Global, basis: &Basis<'_>, declared: &Declared) -> Result<Denoted, AllocError>
    ensures { IfOk result (λ denoted. denoted ≡ root_value (facts_of basis.now) declared.now) }
{
    match decl_at(basis.decls, declared.place.decl) {
        Some(decl) => match declared_ask(decl) {
            Some(ask) => root_by(alloc, basis, &ask.path),
            None => Ok(Denoted::Faulty),
        },
        None => Ok(Denoted::Faulty),
    }
}

fn declared_ask(decl: &Decl) -> Option<&Ask>
    ensures { option_copied result ≡ declared_ask decl.now }
{
    match decl {
        Decl::Ask(ask) => Some(ask),
        _ => None,
    }
}

// The token that is posted by this path.
fn root_by(alloc: Global, basis: &Basis<'_>, path: &Path) -> Result<Denoted, AllocError>
    ensures { IfOk result (λ denoted. denoted ≡ root_by (facts_of basis.now) path.now) }
{
    match file_owner(basis, &path.first.text) {
        Some(owner) => Ok(or_faulty(asked_by(alloc, basis, owner, path)?)),
        None => Ok(Denoted::Faulty),
    }
}

// The object or the class of this name.
fn file_owner(basis: &Basis<'_>, name: &Text) -> Option<Denoted>
    ensures { result ≡ file_owner (facts_of basis.now) name.now }
{
    match basis.types.scope.meaning(name)? {
        Meaning::BuiltIn(number) => Some(Denoted::Class(Meaning::BuiltIn(number))),
        Meaning::Entry(entry) => {
            let declared = basis.types.scope.names().get(entry)?;
            sort_owner(basis, entry, declared)
        }
    }
}
