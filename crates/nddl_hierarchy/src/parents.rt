//! What the names of a program stand under.

ghost use Rattle.std.specs.Prelude.{◌≡◌, IfOk, map};
ghost use Rattle.eu_forest.specs.Lines.{AreParents};
ghost use Rattle.nddl_hierarchy.specs.Lines.{base_under, class_under, parents_of, sort_under, typedef_at};

use super::decls::{class_parent, decl_at, declaration_with_body, typedef_type};
use nddl_ast::declaration::Decl;
use nddl_ast::expression::BaseType;
use nddl_ast::name::Name;
use nddl_symbols::{Declared, Meaning, Scope, Sort};
use std::alloc::{AllocError, Global};

/// What each name stands under, and at the end nowhere, which stands under itself.
pub fn parents_of(
    alloc: Global,
    scope: &Scope,
    decls: &[&Decl],
) -> Result<Vec<Option<usize>>, AllocError>
    ensures are { IfOk result (λ parents. parents.items ≡ parents_of scope.now (map (λ decl. decl.now) decls.now)) }
    ensures known { IfOk result (λ parents. AreParents parents.items) }
{
    let mut parents = Vec::new(alloc);
    let names = scope.names();
    for declared in names {
        parents.push(name_under(scope, decls, declared))?;
    }
    parents.push(Some(names.len()))?;
    Ok(parents)
}

// What the name stands under.
fn name_under(scope: &Scope, decls: &[&Decl], declared: &Declared) -> Option<usize>
    ensures { result ≡ sort_under scope.now (map (λ decl. decl.now) decls.now) declared.now declared.now.sort }
{
    match declared.sort {
        Sort::Typedef => {
            let decl = decl_at(decls, declared.place.decl)?;
            let written = typedef_type(decl)?;
            base_under(scope, &written.base)
        }
        Sort::Forward | Sort::Body => {
            let body = declaration_with_body(scope, decls, declared)?;
            let name = class_parent(body)?;
            class_under(scope, name)
        }
        _ => None,
    }
}

// What a class stands under that extends this.
fn class_under(scope: &Scope, name: &Name) -> Option<usize>
    ensures { result ≡ class_under scope.now name.now }
{
    let nowhere = scope.names().len();
    match scope.meaning(&name.text) {
        Some(Meaning::BuiltIn(_)) => None,
        Some(Meaning::Entry(entry)) => {
            if scope.is_class(entry) {
                Some(entry)
            } else {
                Some(nowhere)
            }
        }
        None => Some(nowhere),
    }
}

// The typedef that the base names.
fn base_under(scope: &Scope, base: &BaseType) -> Option<usize>
    ensures { result ≡ base_under scope.now base.now }
{
    match base {
        BaseType::Named(name) => match scope.meaning(&name.text)? {
            Meaning::Entry(entry) => typedef_at(scope, entry),
            Meaning::BuiltIn(_) => None,
        },
        _ => None,
    }
}

// The name of this number, if it is a typedef.
fn typedef_at(scope: &Scope, entry: usize) -> Option<usize>
    ensures { result ≡ typedef_at scope.now entry }
{
    match scope.names().get(entry)?.sort {
        Sort::Typedef => Some(entry),
        _ => None,
    }
}
