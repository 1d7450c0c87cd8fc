//! What classes lead up to.

ghost use Rattle.std.specs.Prelude.{◌≡◌, IfOk, Some, length, map};
ghost use Rattle.nddl_hierarchy.specs.Ancestors.{above, is_extended, is_same_meaning, means};
ghost use Rattle.eu_forest.specs.Ancestors.{ancestry, line_from};

use super::decls::{class_parent, declaration_with_body};
use eu_forest::{Parents, parent_in};
use nddl_ast::declaration::Decl;
use nddl_symbols::{Meaning, Scope};
use std::alloc::{AllocError, Global};

/// The thing of this number and what it leads up to, in order.
pub fn ancestry(alloc: Global, parents: &Parents, number: usize) -> Result<Vec<usize>, AllocError>
    ensures { IfOk result (λ line. line.items ≡ ancestry parents.now number) }
{
    line_along(alloc, parents.as_slice(), number)
}

/// The thing and what it leads up to, along a list of what each thing stands under.
pub fn line_along(
    alloc: Global,
    parents: &[Option<usize>],
    number: usize,
) -> Result<Vec<usize>, AllocError>
    ensures { IfOk result (λ line. line.items ≡ ancestry parents.now number) }
{
    let mut line = Vec::new(alloc);
    let mut next = Some(number);
    for _ in 0..parents.len() {
        match next {
            Some(here) => {
                line.push(here)?;
                next = parent_in(parents, here);
            }
            None => break,
        }
    }
    Ok(line)
}

/// What the class of this number extends.
pub fn above(scope: &Scope, decls: &[&Decl], entry: usize) -> Option<Meaning>
    ensures { result ≡ above scope.now (map (λ decl. decl.now) decls.now) entry }
{
    let declared = scope.names().get(entry)?;
    let body = declaration_with_body(scope, decls, declared)?;
    let name = class_parent(body)?;
    scope.meaning(&name.text)
}

/// Whether two meanings are the same.
pub fn is_same_meaning(one: Meaning, other: Meaning) -> bool
    ensures { result ≡ is_same_meaning one other }
{
    match (one, other) {
        (Meaning::BuiltIn(one), Meaning::BuiltIn(other)) => one == other,
        (Meaning::Entry(one), Meaning::Entry(other)) => one == other,
        _ => false,
    }
}

/// Whether the other one, if there is one, is the same as this.
pub fn means(one: Meaning, other: Option<Meaning>) -> bool
    ensures { result ≡ means one other }
{
    match other {
        Some(other) => is_same_meaning(one, other),
        None => false,
    }
}

/// Whether a class of the line extends this one.
pub fn is_extended(scope: &Scope, decls: &[&Decl], class: Meaning, line: &[usize]) -> bool
    ensures { result ≡ is_extended scope.now (map (λ decl. decl.now) decls.now) class line.now }
{
    for entry in line {
        if means(class, above(scope, decls, *entry)) {
            return true;
        }
    }
    false
}
