//! Which class of a line says which arguments are wanted where an object is made.

ghost use Rattle.std.specs.Prelude.{◌≡◌, IfOk, IfSome, map, true};
ghost use Rattle.std.specs.Option.{option_copied};
ghost use Rattle.nddl_symbols.specs.Scope.{is_class_at};
ghost use Rattle.eu_forest.specs.Ancestors.{ancestry};
ghost use Rattle.nddl_hierarchy.specs.Facts.{facts_of};
ghost use Rattle.nddl_hierarchy.specs.Decls.{members_of};
ghost use Rattle.nddl_constructors.specs.Wants.{builtin_along, builtin_or, line_formals, member_formals, own_formals};

use eu_forest::parent_in;
use eu_name::sequence::Sequence;
use nddl_ast::declaration::{Decl, Member, Typed};
use nddl_hierarchy::Basis;
use nddl_hierarchy::decls::members_of;
use nddl_hierarchy::lines::{above, ancestry};
use nddl_hierarchy::shorter::builders_over;
use nddl_symbols::{Meaning, Scope};
use std::alloc::{AllocError, Global};

/// The formals of the first class that has a constructor, from the class of this number up.
// Those between that have none are passed over, and the line isn't gathered, since this is asked of each class of it, and each
// may have a constructor.
pub fn formals_above<'a>(basis: &Basis<'a>, entry: usize) -> Option<&'a Sequence<Typed>>
    ensures { option_copied result ≡ line_formals (facts_of basis.now).names (facts_of basis.now).program
        (ancestry (facts_of basis.now).parents entry) }
{
    formals_along(
        basis.types.scope,
        basis.decls,
        builders_over(basis, entry),
        entry,
    )
}

// The formals of the first class that has a constructor, going up along what the classes stand under.
fn formals_along<'a>(
    scope: &Scope,
    decls: &[&'a Decl],
    parents: &[Option<usize>],
    entry: usize,
) -> Option<&'a Sequence<Typed>>
    ensures { option_copied result ≡ line_formals scope.now (map (λ decl. decl.now) decls.now) (ancestry parents.now entry) }
{
    let mut next = Some(entry);
    for _ in 0..parents.len() {
        match next {
            Some(here) => match formals_at(scope, decls, here) {
                Some(formals) => return Some(formals),
                None => next = parent_in(parents, here),
            },
            None => return None,
        }
    }
    None
}

// The formals of the constructor of the class of this number, if it has one.
fn formals_at<'a>(scope: &Scope, decls: &[&'a Decl], entry: usize) -> Option<&'a Sequence<Typed>>
    ensures { option_copied result ≡ own_formals (members_of scope.now (map (λ decl. decl.now) decls.now) entry) }
{
    own_formals(members_of(scope, decls, entry))
}

// The formals of the first constructor among the members.
fn own_formals(members: &[Member]) -> Option<&Sequence<Typed>>
    ensures { option_copied result ≡ own_formals members.now }
{
    for member in members {
        if let Some(formals) = member_formals(member) {
            return Some(formals);
        }
    }
    None
}

fn member_formals(member: &Member) -> Option<&Sequence<Typed>>
    ensures { option_copied result ≡ member_formals member.now }
{
    match member {
        Member::Constructor { formals, .. } => Some(formals),
        _ => None,
    }
}

/// The built-in class that the class of this number leads up to.
pub fn builtin_above(alloc: Global, basis: &Basis<'_>, entry: usize) -> Result<u32, AllocError>
    ensures { IfOk result (λ number. number ≡ builtin_along (facts_of basis.now).names (facts_of basis.now).program
        (ancestry (facts_of basis.now).parents entry)) }
{
    match builtin_shortly(basis, entry) {
        Some(number) => Ok(number),
        None => builtin_slowly(alloc, basis, entry),
    }
}

// Finds the built-in class by shortcuts, if this is a class whose line is known to end.
fn builtin_shortly(basis: &Basis<'_>, entry: usize) -> Option<u32>
    ensures { IfSome result (λ number. number ≡ builtin_along (facts_of basis.now).names (facts_of basis.now).program
        (ancestry (facts_of basis.now).parents entry)) }
{
    if basis.types.scope.is_class(entry) {
        builtin_at_root(basis, entry)
    } else {
        None
    }
}

// That which the last class of the line extends.
fn builtin_at_root(basis: &Basis<'_>, entry: usize) -> Option<u32>
    requires { is_class_at basis.now.types.scope.now entry ≡ true }
    ensures { IfSome result (λ number. number ≡ builtin_along (facts_of basis.now).names (facts_of basis.now).program
        (ancestry (facts_of basis.now).parents entry)) }
{
    let root = basis.parents.root(entry)?;
    Some(builtin_or_none(above(basis.types.scope, basis.decls, root)))
}

// The number of what means this, if it is a built-in class, and else that of the class of objects.
fn builtin_or_none(class: Option<Meaning>) -> u32
    ensures { result ≡ builtin_or 0 class }
{
    match class {
        Some(Meaning::BuiltIn(number)) => number,
        _ => 0,
    }
}

// Finds the built-in class along the whole line.
fn builtin_slowly(alloc: Global, basis: &Basis<'_>, entry: usize) -> Result<u32, AllocError>
    ensures { IfOk result (λ number. number ≡ builtin_along (facts_of basis.now).names (facts_of basis.now).program
        (ancestry (facts_of basis.now).parents entry)) }
{
    let line = ancestry(alloc, basis.parents, entry)?;
    Ok(builtin_along(basis.types.scope, basis.decls, line.as_slice()))
}

// The built-in class that a class of the line extends.
fn builtin_along(scope: &Scope, decls: &[&Decl], line: &[usize]) -> u32
    ensures { result ≡ builtin_along scope.now (map (λ decl. decl.now) decls.now) line.now }
{
    for entry in line {
        if let Some(Meaning::BuiltIn(number)) = above(scope, decls, *entry) {
            return number;
        }
    }
    0
}
