//! Which classes stand under which.

ghost use Rattle.std.specs.Prelude.{◌≡◌, ◌||◌, ◌==◌, IfOk, IfSome, map, true};
ghost use Rattle.nddl_symbols.specs.Scope.{is_class_at};
ghost use Rattle.nddl_symbols.specs.declared.scope.Meaning.TheVariants.{BuiltIn, Entry};
ghost use Rattle.eu_forest.specs.Ancestors.{ancestry};
ghost use Rattle.nddl_hierarchy.specs.Ancestors.{above, is_extended, is_under, means};

use super::basis::Basis;
use super::lines::{above, is_extended, is_same_meaning, means};
use super::rounds::one_round;
use nddl_symbols::Meaning;
use std::alloc::{AllocError, Global};

/// Whether the class of this number is the other one, or under it.
pub fn is_under(
    alloc: Global,
    basis: &Basis<'_>,
    class: Meaning,
    entry: usize,
) -> Result<bool, AllocError>
    ensures { IfOk result (λ under. under ≡ is_under basis.now.types.scope.now (map (λ decl. decl.now) basis.now.decls.now)
        basis.now.parents.now class entry) }
{
    match is_under_shortly(basis, class, entry) {
        Some(under) => Ok(under),
        None => is_under_slowly(alloc, basis, class, entry),
    }
}

// Finds it out by shortcuts, if this is a class whose line is known to end.
fn is_under_shortly(basis: &Basis<'_>, class: Meaning, entry: usize) -> Option<bool>
    ensures { IfSome result (λ under. under ≡ is_under basis.now.types.scope.now
        (map (λ decl. decl.now) basis.now.decls.now) basis.now.parents.now class entry) }
{
    if basis.types.scope.is_class(entry) {
        match class {
            Meaning::BuiltIn(number) => is_under_builtin(basis, number, entry),
            Meaning::Entry(other) => is_under_entry(basis, other, entry),
        }
    } else {
        None
    }
}

// Whether the class is the other one, or under it.
fn is_under_entry(basis: &Basis<'_>, other: usize, entry: usize) -> Option<bool>
    requires { is_class_at basis.now.types.scope.now entry ≡ true }
    ensures { IfSome result (λ under. under ≡ is_under basis.now.types.scope.now
        (map (λ decl. decl.now) basis.now.decls.now) basis.now.parents.now (Entry other) entry) }
{
    basis.parents.is_on_line(entry, other)
}

// Whether the class is under this built-in one.
fn is_under_builtin(basis: &Basis<'_>, number: u32, entry: usize) -> Option<bool>
    requires { is_class_at basis.now.types.scope.now entry ≡ true }
    ensures { IfSome result (λ under. under ≡ is_under basis.now.types.scope.now
        (map (λ decl. decl.now) basis.now.decls.now) basis.now.parents.now (BuiltIn number) entry) }
{
    let root = basis.parents.root(entry)?;
    Some(is_builtin_or_over(basis, number, root))
}

// Whether this built-in class is that of all objects, or the one that the class of this number extends.
fn is_builtin_or_over(basis: &Basis<'_>, number: u32, root: usize) -> bool
    ensures { result ≡ ((number == 0) || means (BuiltIn number)
        (above basis.now.types.scope.now (map (λ decl. decl.now) basis.now.decls.now) root)) }
{
    let over = above(basis.types.scope, basis.decls, root);
    let extends = means(Meaning::BuiltIn(number), over);
    number == 0 || extends
}

// Finds it out along the whole line.
fn is_under_slowly(
    alloc: Global,
    basis: &Basis<'_>,
    class: Meaning,
    entry: usize,
) -> Result<bool, AllocError>
    ensures { IfOk result (λ under. under ≡ is_under basis.now.types.scope.now (map (λ decl. decl.now) basis.now.decls.now)
        basis.now.parents.now class entry) }
{
    if is_same_meaning(class, Meaning::BuiltIn(0))
        || is_same_meaning(class, Meaning::Entry(entry))
    {
        return Ok(true);
    }
    is_under_along(alloc, basis, class, entry)
}

// Whether a class on the line of this one extends the other.
fn is_under_along(
    alloc: Global,
    basis: &Basis<'_>,
    class: Meaning,
    entry: usize,
) -> Result<bool, AllocError>
    ensures { IfOk result (λ so. so ≡ is_extended basis.now.types.scope.now (map (λ decl. decl.now) basis.now.decls.now)
        class (ancestry basis.now.parents.now entry)) }
{
    let parents = basis.parents.as_slice();
    let line = one_round(alloc, parents, basis.lineage, entry)?;
    Ok(is_extended(basis.types.scope, basis.decls, class, line.as_slice()))
}
