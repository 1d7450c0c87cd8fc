//! The constructors of classes, and the line of classes to which an object belongs.

ghost use Rattle.std.specs.Prelude.{◌≡◌, ◌∷◌, [], IfOk, map};
ghost use Rattle.std.specs.Option.{option_copied};
ghost use Rattle.eu_forest.specs.Ancestors.{ancestry};
ghost use Rattle.nddl_hierarchy.specs.Facts.{facts_of};
ghost use Rattle.nddl_hierarchy.specs.Shorter.{KeepTheSame};
ghost use Rattle.nddl_construction.specs.Classes.{behind_all, class_taking, constructor_formals, constructor_sets, entries_alone, is_adding, is_building, line_up, made_class, own_constructor, with_builtin};

use nddl_ast::declaration::{Member, Set, Typed};
use nddl_ast::expression::Creation;
use nddl_constructors::creations::class_alone;
use nddl_constructors::wanted::class_wanted;
use nddl_constructors::wants::builtin_above;
use nddl_hierarchy::{Basis, adding_line, building_line};
use nddl_symbols::Meaning;
use std::alloc::{AllocError, Global};

/// The first constructor among the members.
pub fn own_constructor(members: &[Member]) -> Option<&Member>
    ensures { option_copied result ≡ own_constructor members.now }
{
    for member in members {
        if let Member::Constructor { .. } = member {
            return Some(member);
        }
    }
    None
}

/// The formals of the constructor.
pub fn constructor_formals(constructor: &Member) -> &[Typed]
    ensures { result.now ≡ constructor_formals constructor.now }
{
    match constructor {
        Member::Constructor { formals, .. } => formals.as_slice(),
        _ => &[],
    }
}

/// The body of the constructor.
pub fn constructor_sets(constructor: &Member) -> &[Set]
    ensures { result.now ≡ constructor_sets constructor.now }
{
    match constructor {
        Member::Constructor { sets, .. } => sets.as_slice(),
        _ => &[],
    }
}

/// A line of the class and what it leads up to, a built-in class at the end, which may lack some that add no members.
pub fn adding_up(
    alloc: Global,
    basis: &Basis<'_>,
    class: Meaning,
) -> Result<Vec<Meaning>, AllocError>
    ensures { IfOk result (λ line. KeepTheSame (is_adding (facts_of basis.now)) line.items (line_up (facts_of basis.now) class)) }
{
    match class {
        Meaning::BuiltIn(_) => alone(alloc, class),
        Meaning::Entry(entry) => adding_above(alloc, basis, entry),
    }
}

// The line of the class of this number, which may lack some that add no members, with its built-in class behind.
fn adding_above(alloc: Global, basis: &Basis<'_>, entry: usize) -> Result<Vec<Meaning>, AllocError>
    ensures { IfOk result (λ line. KeepTheSame (is_adding (facts_of basis.now)) line.items
        (with_builtin (facts_of basis.now) (ancestry (facts_of basis.now).parents entry))) }
{
    let number = builtin_above(alloc, basis, entry)?;
    let line = adding_line(alloc, basis, entry)?;
    behind_all(alloc, number, line.as_slice())
}

/// A line of the class and what it leads up to, a built-in class at the end, which may lack some that have no constructor.
pub fn building_up(
    alloc: Global,
    basis: &Basis<'_>,
    class: Meaning,
) -> Result<Vec<Meaning>, AllocError>
    ensures { IfOk result (λ line. KeepTheSame (is_building (facts_of basis.now)) line.items (line_up (facts_of basis.now) class)) }
{
    match class {
        Meaning::BuiltIn(_) => alone(alloc, class),
        Meaning::Entry(entry) => building_above(alloc, basis, entry),
    }
}

// The line of the class of this number, which may lack some without a constructor, with its built-in class behind.
fn building_above(
    alloc: Global,
    basis: &Basis<'_>,
    entry: usize,
) -> Result<Vec<Meaning>, AllocError>
    ensures { IfOk result (λ line. KeepTheSame (is_building (facts_of basis.now)) line.items
        (with_builtin (facts_of basis.now) (ancestry (facts_of basis.now).parents entry))) }
{
    let number = builtin_above(alloc, basis, entry)?;
    let line = building_line(alloc, basis, entry)?;
    behind_all(alloc, number, line.as_slice())
}

fn alone(alloc: Global, class: Meaning) -> Result<Vec<Meaning>, AllocError>
    ensures { IfOk result (λ line. line.items ≡ class ∷ []) }
{
    let mut line = Vec::new(alloc);
    line.push(class)?;
    Ok(line)
}

// These classes, and behind them the built-in one of this number.
fn behind_all(alloc: Global, number: u32, entries: &[usize]) -> Result<Vec<Meaning>, AllocError>
    ensures { IfOk result (λ line. line.items ≡ behind_all number entries.now) }
{
    let mut line = entries_alone(alloc, entries)?;
    line.push(Meaning::BuiltIn(number))?;
    Ok(line)
}

fn entries_alone(alloc: Global, entries: &[usize]) -> Result<Vec<Meaning>, AllocError>
    ensures { IfOk result (λ line. line.items ≡ entries_alone entries.now) }
{
    let mut line = Vec::new(alloc);
    for entry in entries {
        line.push(Meaning::Entry(*entry))?;
    }
    Ok(line)
}

/// The class of which the `new` makes an object: it is there, and takes as many arguments as there are.
pub fn made_class(
    alloc: Global,
    basis: &Basis<'_>,
    creation: &Creation,
) -> Result<Option<Meaning>, AllocError>
    ensures { IfOk result (λ class. class ≡ made_class (facts_of basis.now) creation.now) }
{
    let scope = basis.types.scope;
    match class_alone(scope, scope.meaning(&creation.class.text)) {
        Some(class) => class_taking(alloc, basis, creation.arguments.len(), class),
        None => Ok(None),
    }
}

// The class, if it takes so many arguments.
fn class_taking(
    alloc: Global,
    basis: &Basis<'_>,
    count: usize,
    class: Meaning,
) -> Result<Option<Meaning>, AllocError>
    ensures { IfOk result (λ found. found ≡ class_taking (facts_of basis.now) count class) }
{
    let wanted = class_wanted(alloc, basis, class)?;
    Ok(if wanted.count() == count {
        Some(class)
    } else {
        None
    })
}
