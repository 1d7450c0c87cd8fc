//! What of the constructors of classes is the same for all objects, found once for each class.

ghost use Rattle.std.specs.Prelude.{◌≡◌, ◌+◌, ◌||◌, [], IfOk, OnOk, Some, is_none, length, slice_get};
ghost use Rattle.std.specs.Option.{option_and_then, option_copied, option_map_or};
ghost use Rattle.nddl_symbols.specs.Scope.{meaning_of};
ghost use Rattle.nddl_hierarchy.specs.Decls.{class_parent, decl_members};
ghost use Rattle.nddl_hierarchy.specs.Facts.{facts_of};
ghost use Rattle.nddl_constructors.specs.Wanted.{wanted_kinds};
ghost use Rattle.nddl_construction.specs.Builders.{AreBuilders, AreEntries, IsBuilder, body_numbers, builder_at, constructor_in, entry_at, wants_in, wants_over};
ghost use Rattle.nddl_construction.specs.Classes.{constructor_sets, is_building, own_constructor};
ghost use Rattle.nddl_construction.specs.Passing.{has_late_super};

use super::classes::{constructor_formals, constructor_sets, own_constructor};
use super::handing::{handed_arguments, has_late_super};
use nddl_ast::declaration::{Decl, Member};
use nddl_ast::expression::Expr;
use nddl_constructors::formals::{Formals, formals_seen};
use nddl_constructors::wanted::{Wanted, meaning_wanted};
use nddl_hierarchy::Basis;
use nddl_hierarchy::decls::{class_parent, decl_at, decl_members, number_with_body};
use nddl_symbols::{Meaning, Scope};
use nddl_typeexpr::TypeKind;
use std::alloc::{AllocError, Global};

/// A constructor, and what is so of it whatever it is passed.
#[derive(Drop)]
pub struct Builder<'a> {
    pub constructor: &'a Member,
    /// The number of the declaration in which it stands.
    pub decl: usize,
    pub formals: Formals,
    /// The arguments that it hands to what its class extends, if they are as many as are wanted there.
    pub handed: Option<&'a [Expr]>,
    /// Of which kinds these have to be.
    pub wants: Vec<Option<TypeKind>>,
}

/// What is found of the constructors of a program's classes.
#[derive(Drop)]
pub struct Builders<'a> {
    // For each name, the number of the declaration that has the members of its class. Classes may be declared many times,
    // and have their members once.
    pub bodies: Vec<Option<usize>>,
    // For each declaration, what is found of the constructor in it.
    pub entries: Vec<Option<Builder<'a>>>,
}

impl<'a> Builder<'a> {
    /// Whether `super` isn't as it should be.
    pub fn is_wrong(&self) -> bool
        ensures { result ≡ (is_none (option_copied self.now.handed)
            || has_late_super (constructor_sets self.now.constructor.now)) }
    {
        self.handed.is_none() || has_late_super(constructor_sets(self.constructor))
    }
}

impl<'a> Builders<'a> {
    /// Of the classes of a program.
    pub fn of(alloc: Global, basis: &Basis<'a>) -> Result<Builders<'a>, AllocError>
        ensures { IfOk result (AreBuilders (facts_of basis.now)) }
    {
        let bodies = body_numbers(alloc, basis.types.scope)?;
        let entries = found_entries(alloc, basis)?;
        Ok(Builders { bodies, entries })
    }

    /// What is found of the constructor of the class of this number, if it has one.
    pub fn find(&self, entry: usize) -> Option<&Builder<'a>>
        ensures { option_copied result ≡ builder_at self.now entry }
    {
        entry_at(
            self.entries.as_slice(),
            body_at(self.bodies.as_slice(), entry)?,
        )
    }

    /// Whether the class has a constructor, as each built-in one has.
    pub fn is_building(&self, basis: &Basis<'_>, class: Meaning) -> bool
        requires { AreBuilders (facts_of basis.now) self.now }
        ensures { result ≡ is_building (facts_of basis.now) class }
    {
        match class {
            Meaning::BuiltIn(_) => true,
            Meaning::Entry(entry) => match self.find(entry) {
                Some(_) => true,
                None => false,
            },
        }
    }
}

// The number that stands in the list of the class of this number.
fn body_at(bodies: &[Option<usize>], entry: usize) -> Option<usize>
    ensures { result ≡ option_and_then (λ number. number) (slice_get bodies.now entry) }
{
    *bodies.get(entry)?
}

// What stands in the list at this number.
fn entry_at<'b, 'a>(entries: &'b [Option<Builder<'a>>], number: usize) -> Option<&'b Builder<'a>>
    ensures { option_copied result ≡ entry_at entries.now number }
{
    match entries.get(number) {
        Some(Some(builder)) => Some(builder),
        _ => None,
    }
}

// For each name, the number of the declaration that has the members of its class.
fn body_numbers(alloc: Global, scope: &Scope) -> Result<Vec<Option<usize>>, AllocError>
    ensures { IfOk result (λ bodies. bodies.items ≡ body_numbers scope.now) }
{
    let mut bodies = Vec::new(alloc);
    let names = scope.names();
    for declared in names {
        bodies.push(number_with_body(scope, declared))?;
    }
    Ok(bodies)
}

// What is found of the constructors of the declarations, in order.
fn found_entries<'a>(
    alloc: Global,
    basis: &Basis<'a>,
) -> Result<Vec<Option<Builder<'a>>>, AllocError>
    ensures each { IfOk result (λ entries. length entries.items ≡ length basis.now.decls.now) }
    ensures found { IfOk result (λ entries. AreEntries (facts_of basis.now) entries.items) }
{
    let mut entries = Vec::new(alloc);
    let done = find_all(alloc, basis, &mut entries);
    match done {
        Ok(()) => Ok(entries),
        Err(fault) => Err(fault),
    }
}

// Finds it of each declaration.
fn find_all<'a>(
    alloc: Global,
    basis: &Basis<'a>,
    entries: &mut Vec<Option<Builder<'a>>>,
) -> Result<(), AllocError>
    requires { entries.old.items ≡ [] }
    ensures each { OnOk result (length entries.new.items ≡ length basis.now.decls.now) }
    ensures found { OnOk result (AreEntries (facts_of basis.now) entries.new.items) }
{
    for number in 0..basis.decls.len() {
        find_next(alloc, basis, number, entries)?;
    }
    Ok(())
}

// Finds it of the declaration of this number, which comes next.
fn find_next<'a>(
    alloc: Global,
    basis: &Basis<'a>,
    number: usize,
    entries: &mut Vec<Option<Builder<'a>>>,
) -> Result<(), AllocError>
    requires { length entries.old.items ≡ number }
    ensures next { OnOk result (length entries.new.items ≡ number + 1) }
    ensures found { OnOk result (AreEntries (facts_of basis.now) entries.old.items
        → AreEntries (facts_of basis.now) entries.new.items) }
{
    let found = found_in(alloc, basis, number)?;
    entries.push(found)?;
    Ok(())
}

// What is found of the constructor in the declaration of this number, if there is one.
fn found_in<'a>(
    alloc: Global,
    basis: &Basis<'a>,
    number: usize,
) -> Result<Option<Builder<'a>>, AllocError>
    ensures { IfOk result (IsBuilder (facts_of basis.now) number (wants_in (facts_of basis.now) number)
        (constructor_in (facts_of basis.now).program number)) }
{
    match decl_at(basis.decls, number) {
        Some(decl) => found_of(alloc, basis, number, decl),
        None => Ok(None),
    }
}

// What is found of the constructor in this declaration, if it has one.
fn found_of<'a>(
    alloc: Global,
    basis: &Basis<'a>,
    number: usize,
    decl: &'a Decl,
) -> Result<Option<Builder<'a>>, AllocError>
    ensures { IfOk result (IsBuilder (facts_of basis.now) number (wants_over (facts_of basis.now) decl.now)
        (own_constructor (decl_members decl.now))) }
{
    match own_constructor(decl_members(decl)) {
        Some(constructor) => found_by(alloc, basis, number, decl, constructor),
        None => Ok(None),
    }
}

// What is found of this constructor of the declaration.
fn found_by<'a>(
    alloc: Global,
    basis: &Basis<'a>,
    number: usize,
    decl: &'a Decl,
    constructor: &'a Member,
) -> Result<Option<Builder<'a>>, AllocError>
    ensures { IfOk result (IsBuilder (facts_of basis.now) number (wants_over (facts_of basis.now) decl.now)
        (Some constructor.now)) }
{
    let wanted = meaning_wanted(alloc, basis, extended(basis.types.scope, decl))?;
    let handed = handed_arguments(wanted.count(), constructor_sets(constructor));
    let wants = wants_handed(alloc, basis, &wanted, handed)?;
    let formals = formals_seen(alloc, basis, constructor_formals(constructor))?;
    Ok(Some(Builder {
        constructor,
        decl: number,
        formals,
        handed,
        wants,
    }))
}

// What the class extends that is declared so.
fn extended(scope: &Scope, decl: &Decl) -> Option<Meaning>
    ensures { result ≡ option_and_then (λ name. meaning_of scope.now name.text) (class_parent decl.now) }
{
    let name = class_parent(decl)?;
    scope.meaning(&name.text)
}

// The kinds of what is wanted, if arguments are handed on. Many classes that hand on nothing may extend one that wants much.
fn wants_handed(
    alloc: Global,
    basis: &Basis<'_>,
    wanted: &Wanted<'_>,
    handed: Option<&[Expr]>,
) -> Result<Vec<Option<TypeKind>>, AllocError>
    ensures { IfOk result (λ wants. wants.items
        ≡ option_map_or (λ arguments. wanted_kinds (facts_of basis.now) wanted.now) (option_copied handed.entry) []) }
{
    match handed {
        Some(_) => wanted.kinds(alloc, basis),
        None => Ok(Vec::new(alloc)),
    }
}
