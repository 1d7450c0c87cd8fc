//! Lines of classes in which those are passed over that add no members to them. So what a class has in all is gathered in
//! the time that it takes to write it down, however many classes without members stand above it. On others those are passed
//! over that have no constructor, so that only those are looked at whose constructors run.

ghost use Rattle.std.specs.Prelude.{◌≡◌, IfOk, map, slice_set};
ghost use Rattle.std.specs.Option.{option_and_then};
ghost use Rattle.eu_forest.specs.Lines.{IsLineageOf};
ghost use Rattle.nddl_symbols.specs.Scope.{meaning_of};
ghost use Rattle.eu_forest.specs.Ancestors.{ancestry, parent_in};
ghost use Rattle.eu_forest.specs.Members.{is_marked};
ghost use Rattle.nddl_hierarchy.specs.Decls.{class_parent};
ghost use Rattle.nddl_hierarchy.specs.Shorter.{AddTheSame, AreShorter, AreShorterFor, BuildTheSame, adds_body, adds_declared, adds_members, builds, builds_declared, has_constructor, has_named, is_builtin_class, is_constructor, is_named, passed_over};

use super::basis::Basis;
use super::circles::is_rooted;
use super::decls::{class_parent, decl_members, declaration_with_body, members_of};
use super::lines::{ancestry, line_along};
use eu_forest::marks::is_marked;
use eu_forest::{Lineage, parent_in};
use nddl_ast::declaration::{Decl, Member};
use nddl_symbols::{Declared, Meaning, Scope};
use std::alloc::{AllocError, Global};

/// What the things stand under, where some classes are passed over.
#[derive(Drop)]
pub struct ShortLines {
    // Those that add no members.
    pub adding: Vec<Option<usize>>,
    // Those that have no constructor.
    pub building: Vec<Option<usize>>,
}

impl ShortLines {
    /// Of things that stand under these. The lineage is that of what they stand under.
    pub fn of(
        alloc: Global,
        scope: &Scope,
        decls: &[&Decl],
        parents: &[Option<usize>],
        lineage: &Lineage,
    ) -> Result<ShortLines, AllocError>
        requires { IsLineageOf parents.now lineage.now.marks.items lineage.now.order.items }
        ensures { IfOk result (λ short. AreShorter scope.now (map (λ decl. decl.now) decls.now) parents.now
            lineage.now.marks.items short) }
    {
        let adding = adding_lines(alloc, scope, decls, parents, lineage)?;
        let building = building_lines(alloc, scope, decls, parents, lineage)?;
        Ok(ShortLines { adding, building })
    }
}

// What the things stand under, where those are passed over that add no members.
fn adding_lines(
    alloc: Global,
    scope: &Scope,
    decls: &[&Decl],
    parents: &[Option<usize>],
    lineage: &Lineage,
) -> Result<Vec<Option<usize>>, AllocError>
    requires { IsLineageOf parents.now lineage.now.marks.items lineage.now.order.items }
    ensures { IfOk result (λ short. AreShorterFor (adds_members scope.now (map (λ decl. decl.now) decls.now))
        parents.now lineage.now.marks.items short.items) }
{
    let adds = adding(alloc, scope, decls)?;
    shortened(alloc, parents, lineage, adds.as_slice())
}

// What the things stand under, where those are passed over that have no constructor.
fn building_lines(
    alloc: Global,
    scope: &Scope,
    decls: &[&Decl],
    parents: &[Option<usize>],
    lineage: &Lineage,
) -> Result<Vec<Option<usize>>, AllocError>
    requires { IsLineageOf parents.now lineage.now.marks.items lineage.now.order.items }
    ensures { IfOk result (λ short. AreShorterFor (builds scope.now (map (λ decl. decl.now) decls.now))
        parents.now lineage.now.marks.items short.items) }
{
    let builders = building(alloc, scope, decls)?;
    shortened(alloc, parents, lineage, builders.as_slice())
}

// What the things stand under, where those are passed over that aren't marked.
fn shortened(
    alloc: Global,
    parents: &[Option<usize>],
    lineage: &Lineage,
    marks: &[bool],
) -> Result<Vec<Option<usize>>, AllocError>
    requires { IsLineageOf parents.now lineage.now.marks.items lineage.now.order.items }
    ensures { IfOk result (λ short. AreShorterFor (is_marked marks.now) parents.now lineage.now.marks.items short.items) }
{
    let mut short = copied(alloc, parents)?;
    let order = lineage.order();
    for entry in order {
        let next = parent_in(parents, *entry);
        let passed = passed_over(marks, short.as_slice(), next);
        put_next(&mut short, *entry, passed);
    }
    Ok(short)
}

// Whether each class adds members to a line. It is told of each once, as many may extend a class with many constructors.
fn adding(alloc: Global, scope: &Scope, decls: &[&Decl]) -> Result<Vec<bool>, AllocError>
    ensures { IfOk result (λ adds. adds.items ≡ map (adds_declared scope.now (map (λ decl. decl.now) decls.now)) scope.now) }
{
    let mut adds = Vec::new(alloc);
    let names = scope.names();
    for declared in names {
        adds.push(adds_declared(scope, decls, declared))?;
    }
    Ok(adds)
}

// Whether each class has a constructor.
fn building(alloc: Global, scope: &Scope, decls: &[&Decl]) -> Result<Vec<bool>, AllocError>
    ensures { IfOk result (λ builders. builders.items ≡ map (builds_declared scope.now (map (λ decl. decl.now) decls.now)) scope.now) }
{
    let mut builders = Vec::new(alloc);
    let names = scope.names();
    for declared in names {
        builders.push(builds_declared(scope, decls, declared))?;
    }
    Ok(builders)
}

fn copied(alloc: Global, some: &[Option<usize>]) -> Result<Vec<Option<usize>>, AllocError>
    ensures { IfOk result (λ copy. copy.items ≡ some.now) }
{
    let mut copy = Vec::new(alloc);
    for one in some {
        copy.push(*one)?;
    }
    Ok(copy)
}

// What stands next on a line, where only those stay that are marked.
fn passed_over(marks: &[bool], short: &[Option<usize>], next: Option<usize>) -> Option<usize>
    ensures { result ≡ passed_over (is_marked marks.now) short.now next }
{
    let number = next?;
    if is_marked(marks, number) {
        Some(number)
    } else {
        parent_in(short, number)
    }
}

// Writes down what the thing of this number stands under.
fn put_next(short: &mut Vec<Option<usize>>, entry: usize, next: Option<usize>)
    ensures { short.new.items ≡ slice_set short.old.items entry next }
{
    if entry < short.len() {
        short[entry] = next;
    }
}

// Whether a class adds members to a line.
fn adds_declared(scope: &Scope, decls: &[&Decl], declared: &Declared) -> bool
    ensures { result ≡ adds_declared scope.now (map (λ decl. decl.now) decls.now) declared.now }
{
    match declaration_with_body(scope, decls, declared) {
        Some(body) => adds_body(scope, body),
        None => false,
    }
}

// Whether a class with this body adds members to a line: its own, or those of a built-in class that it extends.
fn adds_body(scope: &Scope, body: &Decl) -> bool
    ensures { result ≡ adds_body scope.now body.now }
{
    has_named(decl_members(body)) || is_builtin_class(extended(scope, body))
}

// What the class extends that is declared so.
fn extended(scope: &Scope, body: &Decl) -> Option<Meaning>
    ensures { result ≡ option_and_then (λ name. meaning_of scope.now name.text) (class_parent body.now) }
{
    let name = class_parent(body)?;
    scope.meaning(&name.text)
}

/// Whether one of the members is a field or a predicate.
pub fn has_named(members: &[Member]) -> bool
    ensures { result ≡ has_named members.now }
{
    for member in members {
        if is_named(member) {
            return true;
        }
    }
    false
}

// Whether the member is a field or a predicate.
fn is_named(member: &Member) -> bool
    ensures { result ≡ is_named member.now }
{
    match member {
        Member::Field(_) => true,
        Member::Predicate { .. } => true,
        Member::Constructor { .. } => false,
    }
}

// Whether a class has a constructor.
fn builds_declared(scope: &Scope, decls: &[&Decl], declared: &Declared) -> bool
    ensures { result ≡ builds_declared scope.now (map (λ decl. decl.now) decls.now) declared.now }
{
    match declaration_with_body(scope, decls, declared) {
        Some(body) => has_constructor(decl_members(body)),
        None => false,
    }
}

fn has_constructor(members: &[Member]) -> bool
    ensures { result ≡ has_constructor members.now }
{
    for member in members {
        if is_constructor(member) {
            return true;
        }
    }
    false
}

fn is_constructor(member: &Member) -> bool
    ensures { result ≡ is_constructor member.now }
{
    match member {
        Member::Constructor { .. } => true,
        _ => false,
    }
}

fn is_builtin_class(meaning: Option<Meaning>) -> bool
    ensures { result ≡ is_builtin_class meaning }
{
    match meaning {
        Some(Meaning::BuiltIn(_)) => true,
        Some(Meaning::Entry(_)) => false,
        None => false,
    }
}

/// Whether the class of this number has a constructor.
#[tactic(auto, unfolding(crate::specs::Shorter::builds))]
pub fn builds(scope: &Scope, decls: &[&Decl], entry: usize) -> bool
    ensures { result ≡ builds scope.now (map (λ decl. decl.now) decls.now) entry }
{
    has_constructor(members_of(scope, decls, entry))
}

/// A line of the class of this number, from itself up, which may lack some that add no members.
pub fn adding_line(alloc: Global, basis: &Basis<'_>, entry: usize) -> Result<Vec<usize>, AllocError>
    ensures { IfOk result (λ line. AddTheSame basis.now.types.scope.now
        (map (λ decl. decl.now) basis.now.decls.now) line.items (ancestry basis.now.parents.now entry)) }
{
    if is_rooted(basis.lineage.rootedness(entry)) {
        line_along(alloc, basis.short.adding.as_slice(), entry)
    } else {
        ancestry(alloc, basis.parents, entry)
    }
}

/// A line of the class of this number, from itself up, which may lack some that have no constructor.
pub fn building_line(
    alloc: Global,
    basis: &Basis<'_>,
    entry: usize,
) -> Result<Vec<usize>, AllocError>
    ensures { IfOk result (λ line. BuildTheSame basis.now.types.scope.now
        (map (λ decl. decl.now) basis.now.decls.now) line.items (ancestry basis.now.parents.now entry)) }
{
    line_along(alloc, builders_over(basis, entry), entry)
}

/// What things stand under along such a line of the class of this number.
pub fn builders_over<'a>(basis: &Basis<'a>, entry: usize) -> &'a [Option<usize>]
    ensures { BuildTheSame basis.now.types.scope.now (map (λ decl. decl.now) basis.now.decls.now)
        (ancestry result.now entry) (ancestry basis.now.parents.now entry) }
{
    if is_rooted(basis.lineage.rootedness(entry)) {
        basis.short.building.as_slice()
    } else {
        basis.parents.as_slice()
    }
}
