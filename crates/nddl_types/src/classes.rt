//! The classes of a program with their fields.

ghost use Rattle.std.specs.Prelude.{◌≡◌, ◌++◌, ◌∷◌, [], IfOk, OnOk, map};
ghost use Rattle.std.specs.List.{flat_map};
ghost use Rattle.nddl_hierarchy.specs.Facts.{facts_of};
ghost use Rattle.nddl_hierarchy.specs.Shorter.{AddTheSame};
ghost use Rattle.nddl_types.specs.Classes.{class_fields, compiled_class, classes_of, declared_fields, fields_at, line_down, name_of_entry};

use super::builtin::{builtin_classes, push_given_fields};
use super::numbers::parent_number;
use super::sources::Sources;
use eu_name::sequence::Sequence;
use eu_name::text::Text;
use model_core::class::Class;
use model_core::variable::VarDecl;
use nddl_ast::declaration::Member;
use nddl_declarations::push_variable;
use nddl_hierarchy::Basis;
use nddl_hierarchy::decls::members_of;
use nddl_hierarchy::lines::above;
use nddl_hierarchy::members::member_field;
use nddl_hierarchy::shorter::adding_line;
use nddl_symbols::Scope;
use std::alloc::{AllocError, Global};

/// The classes: the built-in ones, and one for each name, in the order in which they are declared first.
pub fn classes_of(alloc: Global, sources: &Sources<'_>) -> Result<Sequence<Class>, AllocError>
    ensures { IfOk result (λ classes. classes ≡ classes_of (facts_of sources.now.basis) sources.now.enums.now) }
{
    let mut classes = builtin_classes(alloc)?;
    let entries = sources.entries;
    for entry in entries {
        push_class(alloc, sources, *entry, &mut classes)?;
    }
    Ok(classes)
}

// Puts the class whose name has this number at the end.
fn push_class(
    alloc: Global,
    sources: &Sources<'_>,
    entry: usize,
    classes: &mut Sequence<Class>,
) -> Result<(), AllocError>
    ensures { OnOk result (classes.new
        ≡ classes.old ++ compiled_class (facts_of sources.now.basis) sources.now.enums.now entry ∷ []) }
{
    let class = compiled_class(alloc, sources, entry)?;
    classes.push(class)
}

// The class whose name has this number.
fn compiled_class(alloc: Global, sources: &Sources<'_>, entry: usize) -> Result<Class, AllocError>
    ensures { IfOk result (λ class. class
        ≡ compiled_class (facts_of sources.now.basis) sources.now.enums.now entry) }
{
    let basis = &sources.basis;
    let name = name_of_entry(alloc, basis.types.scope, entry)?;
    let meaning = above(basis.types.scope, basis.decls, entry);
    let parent = Some(parent_number(basis.types.scope, sources.numbers, meaning));
    let fields = class_fields(alloc, sources, entry)?;
    Ok(Class {
        name,
        parent,
        fields,
    })
}

// The fields of the class whose name has this number.
fn class_fields(
    alloc: Global,
    sources: &Sources<'_>,
    entry: usize,
) -> Result<Sequence<VarDecl>, AllocError>
    ensures { IfOk result (λ fields. fields
        ≡ class_fields (facts_of sources.now.basis) sources.now.enums.now entry) }
{
    let line = line_down(alloc, &sources.basis, entry)?;
    fields_along(alloc, sources, line.as_slice())
}

/// The class of this number and those that it extends, the topmost first, which may lack some that add no members.
#[tactic(auto, using(nddl_hierarchy::proofs::Adding::same_reversed))]
pub fn line_down(alloc: Global, basis: &Basis<'_>, entry: usize) -> Result<Vec<usize>, AllocError>
    ensures { IfOk result (λ line. AddTheSame basis.now.types.scope.now
        (map (λ decl. decl.now) basis.now.decls.now) line.items
        (line_down (facts_of basis.now) entry)) }
{
    let mut line = adding_line(alloc, basis, entry)?;
    line.reverse();
    Ok(line)
}

// The name of this number.
fn name_of_entry(alloc: Global, scope: &Scope, entry: usize) -> Result<Text, AllocError>
    ensures { IfOk result (λ name. name ≡ name_of_entry scope.now entry) }
{
    match scope.names().get(entry) {
        Some(declared) => declared.name.copy(),
        None => Text::from_str(alloc, ""),
    }
}

// The fields that the classes of a line have together.
fn fields_along(
    alloc: Global,
    sources: &Sources<'_>,
    line: &[usize],
) -> Result<Sequence<VarDecl>, AllocError>
    ensures { IfOk result (λ fields. fields
        ≡ flat_map (fields_at (facts_of sources.now.basis) sources.now.enums.now) line.now) }
{
    let mut fields = Sequence::new(alloc);
    for entry in line {
        push_fields_at(alloc, sources, *entry, &mut fields)?;
    }
    Ok(fields)
}

// Puts what the class of this number adds to the fields of a line at the end.
fn push_fields_at(
    alloc: Global,
    sources: &Sources<'_>,
    entry: usize,
    fields: &mut Sequence<VarDecl>,
) -> Result<(), AllocError>
    ensures { OnOk result (fields.new
        ≡ fields.old ++ fields_at (facts_of sources.now.basis) sources.now.enums.now entry) }
{
    let basis = &sources.basis;
    let meaning = above(basis.types.scope, basis.decls, entry);
    push_given_fields(alloc, meaning, fields)?;
    let members = members_of(basis.types.scope, basis.decls, entry);
    push_declared_fields(alloc, sources, members, fields)
}

// Puts the fields that the members declare at the end.
fn push_declared_fields(
    alloc: Global,
    sources: &Sources<'_>,
    members: &[Member],
    fields: &mut Sequence<VarDecl>,
) -> Result<(), AllocError>
    ensures { OnOk result (fields.new
        ≡ fields.old ++ declared_fields (facts_of sources.now.basis) sources.now.enums.now members.now) }
{
    for member in members {
        push_declared_field(alloc, sources, member, fields)?;
    }
    Ok(())
}

// Puts the field that the member is at the end, if it is one.
fn push_declared_field(
    alloc: Global,
    sources: &Sources<'_>,
    member: &Member,
    fields: &mut Sequence<VarDecl>,
) -> Result<(), AllocError>
    ensures { OnOk result (fields.new
        ≡ fields.old ++ declared_fields (facts_of sources.now.basis) sources.now.enums.now (member.now ∷ [])) }
{
    match member_field(member) {
        Some(typed) => push_variable(alloc, &sources.basis, sources.enums, typed, fields),
        None => Ok(()),
    }
}
