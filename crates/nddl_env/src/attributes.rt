//! Fields of classes and parameters of predicates.

ghost use Rattle.std.specs.Prelude.{◌≡◌, ◌++◌, IfOk, OnOk, map};
ghost use Rattle.std.specs.List.{filter_map, flat_map};
ghost use Rattle.nddl_types.specs.Classes.{given_fields};
ghost use Rattle.nddl_env.specs.Shapes.{attribute_with, attributes_at, entry_attributes, member_attribute, number_attribute, part_attribute, typed_attribute, world_of};

use super::ending::{both, when};
use super::premises::Premises;
use super::shapes::shape_with;
use eu_name::sequence::Sequence;
use model_core::variable::VarDecl;
use nddl_ast::declaration::{Member, PredicatePart, Typed};
use nddl_declarations::fine_meaning;
use nddl_hierarchy::decls::members_of;
use nddl_hierarchy::lines::above;
use nddl_symbols::Meaning;
use nddl_terms::lexicon::{Attribute, Shape, copy_base};
use nddl_typeexpr::TypeMeaning;
use nddl_types::builtin::push_given_fields;
use nddl_types::classes::line_down;
use std::alloc::{AllocError, Global};

// What is declared with a type that means this.
fn attribute_with(
    alloc: Global,
    premises: &Premises<'_>,
    typed: &Typed,
    meaning: &TypeMeaning,
) -> Result<Attribute, AllocError>
    ensures { IfOk result (λ attribute. attribute ≡ attribute_with (world_of premises.now) typed.now meaning.now) }
{
    let name = typed.name.text.copy();
    let (name, shape) = both(name, shape_with(alloc, premises, meaning))?;
    Ok(Attribute { name, shape })
}

// What is declared, if nothing is wrong with its type.
fn typed_attribute(
    alloc: Global,
    premises: &Premises<'_>,
    typed: &Typed,
) -> Result<Option<Attribute>, AllocError>
    ensures { IfOk result (λ attribute. attribute ≡ typed_attribute (world_of premises.now) typed.now) }
{
    match fine_meaning(alloc, &premises.sources.basis, &typed.declared)? {
        Some(meaning) => Ok(Some(attribute_with(alloc, premises, typed, &meaning)?)),
        None => Ok(None),
    }
}

// The field that the member declares.
fn member_attribute(
    alloc: Global,
    premises: &Premises<'_>,
    member: &Member,
) -> Result<Option<Attribute>, AllocError>
    ensures { IfOk result (λ attribute. attribute ≡ member_attribute (world_of premises.now) member.now) }
{
    match member {
        Member::Field(typed) => typed_attribute(alloc, premises, typed),
        _ => Ok(None),
    }
}

// The parameter that the part declares.
fn part_attribute(
    alloc: Global,
    premises: &Premises<'_>,
    part: &PredicatePart,
) -> Result<Option<Attribute>, AllocError>
    ensures { IfOk result (λ attribute. attribute ≡ part_attribute (world_of premises.now) part.now) }
{
    match part {
        PredicatePart::Parameter(typed) => typed_attribute(alloc, premises, typed),
        PredicatePart::Constraint(_) => Ok(None),
    }
}

/// The parameters that the parts of a predicate declare.
pub fn part_attributes(
    alloc: Global,
    premises: &Premises<'_>,
    parts: &[PredicatePart],
) -> Result<Sequence<Attribute>, AllocError>
    ensures { IfOk result (λ params. params ≡ filter_map (part_attribute (world_of premises.now)) parts.now) }
{
    let mut params = Sequence::new(alloc);
    for part in parts {
        if let Some(attribute) = part_attribute(alloc, premises, part)? {
            params.push(attribute)?;
        }
    }
    Ok(params)
}

// Puts the fields that the members declare at the end.
fn push_member_attributes(
    alloc: Global,
    premises: &Premises<'_>,
    members: &[Member],
    fields: &mut Sequence<Attribute>,
) -> Result<(), AllocError>
    ensures { OnOk result (fields.new ≡ fields.old ++ filter_map (member_attribute (world_of premises.now)) members.now) }
{
    for member in members {
        if let Some(attribute) = member_attribute(alloc, premises, member)? {
            fields.push(attribute)?;
        }
    }
    Ok(())
}

// A field or a parameter that is a number.
fn number_attribute(variable: &VarDecl) -> Result<Attribute, AllocError>
    ensures { IfOk result (λ attribute. attribute ≡ number_attribute variable.now) }
{
    let name = variable.name.copy()?;
    let base = copy_base(&variable.base)?;
    Ok(Attribute {
        name,
        shape: Shape {
            kind: variable.kind,
            base,
            class: 0,
        },
    })
}

// Puts those of the variables at the end.
fn push_number_attributes(
    variables: &[VarDecl],
    fields: &mut Sequence<Attribute>,
) -> Result<(), AllocError>
    ensures { OnOk result (fields.new ≡ fields.old ++ map number_attribute variables.now) }
{
    for variable in variables {
        fields.push(number_attribute(variable)?)?;
    }
    Ok(())
}

/// Those of the variables.
pub fn number_attributes(
    alloc: Global,
    variables: &[VarDecl],
) -> Result<Sequence<Attribute>, AllocError>
    ensures { IfOk result (λ fields. fields ≡ map number_attribute variables.now) }
{
    let mut fields = Sequence::new(alloc);
    let done = push_number_attributes(variables, &mut fields);
    when(done, fields)
}

/// Puts the fields of what is extended at the end, if it is a built-in class.
pub fn push_given_attributes(
    alloc: Global,
    meaning: Option<Meaning>,
    fields: &mut Sequence<Attribute>,
) -> Result<(), AllocError>
    ensures { OnOk result (fields.new ≡ fields.old ++ map number_attribute (given_fields meaning)) }
{
    let mut given = Sequence::new(alloc);
    push_given_fields(alloc, meaning, &mut given)?;
    push_number_attributes(given.as_slice(), fields)
}

// Puts what the class of this number adds to the fields of a line at the end.
fn push_attributes_at(
    alloc: Global,
    premises: &Premises<'_>,
    entry: usize,
    fields: &mut Sequence<Attribute>,
) -> Result<(), AllocError>
    ensures { OnOk result (fields.new ≡ fields.old ++ attributes_at (world_of premises.now) entry) }
{
    let basis = &premises.sources.basis;
    let meaning = above(basis.types.scope, basis.decls, entry);
    push_given_attributes(alloc, meaning, fields)?;
    let members = members_of(basis.types.scope, basis.decls, entry);
    push_member_attributes(alloc, premises, members, fields)
}

// The fields that the classes of a line have together.
fn attributes_along(
    alloc: Global,
    premises: &Premises<'_>,
    line: &[usize],
) -> Result<Sequence<Attribute>, AllocError>
    ensures { IfOk result (λ fields. fields ≡ flat_map (attributes_at (world_of premises.now)) line.now) }
{
    let mut fields = Sequence::new(alloc);
    for entry in line {
        push_attributes_at(alloc, premises, *entry, &mut fields)?;
    }
    Ok(fields)
}

/// The fields of the class whose name has this number, those of its ancestors first.
pub fn entry_attributes(
    alloc: Global,
    premises: &Premises<'_>,
    entry: usize,
) -> Result<Sequence<Attribute>, AllocError>
    ensures { IfOk result (λ fields. fields ≡ entry_attributes (world_of premises.now) entry) }
{
    let line = line_down(alloc, &premises.sources.basis, entry)?;
    attributes_along(alloc, premises, line.as_slice())
}
