//! What is known of classes.

ghost use Rattle.std.specs.Prelude.{◌≡◌, ◌++◌, ◌∷◌, [], IfOk, OnOk, Some, map};
ghost use Rattle.nddl_types.specs.Classes.{given_fields};
ghost use Rattle.nddl_env.specs.Lexicons.{builtin_shapes, class_attributes, class_shape_of, class_shapes, entry_shape};
ghost use Rattle.nddl_env.specs.Shapes.{number_attribute, world_of};

use super::attributes::{entry_attributes, push_given_attributes};
use super::ending::when;
use super::premises::Premises;
use eu_name::sequence::Sequence;
use nddl_symbols::Meaning;
use nddl_terms::attributes::Attributes;
use nddl_terms::lexicon::{Attribute, ClassShape};
use std::alloc::{AllocError, Global};

// The fields of the class.
fn fields_of(
    alloc: Global,
    premises: &Premises<'_>,
    class: Meaning,
) -> Result<Sequence<Attribute>, AllocError>
    ensures { IfOk result (λ fields. fields ≡ class_attributes (world_of premises.now) class) }
{
    match class {
        Meaning::BuiltIn(_) => builtin_attributes(alloc, class),
        Meaning::Entry(entry) => entry_attributes(alloc, premises, entry),
    }
}

// The fields of what is extended, if it is a built-in class.
fn builtin_attributes(alloc: Global, class: Meaning) -> Result<Sequence<Attribute>, AllocError>
    ensures { IfOk result (λ fields. fields ≡ map number_attribute (given_fields (Some class))) }
{
    let mut fields = Sequence::new(alloc);
    let done = push_given_attributes(alloc, Some(class), &mut fields);
    when(done, fields)
}

// What is known of the class.
fn class_shape(
    alloc: Global,
    premises: &Premises<'_>,
    class: Meaning,
) -> Result<ClassShape, AllocError>
    ensures { IfOk result (λ shape. shape ≡ class_shape_of (world_of premises.now) class) }
{
    let fields = fields_of(alloc, premises, class)?;
    Ok(ClassShape {
        fields: Attributes::of(alloc, fields)?,
    })
}

// Puts what is known of the class behind the others.
fn push_class(
    alloc: Global,
    premises: &Premises<'_>,
    class: Meaning,
    classes: &mut Sequence<ClassShape>,
) -> Result<(), AllocError>
    ensures { OnOk result (classes.new ≡ classes.old ++ class_shape_of (world_of premises.now) class ∷ []) }
{
    let shape = class_shape(alloc, premises, class)?;
    classes.push(shape)
}

// Puts what is known of the built-in classes at the end.
fn push_builtin(
    alloc: Global,
    premises: &Premises<'_>,
    classes: &mut Sequence<ClassShape>,
) -> Result<(), AllocError>
    ensures { OnOk result (classes.new ≡ classes.old ++ builtin_shapes (world_of premises.now)) }
{
    push_class(alloc, premises, Meaning::BuiltIn(0), classes)?;
    push_class(alloc, premises, Meaning::BuiltIn(1), classes)?;
    push_class(alloc, premises, Meaning::BuiltIn(2), classes)?;
    push_class(alloc, premises, Meaning::BuiltIn(3), classes)
}

// Puts what is known of the declared classes at the end.
fn push_declared(
    alloc: Global,
    premises: &Premises<'_>,
    entries: &[usize],
    classes: &mut Sequence<ClassShape>,
) -> Result<(), AllocError>
    ensures { OnOk result (classes.new
        ≡ classes.old ++ map (entry_shape (world_of premises.now)) entries.now) }
{
    for entry in entries {
        push_class(alloc, premises, Meaning::Entry(*entry), classes)?;
    }
    Ok(())
}

/// What is known of all classes, in the order of a table.
pub fn class_shapes(
    alloc: Global,
    premises: &Premises<'_>,
) -> Result<Sequence<ClassShape>, AllocError>
    ensures { IfOk result (λ classes. classes ≡ class_shapes (world_of premises.now)) }
{
    let mut classes = Sequence::new(alloc);
    push_builtin(alloc, premises, &mut classes)?;
    push_declared(alloc, premises, premises.sources.entries, &mut classes)?;
    Ok(classes)
}
