//! The objects of classes and of written sets, as what variables may be.

ghost use Rattle.std.specs.Prelude.{◌≡◌, ◌++◌, ◌∷◌, [], IfOk, IfSome, OnOk, map, pos};
ghost use Rattle.std.specs.List.{filter_map};
ghost use Rattle.nddl_hierarchy.specs.Facts.{facts_of};
ghost use Rattle.nddl_declarations.specs.Domains.{numbers_base};
ghost use Rattle.nddl_env.specs.Listing.{class_population};
ghost use Rattle.nddl_env.specs.Objects.{entry_object, made_object, objects_base, objects_of};

use super::listing::is_numbered;
use super::premises::Premises;
use eu_name::sequence::Sequence;
use model_core::variable::Base;
use nddl_construction::reading::named_object_at;
use nddl_construction::{Datum, MadeObject, NamedObject};
use nddl_constructors::creations::is_of_class;
use nddl_declarations::domains::numbers_base;
use nddl_declarations::values::value_at;
use nddl_hierarchy::Basis;
use nddl_symbols::Meaning;
use nddl_typeexpr::Extent;
use nddl_types::numbers::class_number;
use std::alloc::{AllocError, Global};

// Puts the object at the end, if it is of the class or of one under it.
fn push_object(
    alloc: Global,
    basis: &Basis<'_>,
    class: Meaning,
    number: usize,
    object: &MadeObject,
    values: &mut Sequence<i32>,
) -> Result<(), AllocError>
    ensures { OnOk result (values.new ≡ values.old
        ++ map pos (objects_of (facts_of basis.now) class number (object.now ∷ []))) }
{
    if is_of_class(alloc, basis, class, object.class)? {
        values.push(value_at(number)?)?;
    }
    Ok(())
}

/// The objects that are of the class or of one under it, as values, one after another.
pub fn class_population(
    alloc: Global,
    basis: &Basis<'_>,
    class: Meaning,
    objects: &[MadeObject],
) -> Result<Sequence<i32>, AllocError>
    ensures { IfOk result (λ values. values ≡ class_population (facts_of basis.now) objects.now class) }
{
    let mut values = Sequence::new(alloc);
    for (number, object) in objects.iter().enumerate() {
        push_object(alloc, basis, class, number, object, &mut values)?;
    }
    Ok(values)
}

/// The object that a name of the files stands for.
pub fn made_object(named_object: Option<NamedObject>) -> Result<Option<i32>, AllocError>
    ensures { IfOk result (λ object. object ≡ made_object named_object) }
{
    match named_object {
        Some(NamedObject::Made(Some(Datum::Object(number)))) => Ok(Some(value_at(number)?)),
        _ => Ok(None),
    }
}

// The object whose name has this number in the scope.
fn entry_object(named_objects: &[NamedObject], entry: i32) -> Result<Option<i32>, AllocError>
    ensures { IfOk result (λ object. object ≡ entry_object named_objects.now entry) }
{
    if entry < 0 {
        return Ok(None);
    }
    made_object(named_object_at(named_objects, entry as usize))
}

// The objects whose names have these numbers in the scope.
fn entry_objects(
    alloc: Global,
    named_objects: &[NamedObject],
    entries: &[i32],
) -> Result<Vec<i32>, AllocError>
    ensures { IfOk result (λ objects. objects.items ≡ filter_map (entry_object named_objects.now) entries.now) }
{
    let mut objects = Vec::new(alloc);
    for entry in entries {
        if let Some(object) = entry_object(named_objects, *entry)? {
            objects.push(object)?;
        }
    }
    Ok(objects)
}

// What a variable of the written set may be.
fn written_base(
    alloc: Global,
    named_objects: &[NamedObject],
    entries: &[i32],
) -> Result<Base, AllocError>
    ensures { IfOk result (λ base. base ≡ numbers_base (filter_map (entry_object named_objects.now) entries.now)) }
{
    let objects = entry_objects(alloc, named_objects, entries)?;
    numbers_base(alloc, objects.as_slice())
}

// The objects of the class, if they are listed.
fn listed<'a>(premises: &Premises<'a>, class: Meaning) -> Option<&'a [i32]>
    ensures { IfSome result (λ values. values.now
        ≡ class_population (facts_of premises.now.sources.basis) premises.now.objects.now class) }
{
    let sources = &premises.sources;
    let number = class_number(sources.basis.types.scope, sources.numbers, class) as usize;
    if is_numbered(sources.entries, number, class) {
        Some(premises.by_class.objects(number))
    } else {
        None
    }
}

// What a variable of the class may be: all of its objects.
fn class_base(alloc: Global, premises: &Premises<'_>, class: Meaning) -> Result<Base, AllocError>
    ensures { IfOk result (λ base. base ≡ numbers_base
        (class_population (facts_of premises.now.sources.basis) premises.now.objects.now class)) }
{
    match listed(premises, class) {
        Some(values) => numbers_base(alloc, values),
        None => {
            let values = class_population(alloc, &premises.sources.basis, class, premises.objects)?;
            numbers_base(alloc, values.as_slice())
        }
    }
}

/// What a variable of the class may be: the objects that are written out, or all.
pub fn objects_base(
    alloc: Global,
    premises: &Premises<'_>,
    class: Meaning,
    extent: &Extent,
) -> Result<Base, AllocError>
    ensures { IfOk result (λ base. base ≡ objects_base (facts_of premises.now.sources.basis)
        premises.now.named_objects.now premises.now.objects.now class extent.now) }
{
    match extent {
        Extent::Set(members) => written_base(alloc, premises.named_objects, members.as_slice()),
        _ => class_base(alloc, premises, class),
    }
}
