//! Objects as a model has them.

ghost use Rattle.std.specs.Prelude.{◌≡◌, ◌++◌, ◌∷◌, [], IfOk, OnOk};
ghost use Rattle.nddl_hierarchy.specs.Facts.{facts_of};
ghost use Rattle.nddl_types.specs.Classes.{class_numbers};
ghost use Rattle.nddl_objects.specs.Modelled.{builtin_of, datum_value, field_value, field_values, fields_of_class, member_value, modelled_object, modelled_objects, object_kind};
ghost use Rattle.nddl_construction.specs.declared.made.Datum.TheVariants.{Member};
ghost use Rattle.std.specs.Prelude.{Some};

use eu_name::sequence::Sequence;
use eu_name::text::Text;
use model_core::class::{Class, Object, ObjectKind};
use model_core::variable::VarDecl;
use nddl_construction::{Datum, MadeObject, SetFields};
use nddl_constructors::wants::builtin_above;
use nddl_declarations::values::value_at;
use nddl_hierarchy::Basis;
use nddl_symbols::{Meaning, Scope, Sort};
use nddl_types::numbers::class_number;
use std::alloc::{AllocError, Global};

// A member is its place in its enum.
fn member_value(sort: Sort) -> Result<i32, AllocError>
    ensures { IfOk result (λ value. value ≡ member_value sort) }
{
    match sort {
        Sort::Member { place, .. } => value_at(place as usize),
        _ => Ok(0),
    }
}

// The value of the member whose name has this number.
fn entry_value(scope: &Scope, entry: usize) -> Result<i32, AllocError>
    ensures { IfOk result (λ value. value ≡ datum_value scope.now (Some (Member entry))) }
{
    match scope.names().get(entry) {
        Some(declared) => member_value(declared.sort),
        None => Ok(0),
    }
}

/// The number that the value has in a model.
pub fn datum_value(scope: &Scope, datum: Option<Datum>) -> Result<i32, AllocError>
    ensures { IfOk result (λ value. value ≡ datum_value scope.now datum) }
{
    match datum {
        None => Ok(0),
        Some(Datum::Number(number)) => Ok(number),
        Some(Datum::Decimal(thousandths)) => Ok(thousandths),
        Some(Datum::Truth(truth)) => Ok(if truth { 1 } else { 0 }),
        Some(Datum::Member(entry)) => entry_value(scope, entry),
        Some(Datum::Object(number)) => value_at(number),
    }
}

// That of the value to which the field of this name is set.
fn field_value(scope: &Scope, fields: &SetFields, name: &Text) -> Result<i32, AllocError>
    ensures { IfOk result (λ value. value ≡ field_value scope.now fields.now name.now) }
{
    datum_value(scope, fields.datum(name))
}

// The number of the value to which the field of a built-in class is set, whose name is this word.
fn word_value(
    alloc: Global,
    scope: &Scope,
    fields: &SetFields,
    name: &str,
) -> Result<i32, AllocError>
    ensures { IfOk result (λ value. value ≡ field_value scope.now fields.now name.now) }
{
    let name = Text::from_str(alloc, name)?;
    field_value(scope, fields, &name)
}

// Those of the fields of a class, in their order.
fn field_values(
    alloc: Global,
    scope: &Scope,
    fields: &SetFields,
    variables: &[VarDecl],
) -> Result<Sequence<i32>, AllocError>
    ensures { IfOk result (λ values. values ≡ field_values scope.now fields.now variables.now) }
{
    let mut values = Sequence::new(alloc);
    for variable in variables {
        values.push(field_value(scope, fields, &variable.name)?)?;
    }
    Ok(values)
}

// The built-in class of an object of this class.
fn builtin_of(alloc: Global, basis: &Basis<'_>, class: Meaning) -> Result<u32, AllocError>
    ensures { IfOk result (λ number. number ≡ builtin_of (facts_of basis.now) class) }
{
    match class {
        Meaning::BuiltIn(number) => Ok(number),
        Meaning::Entry(entry) => builtin_above(alloc, basis, entry),
    }
}

// What a reservoir means for the tokens on it.
fn reservoir(alloc: Global, scope: &Scope, fields: &SetFields) -> Result<ObjectKind, AllocError>
    ensures { IfOk result (λ kind. kind ≡ object_kind scope.now fields.now 3) }
{
    let initial = word_value(alloc, scope, fields, "initial")?;
    let low = word_value(alloc, scope, fields, "low")?;
    let high = word_value(alloc, scope, fields, "high")?;
    Ok(ObjectKind::Reservoir { initial, low, high })
}

// What an object of this built-in class means for the tokens on it.
fn object_kind(
    alloc: Global,
    scope: &Scope,
    fields: &SetFields,
    number: u32,
) -> Result<ObjectKind, AllocError>
    ensures { IfOk result (λ kind. kind ≡ object_kind scope.now fields.now number) }
{
    if number == 1 {
        Ok(ObjectKind::Timeline)
    } else if number == 2 {
        let capacity = word_value(alloc, scope, fields, "capacity")?;
        Ok(ObjectKind::Reusable { capacity })
    } else if number == 3 {
        reservoir(alloc, scope, fields)
    } else {
        Ok(ObjectKind::Plain)
    }
}

// The fields of the class of this number.
fn fields_of_class(classes: &[Class], number: u32) -> &[VarDecl]
    ensures { result.now ≡ fields_of_class classes.now number }
{
    match classes.get(number as usize) {
        Some(class) => class.fields.as_slice(),
        None => &[],
    }
}

// The object as the model has it, of which these are the classes.
fn modelled_object(
    alloc: Global,
    basis: &Basis<'_>,
    numbers: &[u32],
    classes: &[Class],
    object: &MadeObject,
) -> Result<Object, AllocError>
    requires { numbers.now ≡ class_numbers basis.now.types.scope.now 4 0 basis.now.types.scope.now }
    ensures { IfOk result (λ made. made ≡ modelled_object (facts_of basis.now) classes.now object.now) }
{
    let scope = basis.types.scope;
    let class = class_number(scope, numbers, object.class);
    let made = &object.fields;
    let builtin = builtin_of(alloc, basis, object.class)?;
    let kind = object_kind(alloc, scope, made, builtin)?;
    let name = object.name.copy()?;
    let fields = field_values(alloc, scope, made, fields_of_class(classes, class))?;
    Ok(Object {
        name,
        class,
        fields,
        kind,
    })
}

// Puts the object behind the others.
fn push_modelled(
    alloc: Global,
    basis: &Basis<'_>,
    numbers: &[u32],
    classes: &[Class],
    object: &MadeObject,
    made: &mut Sequence<Object>,
) -> Result<(), AllocError>
    requires { numbers.now ≡ class_numbers basis.now.types.scope.now 4 0 basis.now.types.scope.now }
    ensures { OnOk result (made.new ≡ made.old ++ modelled_object (facts_of basis.now) classes.now object.now ∷ []) }
{
    let object = modelled_object(alloc, basis, numbers, classes, object)?;
    made.push(object)
}

/// The objects as the model has them, of which these are the classes, numbered like this.
pub fn modelled_objects(
    alloc: Global,
    basis: &Basis<'_>,
    numbers: &[u32],
    classes: &[Class],
    objects: &[MadeObject],
) -> Result<Sequence<Object>, AllocError>
    requires { numbers.now ≡ class_numbers basis.now.types.scope.now 4 0 basis.now.types.scope.now }
    ensures { IfOk result (λ made. made ≡ modelled_objects (facts_of basis.now) classes.now objects.now) }
{
    let mut made = Sequence::new(alloc);
    for object in objects {
        push_modelled(alloc, basis, numbers, classes, object, &mut made)?;
    }
    Ok(made)
}
