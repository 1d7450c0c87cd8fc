//! Objects.

ghost use Rattle.std.specs.Prelude.{◌↔◌, All, IsTrue};
ghost use Rattle.std.specs.List.{AllZip};
ghost use Rattle.model_core.specs.Kinds.{IsValueOf};
ghost use Rattle.model_core.specs.Lawful.{IsLawfulKind, IsLawfulObject};
ghost use Rattle.model_core.specs.Naming.{IsObjectName};
ghost use Rattle.model_lawful.specs.Parts.{IsOfItsClass};

use domain_core::number::is_value;
use model_core::class::{Class, Object, ObjectKind};
use model_core::model::Model;
use model_core::variable::VarDecl;
use model_rules::forms::is_object_name;
use model_typing::finding::class_at;
use model_typing::values::is_value_of;

// Whether the capacity isn't negative, or the level begins within its limits.
fn is_lawful_kind(kind: ObjectKind) -> bool
    ensures { IsTrue result ↔ IsLawfulKind kind }
{
    match kind {
        ObjectKind::Plain => true,
        ObjectKind::Timeline => true,
        ObjectKind::Reusable { capacity } => is_value(capacity) && 0 <= capacity,
        ObjectKind::Reservoir { initial, low, high } => {
            is_value(low) && is_value(high) && low <= initial && initial <= high
        }
    }
}

// Whether there is one value for each variable, of its kind.
fn are_values_of(model: &Model, variables: &[VarDecl], values: &[i32]) -> bool
    ensures { IsTrue result ↔ AllZip (λ variable value. IsValueOf model.now variable.kind value) variables.now values.now }
{
    let mut left = values;
    for variable in variables {
        match left.split_first() {
            Some((value, others)) => {
                if !is_value_of(model, variable.kind, *value) {
                    return false;
                }
                left = others;
            }
            None => return false,
        }
    }
    left.is_empty()
}

// Whether the object has one value for each field of the class, of its kind.
fn has_field_values(model: &Model, class: &Class, object: &Object) -> bool
    ensures { IsTrue result ↔ AllZip (λ variable value. IsValueOf model.now variable.kind value) class.now.fields object.now.fields }
{
    are_values_of(model, class.fields.as_slice(), object.fields.as_slice())
}

// Whether the object has a name that objects may have.
fn is_named(object: &Object) -> bool
    ensures { IsTrue result ↔ IsObjectName object.now.name }
{
    is_object_name(object.name.as_bytes())
}

// Whether the object has a name, and one value for each field of the class.
fn is_of_class(model: &Model, class: &Class, object: &Object) -> bool
    ensures { IsTrue result ↔ IsOfItsClass model.now class.now object.now }
{
    if !is_named(object) {
        return false;
    }
    if !has_field_values(model, class, object) {
        return false;
    }
    is_lawful_kind(object.kind)
}

// Whether the object is of a class that there is, and lawful as one of it.
fn is_lawful_object(model: &Model, object: &Object) -> bool
    ensures { IsTrue result ↔ IsLawfulObject model.now object.now }
{
    match class_at(model, object.class) {
        Some(class) => is_of_class(model, class, object),
        None => false,
    }
}

/// Whether the objects are all lawful.
pub fn are_lawful_objects(model: &Model, objects: &[Object]) -> bool
    ensures { IsTrue result ↔ All (IsLawfulObject model.now) objects.now }
{
    objects.iter().all(|object| is_lawful_object(model, object))
}
