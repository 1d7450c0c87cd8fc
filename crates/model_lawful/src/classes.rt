//! Classes.

ghost use Rattle.std.specs.Prelude.{◌↔◌, ◌≢◌, All, AllPairs, IfOk, IsTrue};
ghost use Rattle.eu_name.specs.Word.{IsName};
ghost use Rattle.model_core.specs.Lawful.{ExtendsFields, IsLawfulVariable};
ghost use Rattle.model_core.specs.Naming.{names_of};
ghost use Rattle.model_lawful.specs.Classes.{Extends, IsLawfulBeside, HasLawfulMembers};

use super::equal::begin_with;
use eu_name::is_name;
use model_core::class::Class;
use model_core::model::Model;
use model_rules::distinct::are_distinct;
use model_rules::forms::{Form, have_form};
use model_typing::finding::class_at;
use model_typing::values::are_lawful_variables;
use std::alloc::{AllocError, Global};

// Whether the class has the fields of the one of this number, and then its own.
fn extends_fields(model: &Model, class: &Class, parent: u32) -> bool
    ensures { IsTrue result ↔ ExtendsFields model.now class.now parent }
{
    match class_at(model, parent) {
        Some(above) => begin_with(class.fields.as_slice(), above.fields.as_slice()),
        None => false,
    }
}

// Whether the class has the fields of the one that it extends, and then its own.
fn extends(model: &Model, class: &Class) -> bool
    ensures { IsTrue result ↔ Extends model.now class.now }
{
    match class.parent {
        Some(parent) => extends_fields(model, class, parent),
        None => true,
    }
}

// Whether no two fields of the class have one name.
fn are_fields_distinct(alloc: Global, class: &Class) -> Result<bool, AllocError>
    ensures { IfOk result (λ answer. IsTrue answer ↔ AllPairs ◌≢◌ (names_of class.now.fields)) }
{
    are_distinct(alloc, class.fields.as_slice())
}

// Whether the class has a name.
fn is_named(class: &Class) -> bool
    ensures { IsTrue result ↔ IsName class.now.name }
{
    is_name(class.name.as_bytes())
}

// Whether the fields of the class are lawful variables.
fn has_lawful_fields(model: &Model, class: &Class) -> bool
    ensures { IsTrue result ↔ All (IsLawfulVariable model.now) class.now.fields }
{
    are_lawful_variables(model, class.fields.as_slice())
}

// Whether the fields of the class have names.
fn has_named_fields(class: &Class) -> bool
    ensures { IsTrue result ↔ All IsName (names_of class.now.fields) }
{
    have_form(Form::Plain, class.fields.as_slice())
}

// Whether all is lawful of the class but perhaps the names of its fields, and that it is on a circle.
fn is_lawful_beside(model: &Model, class: &Class) -> bool
    ensures { IsTrue result ↔ IsLawfulBeside model.now class.now }
{
    is_named(class) && extends(model, class) && has_lawful_fields(model, class)
}

// Whether all is lawful of the class but perhaps that it is on a circle.
fn has_lawful_members(alloc: Global, model: &Model, class: &Class) -> Result<bool, AllocError>
    ensures { IfOk result (λ answer. IsTrue answer ↔ HasLawfulMembers model.now class.now) }
{
    let distinct = are_fields_distinct(alloc, class)?;
    if !distinct {
        return Ok(false);
    }
    if !is_lawful_beside(model, class) {
        return Ok(false);
    }
    Ok(has_named_fields(class))
}

/// Whether it is so of all of them.
pub fn have_lawful_members(
    alloc: Global,
    model: &Model,
    classes: &[Class],
) -> Result<bool, AllocError>
    ensures { IfOk result (λ answer. IsTrue answer ↔ All (HasLawfulMembers model.now) classes.now) }
{
    for class in classes {
        if !has_lawful_members(alloc, model, class)? {
            return Ok(false);
        }
    }
    Ok(true)
}
