//! Constraints on fields of objects.

ghost use Rattle.std.specs.Prelude.{◌↔◌, ◌<◌, ◌^◌, IsTrue, MatchOption, length};
ghost use Rattle.model_core.specs.declared.variable.ValueKind.TheVariants as value_kinds;
ghost use Rattle.model_core.specs.declared.variable.VarDecl.{VarDecl};
ghost use Rattle.model_core.specs.Kinds.{AccessesField, IsOfKind};
ghost use Rattle.model_typing.specs.declared.line.Line.TheVariants as lines;
ghost use Rattle.model_typing.specs.Ground.{AreClassParents, IsGround};
ghost use Rattle.model_typing.specs.Terms.{FieldFits, FitsOnLine, HasField, HasLocalLines, scope_of};

use super::classes::parent_of;
use super::kinds::is_of_kind;
use super::line::Line;
use super::lines::term_line;
use super::scope::TermScope;
use super::table::Classes;
use eu_forest::Parents;
use model_core::item::Term;
use model_core::model::Model;
use model_core::variable::{ValueKind, VarDecl};

/// A field of an object, and what is in it.
#[derive(Clone, Copy)]
pub struct Access {
    pub field: u32,
    pub object: Term,
    pub value: Term,
}

// The field of this number of the class.
fn field_at(model: &Model, class: u32, number: u32) -> Option<&VarDecl>
    ensures { MatchOption result
        ((variable : VarDecl) → HasField model.now class number variable → ⊥)
        (λ variable. HasField model.now class number variable.now) }
{
    match model.classes.as_slice().get(class as usize) {
        Some(found) => found.fields.as_slice().get(number as usize),
        None => None,
    }
}

// Whether the class has the field, and the value is of its kind.
fn field_fits(model: &Model, scope: TermScope<'_>, class: u32, access: Access) -> bool
    ensures { IsTrue result ↔ FieldFits model.now (scope_of scope.entry) class access.field access.value }
{
    match field_at(model, class, access.field) {
        Some(variable) => is_of_kind(model, scope, variable.kind, access.value),
        None => false,
    }
}

// Whether it is so of the class or of one that it extends.
fn fits_above(
    model: &Model,
    parents: &Parents,
    scope: TermScope<'_>,
    first: u32,
    access: Access,
) -> bool
    requires { AreClassParents model.now parents.now }
    ensures { IsTrue result ↔ FitsOnLine model.now (scope_of scope.entry) (lines.From first) access.field access.value }
{
    let mut class = first;
    while !field_fits(model, scope, class, access) {
        match parent_of(model, class) {
            Some(parent) => class = parent,
            None => return false,
        }
    }
    true
}

// Whether it is so of any class.
fn fits_any(model: &Model, scope: TermScope<'_>, access: Access) -> bool
    requires { length model.now.classes < 2 ^ 32 }
    ensures { IsTrue result ↔ FitsOnLine model.now (scope_of scope.entry) lines.Every access.field access.value }
{
    for class in 0..model.classes.len() {
        if field_fits(model, scope, class as u32, access) {
            return true;
        }
    }
    false
}

// Whether it is so of a class of the line.
fn fits_on_line(
    model: &Model,
    classes: &Classes,
    scope: TermScope<'_>,
    line: Line,
    access: Access,
) -> bool
    requires { IsGround model.now classes.now }
    ensures { IsTrue result ↔ FitsOnLine model.now (scope_of scope.entry) line access.field access.value }
{
    match line {
        Line::From(first) => fits_above(model, &classes.parents, scope, first, access),
        Line::Every => fits_any(model, scope, access),
        Line::Nothing => false,
    }
}

// Whether the value fits the field of what is accessed, which is an object.
fn accesses_object(model: &Model, classes: &Classes, scope: TermScope<'_>, access: Access) -> bool
    requires ground { IsGround model.now classes.now }
    requires scoped { HasLocalLines model.now scope }
    ensures { IsOfKind model.now (scope_of scope.entry) value_kinds.Object access.object
        → (IsTrue result ↔ AccessesField model.now (scope_of scope.entry) access.field access.object access.value) }
{
    let line = term_line(model, classes, scope, access.object);
    fits_on_line(model, classes, scope, line, access)
}

/// Whether the object has the field, and the value is of its kind.
pub fn accesses_field(
    model: &Model,
    classes: &Classes,
    scope: TermScope<'_>,
    access: Access,
) -> bool
    requires ground { IsGround model.now classes.now }
    requires scoped { HasLocalLines model.now scope }
    ensures { IsTrue result ↔ AccessesField model.now (scope_of scope.entry) access.field access.object access.value }
{
    is_of_kind(model, scope, ValueKind::Object, access.object)
        && accesses_object(model, classes, scope, access)
}
