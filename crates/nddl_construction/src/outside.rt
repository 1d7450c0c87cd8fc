//! Whether values that constructors give to fields lie outside of the fields' types.

ghost use Rattle.std.specs.Prelude.{◌≡◌, IfOk, Some, map, slice_get};
ghost use Rattle.std.specs.List.{filter_map};
ghost use Rattle.std.specs.Option.{option_and_then, option_map};
ghost use Rattle.nddl_hierarchy.specs.Decls.{members_of, number_with_body};
ghost use Rattle.nddl_hierarchy.specs.Facts.{facts_of};
ghost use Rattle.nddl_hierarchy.specs.Members.{field_declared, member_field, named_typed};
ghost use Rattle.nddl_construction.specs.Fitting.{is_outside_type};
ghost use Rattle.nddl_construction.specs.Scene.{grounds_of};
ghost use Rattle.nddl_construction.specs.Kept.{AreFieldTypes};
ghost use Rattle.nddl_construction.specs.Outside.{is_outside_along, is_outside_field, is_outside_known};

use super::kept::FieldTypes;
use crate::fitting::is_outside_meaning;
use crate::{Datum, Ground, MadeObject, is_outside_type};
use eu_name::text::Text;
use nddl_ast::declaration::Typed;
use nddl_hierarchy::adding_line;
use nddl_hierarchy::decls::number_with_body;
use nddl_symbols::Scope;
use nddl_typeexpr::TypeMeaning;
use std::alloc::{AllocError, Global};

// A field with the number of the declaration in which it stands, and the name by which it is found there.
#[derive(Clone, Copy)]
struct FoundField<'a> {
    number: usize,
    name: &'a Text,
    typed: &'a Typed,
}

/// Whether the value of the field of this name, which a constructor of the class of this number sets, lies outside of its
/// type.
pub fn is_outside_field(
    alloc: Global,
    footing: &Ground<'_>,
    types: &FieldTypes,
    objects: &[MadeObject],
    entry: usize,
    name: &Text,
    value: Option<Datum>,
) -> Result<bool, AllocError>
    requires { AreFieldTypes (facts_of footing.now.basis) types.now }
    ensures { IfOk result (λ outside.
        outside ≡ is_outside_field (grounds_of footing.now) objects.now entry name.now value) }
{
    let line = adding_line(alloc, &footing.basis, entry)?;
    is_outside_along(alloc, footing, types, objects, line.as_slice(), name, value)
}

// Whether the value lies outside the type of the first field of this name along the line, if there is one.
fn is_outside_along(
    alloc: Global,
    footing: &Ground<'_>,
    types: &FieldTypes,
    objects: &[MadeObject],
    line: &[usize],
    name: &Text,
    value: Option<Datum>,
) -> Result<bool, AllocError>
    requires { AreFieldTypes (facts_of footing.now.basis) types.now }
    ensures { IfOk result (λ outside.
        outside ≡ is_outside_along (grounds_of footing.now) objects.now name.now value line.now) }
{
    for entry in line {
        let found = is_outside_own(alloc, footing, types, objects, *entry, name, value)?;
        if let Some(outside) = found {
            return Ok(outside);
        }
    }
    Ok(false)
}

// Whether it lies outside the type of the field that the class of this number declares itself; None without one.
fn is_outside_own(
    alloc: Global,
    footing: &Ground<'_>,
    types: &FieldTypes,
    objects: &[MadeObject],
    entry: usize,
    name: &Text,
    value: Option<Datum>,
) -> Result<Option<bool>, AllocError>
    requires { AreFieldTypes (facts_of footing.now.basis) types.now }
    ensures { IfOk result (λ found. found ≡ option_map
        (λ typed. is_outside_type (grounds_of footing.now) objects.now typed.declared value)
        (named_typed name.now (filter_map member_field (members_of (facts_of footing.now.basis).names
        (facts_of footing.now.basis).program entry)))) }
{
    match body_number(footing.basis.types.scope, entry) {
        Some(number) => is_outside_declared(alloc, footing, types, objects, number, name, value),
        None => Ok(None),
    }
}

// The number of the declaration that has the members of the class of this number.
fn body_number(scope: &Scope, entry: usize) -> Option<usize>
    ensures { result ≡ option_and_then (number_with_body scope.now) (slice_get scope.now entry) }
{
    let declared = scope.names().get(entry)?;
    number_with_body(scope, declared)
}

// Whether it lies outside the type of the field in the declaration of this number; None without one of this name.
fn is_outside_declared(
    alloc: Global,
    footing: &Ground<'_>,
    types: &FieldTypes,
    objects: &[MadeObject],
    number: usize,
    name: &Text,
    value: Option<Datum>,
) -> Result<Option<bool>, AllocError>
    requires { AreFieldTypes (facts_of footing.now.basis) types.now }
    ensures { IfOk result (λ found. found ≡ option_map
        (λ typed. is_outside_type (grounds_of footing.now) objects.now typed.declared value)
        (field_declared (facts_of footing.now.basis).program number name.now)) }
{
    match footing.basis.members.field(number, name) {
        Some(typed) => {
            let field = FoundField {
                number,
                name,
                typed,
            };
            let outside = is_outside_found(alloc, footing, types, objects, &field, value)?;
            Ok(Some(outside))
        }
        None => Ok(None),
    }
}

// Whether the value lies outside the type of this field, by what is kept of the type, if anything is.
fn is_outside_found(
    alloc: Global,
    footing: &Ground<'_>,
    types: &FieldTypes,
    objects: &[MadeObject],
    field: &FoundField<'_>,
    value: Option<Datum>,
) -> Result<bool, AllocError>
    requires types { AreFieldTypes (facts_of footing.now.basis) types.now }
    requires found { field_declared (facts_of footing.now.basis).program field.now.number field.now.name.now
        ≡ Some field.now.typed.now }
    ensures { IfOk result (λ outside.
        outside ≡ is_outside_type (grounds_of footing.now) objects.now field.now.typed.now.declared value) }
{
    match types.meaning(field.number, field.name) {
        Some(meaning) => is_outside_known(alloc, footing, objects, meaning, value),
        None => is_outside_type(alloc, footing, objects, &field.typed.declared, value),
    }
}

// Whether the value lies outside what the type of a field means; without a value or a meaning it doesn't.
fn is_outside_known(
    alloc: Global,
    footing: &Ground<'_>,
    objects: &[MadeObject],
    meaning: &Option<TypeMeaning>,
    value: Option<Datum>,
) -> Result<bool, AllocError>
    ensures { IfOk result (λ outside. outside ≡ is_outside_known (grounds_of footing.now) objects.now meaning.now value) }
{
    match (value, meaning) {
        (Some(datum), Some(meaning)) => is_outside_meaning(alloc, footing, objects, datum, meaning),
        _ => Ok(false),
    }
}
