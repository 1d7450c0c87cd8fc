//! Which values a formal and a field may have.

ghost use Rattle.std.specs.Prelude.{◌≡◌, IfOk, pos};
ghost use Rattle.nddl_construction.specs.Fitting.{datum_number, is_datum_within, is_foreign_datum, is_number_within, is_outside_meaning, is_outside_type};
ghost use Rattle.nddl_construction.specs.declared.made.Datum.TheVariants.{Object};
ghost use Rattle.nddl_construction.specs.Scene.{grounds_of};

use super::made::{Datum, Ground, MadeObject};
use nddl_ast::expression::Type;
use nddl_constructors::creations::is_of_class;
use nddl_typeexpr::types::type_meaning;
use nddl_typeexpr::{Extent, TypeKind, TypeMeaning};
use std::alloc::{AllocError, Global};

/// Whether the value is an object that isn't of the class of this kind.
pub fn is_foreign_datum(
    alloc: Global,
    footing: &Ground<'_>,
    objects: &[MadeObject],
    kind: Option<TypeKind>,
    datum: Option<Datum>,
) -> Result<bool, AllocError>
    ensures { IfOk result (λ foreign. foreign ≡ is_foreign_datum (grounds_of footing.now) objects.now kind datum) }
{
    match (kind, datum) {
        (Some(TypeKind::Object(class)), Some(Datum::Object(number))) => match objects.get(number) {
            Some(object) => {
                let so = is_of_class(alloc, &footing.basis, class, object.class)?;
                Ok(!so)
            }
            None => Ok(false),
        },
        _ => Ok(false),
    }
}

// The number of a name as a value; there is no memory for 2^31 names.
fn name_number(entry: usize) -> Result<i32, AllocError>
    ensures { IfOk result (λ number. number ≡ pos entry) }
{
    if entry > 2_147_483_647 {
        return Err(AllocError);
    }
    Ok(entry as i32)
}

// The number that a written set has of the value.
fn datum_number(objects: &[MadeObject], datum: Datum) -> Result<Option<i32>, AllocError>
    ensures { IfOk result (λ number. number ≡ datum_number objects.now datum) }
{
    match datum {
        Datum::Number(number) => Ok(Some(number)),
        Datum::Decimal(thousandths) => Ok(Some(thousandths)),
        Datum::Truth(truth) => Ok(Some(if truth { 1 } else { 0 })),
        Datum::Member(entry) => Ok(Some(name_number(entry)?)),
        Datum::Object(number) => object_number(objects, number),
    }
}

// That of the object of this number.
fn object_number(objects: &[MadeObject], number: usize) -> Result<Option<i32>, AllocError>
    ensures { IfOk result (λ found. found ≡ datum_number objects.now (Object number)) }
{
    match objects.get(number) {
        Some(object) => match object.entry {
            Some(entry) => Ok(Some(name_number(entry)?)),
            None => Ok(None),
        },
        None => Ok(None),
    }
}

// Whether the value is one of these.
fn is_datum_within(
    objects: &[MadeObject],
    extent: &Extent,
    datum: Datum,
) -> Result<bool, AllocError>
    ensures { IfOk result (λ within. within ≡ is_datum_within objects.now extent.now datum) }
{
    match extent {
        Extent::Whole => Ok(true),
        Extent::Range { .. } => is_number_within(objects, extent, datum),
        Extent::Set(_) => is_number_within(objects, extent, datum),
    }
}

// Whether the number of the value is one of these.
fn is_number_within(
    objects: &[MadeObject],
    extent: &Extent,
    datum: Datum,
) -> Result<bool, AllocError>
    ensures { IfOk result (λ within. within ≡ is_number_within objects.now extent.now datum) }
{
    match datum_number(objects, datum)? {
        Some(number) => Ok(extent.has(number)),
        None => Ok(false),
    }
}

/// Whether the value lies outside of what a type means.
pub fn is_outside_meaning(
    alloc: Global,
    footing: &Ground<'_>,
    objects: &[MadeObject],
    datum: Datum,
    meaning: &TypeMeaning,
) -> Result<bool, AllocError>
    ensures { IfOk result (λ outside. outside ≡ is_outside_meaning (grounds_of footing.now) objects.now datum meaning.now) }
{
    let is_foreign = is_foreign_datum(alloc, footing, objects, Some(meaning.kind), Some(datum))?;
    let is_within = is_datum_within(objects, &meaning.extent, datum)?;
    Ok(is_foreign || !is_within)
}

/// Whether the value lies outside of the type.
pub fn is_outside_type(
    alloc: Global,
    footing: &Ground<'_>,
    objects: &[MadeObject],
    written: &Type,
    datum: Option<Datum>,
) -> Result<bool, AllocError>
    ensures { IfOk result (λ outside. outside ≡ is_outside_type (grounds_of footing.now) objects.now written.now datum) }
{
    match datum {
        Some(datum) => match type_meaning(alloc, &footing.basis.types, written)? {
            Some(meaning) => is_outside_meaning(alloc, footing, objects, datum, &meaning),
            None => Ok(false),
        },
        None => Ok(false),
    }
}
