//! The values of types that are no ranges.

ghost use Rattle.std.specs.Prelude.{◌≡◌, ◌∷◌, [], IfOk, pos, map};
ghost use Rattle.std.specs.List.{filter_map, range_with_len};
ghost use Rattle.nddl_declarations.specs.Domains.{enum_size, listed_values, place_of_member, place_of_sort};

use model_core::class::Enum;
use nddl_symbols::{Scope, Sort};
use nddl_typeexpr::{Extent, TypeKind};
use std::alloc::{AllocError, Global};

/// The values of a type of this kind.
pub fn listed_values(
    alloc: Global,
    scope: &Scope,
    enums: &[Enum],
    kind: TypeKind,
    extent: &Extent,
) -> Result<Vec<i32>, AllocError>
    ensures { IfOk result (λ values. values.items ≡ listed_values scope.now enums.now kind extent.now) }
{
    match (kind, extent) {
        (TypeKind::Bool, Extent::Whole) => truths(alloc),
        (TypeKind::Enum(number), Extent::Whole) => places_below(alloc, enum_size(enums, number)),
        (TypeKind::Enum(_), Extent::Set(members)) => member_places(
            alloc,
            scope,
            members.as_slice(),
        ),
        (_, Extent::Set(members)) => Vec::from_slice(alloc, members.as_slice()),
        _ => Ok(Vec::new(alloc)),
    }
}

fn truths(alloc: Global) -> Result<Vec<i32>, AllocError>
    ensures { IfOk result (λ values. values.items ≡ pos 0 ∷ pos 1 ∷ []) }
{
    let mut values = Vec::new(alloc);
    values.push(0)?;
    values.push(1)?;
    Ok(values)
}

// How many members the enum of this number has.
fn enum_size(enums: &[Enum], number: u32) -> usize
    ensures { result ≡ enum_size enums.now number }
{
    match enums.get(number as usize) {
        Some(found) => found.members.len(),
        None => 0,
    }
}

// The numbers below this one.
fn places_below(alloc: Global, count: usize) -> Result<Vec<i32>, AllocError>
    ensures { IfOk result (λ places. places.items ≡ map pos (range_with_len 0 count)) }
{
    let mut places = Vec::new(alloc);
    for place in 0..count {
        places.push(value_at(place)?)?;
    }
    Ok(places)
}

/// The number as a value.
pub fn value_at(place: usize) -> Result<i32, AllocError>
    ensures { IfOk result (λ value. value ≡ pos place) }
{
    if place > 2_147_483_647 {
        return Err(AllocError);
    }
    Ok(place as i32)
}

// The places in their enum of the members whose names in the scope have these numbers.
fn member_places(alloc: Global, scope: &Scope, numbers: &[i32]) -> Result<Vec<i32>, AllocError>
    ensures { IfOk result (λ places. places.items ≡ filter_map (place_of_member scope.now) numbers.now) }
{
    let mut places = Vec::new(alloc);
    for number in numbers {
        if let Some(place) = place_of_member(scope, *number)? {
            places.push(place)?;
        }
    }
    Ok(places)
}

// The place in its enum of the member whose name in the scope has this number.
fn place_of_member(scope: &Scope, number: i32) -> Result<Option<i32>, AllocError>
    ensures { IfOk result (λ place. place ≡ place_of_member scope.now number) }
{
    if number < 0 {
        return Ok(None);
    }
    match scope.names().get(number as usize) {
        Some(declared) => sort_place(declared.sort),
        None => Ok(None),
    }
}

// The place of a name of this sort in its enum.
fn sort_place(sort: Sort) -> Result<Option<i32>, AllocError>
    ensures { IfOk result (λ place. place ≡ place_of_sort sort) }
{
    match sort {
        Sort::Member { place, .. } => Ok(Some(value_at(place as usize)?)),
        _ => Ok(None),
    }
}
