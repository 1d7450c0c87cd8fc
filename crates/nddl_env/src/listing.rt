//! The objects of each class, listed once.

ghost use Rattle.std.specs.Prelude.{◌≡◌, ◌+◌, ◌==◌, ◌++◌, ◌∷◌, [], false, IfOk, IfSome, IsTrue, OnOk, map, slice_get};
ghost use Rattle.std.specs.List.{range_with_len};
ghost use Rattle.std.specs.Option.{option_map_or};
ghost use Rattle.eu_forest.specs.Members.{AreMembers, list_at};
ghost use Rattle.nddl_hierarchy.specs.Facts.{facts_of};
ghost use Rattle.nddl_types.specs.Classes.{class_entries};
ghost use Rattle.nddl_env.specs.Listing.{HasKnownLine, HaveKnownLines, behind_builtin, builtin_populations, class_population, entry_population, is_numbered, owner_of, owners_of, populations, populations_with};

use super::objects::class_population;
use eu_forest::members::Listed;
use eu_forest::{Members, gather};
use eu_name::sequence::Sequence;
use nddl_construction::MadeObject;
use nddl_hierarchy::Basis;
use nddl_symbols::Meaning;
use nddl_terms::Populations;
use std::alloc::{AllocError, Global};

/// Whether the class stands at this number, where the names of the declared ones have these numbers.
pub fn is_numbered(entries: &[usize], number: usize, class: Meaning) -> bool
    ensures { result ≡ is_numbered entries.now number class }
{
    match class {
        Meaning::BuiltIn(builtin) => builtin < 4 && builtin as usize == number,
        Meaning::Entry(entry) => 4 <= number && stands_at(entries, number - 4, entry),
    }
}

// Whether the number stands at the place.
fn stands_at(entries: &[usize], place: usize, entry: usize) -> bool
    ensures { result ≡ option_map_or (λ other. other == entry) (slice_get entries.now place) false }
{
    match entries.get(place) {
        Some(other) => *other == entry,
        None => false,
    }
}

// The number of the name of the class, if it is declared in the files.
fn owner_of(class: Meaning) -> Option<usize>
    ensures { result ≡ owner_of class }
{
    match class {
        Meaning::BuiltIn(_) => None,
        Meaning::Entry(entry) => Some(entry),
    }
}

// For each object the number of the name of its class, if that is declared in the files.
fn owners_of(alloc: Global, objects: &[MadeObject]) -> Result<Vec<Option<usize>>, AllocError>
    ensures { IfOk result (λ owners. owners.items ≡ owners_of objects.now) }
{
    let mut owners = Vec::new(alloc);
    for object in objects {
        owners.push(owner_of(object.class))?;
    }
    Ok(owners)
}

// Whether what the class leads up to is known to end.
fn has_known_line(basis: &Basis<'_>, class: Meaning) -> bool
    ensures { IsTrue result → HasKnownLine (facts_of basis.now) class }
{
    match class {
        Meaning::BuiltIn(_) => true,
        Meaning::Entry(entry) => {
            basis.types.scope.is_class(entry) && basis.parents.root(entry).is_some()
        }
    }
}

// Whether it is so of the class of each object.
fn have_known_lines(basis: &Basis<'_>, objects: &[MadeObject]) -> bool
    ensures { IsTrue result → HaveKnownLines (facts_of basis.now) objects.now }
{
    for object in objects {
        if !has_known_line(basis, object.class) {
            return false;
        }
    }
    true
}

// The objects of all names, if they could be found in one pass.
fn gathered(
    alloc: Global,
    basis: &Basis<'_>,
    objects: &[MadeObject],
) -> Result<Option<Members>, AllocError>
    ensures { IfOk result (λ found. IfSome found
        (AreMembers (facts_of basis.now).parents (owners_of objects.now))) }
{
    let owners = owners_of(alloc, objects)?;
    gather(
        alloc,
        basis.parents.as_slice(),
        basis.lineage.order(),
        owners.as_slice(),
    )
}

// Puts what the class has at the end.
fn push_population(
    alloc: Global,
    basis: &Basis<'_>,
    objects: &[MadeObject],
    class: Meaning,
    lists: &mut Vec<Sequence<i32>>,
) -> Result<(), AllocError>
    ensures { OnOk result (lists.new.items
        ≡ lists.old.items ++ class_population (facts_of basis.now) objects.now class ∷ []) }
{
    let list = class_population(alloc, basis, class, objects)?;
    lists.push(list)?;
    Ok(())
}

// What the built-in classes have.
fn builtin_lists(
    alloc: Global,
    basis: &Basis<'_>,
    objects: &[MadeObject],
) -> Result<Vec<Sequence<i32>>, AllocError>
    ensures { IfOk result (λ lists. lists.items ≡ builtin_populations (facts_of basis.now) objects.now) }
{
    let mut lists = Vec::new(alloc);
    push_population(alloc, basis, objects, Meaning::BuiltIn(0), &mut lists)?;
    push_population(alloc, basis, objects, Meaning::BuiltIn(1), &mut lists)?;
    push_population(alloc, basis, objects, Meaning::BuiltIn(2), &mut lists)?;
    push_population(alloc, basis, objects, Meaning::BuiltIn(3), &mut lists)?;
    Ok(lists)
}

// Puts what the classes have whose names have these numbers behind the lists, one after another.
fn push_each(
    alloc: Global,
    basis: &Basis<'_>,
    entries: &[usize],
    objects: &[MadeObject],
    lists: &mut Vec<Sequence<i32>>,
) -> Result<(), AllocError>
    ensures { OnOk result (lists.new.items
        ≡ lists.old.items ++ map (entry_population (facts_of basis.now) objects.now) entries.now) }
{
    for entry in entries {
        push_population(alloc, basis, objects, Meaning::Entry(*entry), lists)?;
    }
    Ok(())
}

// Puts the lists behind the others.
fn append(more: Vec<Sequence<i32>>, lists: &mut Vec<Sequence<i32>>) -> Result<(), AllocError>
    ensures { OnOk result (lists.new.items ≡ lists.old.items ++ more.items) }
{
    for list in more {
        lists.push(list)?;
    }
    Ok(())
}

// The first so many numbers.
fn first_numbers(alloc: Global, count: usize) -> Result<Vec<usize>, AllocError>
    ensures { IfOk result (λ numbers. numbers.items ≡ range_with_len 0 count) }
{
    let mut numbers = Vec::new(alloc);
    for number in 0..count {
        numbers.push(number)?;
    }
    Ok(numbers)
}

// What all these classes have, with a list for each.
fn listed_each(
    alloc: Global,
    basis: &Basis<'_>,
    entries: &[usize],
    objects: &[MadeObject],
) -> Result<Populations, AllocError>
    ensures { IfOk result (λ found. found ≡ populations_with (facts_of basis.now) objects.now entries.now) }
{
    let mut lists = builtin_lists(alloc, basis, objects)?;
    push_each(alloc, basis, entries, objects, &mut lists)?;
    let places = first_numbers(alloc, lists.len())?;
    Ok(Populations::new(lists, places))
}

// The places of the lists, behind those of the built-in classes.
fn places_behind(alloc: Global, places: &[usize]) -> Result<Vec<usize>, AllocError>
    ensures { IfOk result (λ all. all.items ≡ behind_builtin places.now) }
{
    let mut all = first_numbers(alloc, 4)?;
    for place in places {
        all.push(place_behind(*place)?)?;
    }
    Ok(all)
}

// The place behind four others, of which there is no memory for 2^64.
fn place_behind(place: usize) -> Result<usize, AllocError>
    ensures { IfOk result (λ behind. behind ≡ 4 + place) }
{
    if place > 18_446_744_073_709_551_611 {
        return Err(AllocError);
    }
    Ok(4 + place)
}

// What all these classes have, where classes with the same objects share one list.
fn listed_shared(
    alloc: Global,
    basis: &Basis<'_>,
    objects: &[MadeObject],
    listed: Listed,
) -> Result<Populations, AllocError>
    ensures { IfOk result (λ found. found ≡ builtin_populations (facts_of basis.now) objects.now
        ++ map (list_at listed.lists.items) listed.places.items) }
{
    let places = places_behind(alloc, listed.places.as_slice())?;
    let mut lists = builtin_lists(alloc, basis, objects)?;
    append(listed.lists, &mut lists)?;
    Ok(Populations::new(lists, places))
}

// What all these classes have, listed from the objects that each name has.
fn listed_by(
    alloc: Global,
    basis: &Basis<'_>,
    entries: &[usize],
    objects: &[MadeObject],
    members: &Members,
) -> Result<Populations, AllocError>
    requires entries { entries.now ≡ class_entries basis.now.types.scope.now 0 basis.now.types.scope.now }
    requires lines { HaveKnownLines (facts_of basis.now) objects.now }
    requires members { AreMembers (facts_of basis.now).parents (owners_of objects.now) members.now }
    ensures { IfOk result (λ found. found ≡ populations (facts_of basis.now) objects.now) }
{
    let listed = members.listed(alloc, entries)?;
    listed_shared(alloc, basis, objects, listed)
}

/// The objects of each class and of those under it, by the number of the class. Where the lines of the objects' classes are
/// known to end, as they are in a program without circles, it takes one pass over all names, and classes with the same
/// objects share one list.
pub fn objects_by_class(
    alloc: Global,
    basis: &Basis<'_>,
    entries: &[usize],
    objects: &[MadeObject],
) -> Result<Populations, AllocError>
    requires { entries.now ≡ class_entries basis.now.types.scope.now 0 basis.now.types.scope.now }
    ensures { IfOk result (λ found. found ≡ populations (facts_of basis.now) objects.now) }
{
    if !have_known_lines(basis, objects) {
        return listed_each(alloc, basis, entries, objects);
    }
    match gathered(alloc, basis, objects)? {
        Some(members) => listed_by(alloc, basis, entries, objects, &members),
        None => listed_each(alloc, basis, entries, objects),
    }
}
