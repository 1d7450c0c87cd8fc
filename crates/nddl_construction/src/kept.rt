//! What the types of fields mean that are written as sets.

ghost use Rattle.std.specs.Prelude.{◌≡◌, ◌+◌, ◌++◌, ◌∷◌, [], IfOk, OnOk, length};
ghost use Rattle.std.specs.Option.{option_copied};
ghost use Rattle.nddl_typeexpr.specs.Types.{type_meaning};
ghost use Rattle.nddl_hierarchy.specs.Facts.{facts_of};
ghost use Rattle.nddl_construction.specs.Kept.{AreFieldTypes, GoOn, KeepField, KeepFound, kept_place, meaning_kept, with_field};

use eu_index::NameIndex;
use eu_name::text::Text;
use nddl_ast::declaration::{Decl, Member, Typed};
use nddl_ast::expression::{Bounds, Type};
use nddl_hierarchy::Basis;
use nddl_typeexpr::types::type_meaning;
use nddl_typeexpr::{TypeMeaning, Types};
use std::alloc::{AllocError, Global};

/// What the types of some fields mean. Of which fields isn't promised: of any other a type is read where it is asked for.
#[derive(Drop)]
pub struct FieldTypes {
    // For each declaration, if it is a class, the places of what its fields mean, by their names.
    pub places: Vec<Option<NameIndex>>,
    pub meanings: Vec<Option<TypeMeaning>>,
}

impl FieldTypes {
    /// Of the fields of a program that have sets.
    pub fn of(alloc: Global, basis: &Basis<'_>) -> Result<FieldTypes, AllocError>
        ensures { IfOk result (AreFieldTypes (facts_of basis.now)) }
    {
        let mut types = FieldTypes {
            places: Vec::new(alloc),
            meanings: Vec::new(alloc),
        };
        let done = keep_all(alloc, basis, &mut types);
        match done {
            Ok(()) => Ok(types),
            Err(fault) => Err(fault),
        }
    }

    /// What the type means of the field of this name of the declaration of this number, if that is kept.
    pub fn meaning(&self, number: usize, name: &Text) -> Option<&Option<TypeMeaning>>
        ensures { option_copied result ≡ meaning_kept self.now number name.now }
    {
        let place = kept_place(self.places.as_slice(), number, name)?;
        self.meanings.as_slice().get(place)
    }
}

// The place of what is kept of the field.
fn kept_place(places: &[Option<NameIndex>], number: usize, name: &Text) -> Option<usize>
    ensures { result ≡ kept_place places.now number name.now }
{
    match places.get(number) {
        Some(Some(found)) => found.find(name),
        _ => None,
    }
}

// Keeps what is to be kept of each declaration.
fn keep_all(alloc: Global, basis: &Basis<'_>, types: &mut FieldTypes) -> Result<(), AllocError>
    requires { types.old.places.items ≡ [] }
    ensures { OnOk result (AreFieldTypes (facts_of basis.now) types.new) }
{
    for (number, decl) in basis.decls.iter().enumerate() {
        keep_decl(alloc, basis, number, *decl, types)?;
    }
    Ok(())
}

// Keeps it of the declaration of this number, which comes next.
fn keep_decl(
    alloc: Global,
    basis: &Basis<'_>,
    number: usize,
    decl: &Decl,
    types: &mut FieldTypes,
) -> Result<(), AllocError>
    requires { length types.old.places.items ≡ number }
    ensures next { OnOk result (length types.new.places.items ≡ number + 1) }
    ensures kept { OnOk result (AreFieldTypes (facts_of basis.now) types.old → AreFieldTypes (facts_of basis.now) types.new) }
{
    let found = decl_places(alloc, basis, number, decl, &mut types.meanings)?;
    types.places.push(found)?;
    Ok(())
}

// Keeps it of the declaration, and gives the places, if it is a class.
fn decl_places(
    alloc: Global,
    basis: &Basis<'_>,
    number: usize,
    decl: &Decl,
    meanings: &mut Vec<Option<TypeMeaning>>,
) -> Result<Option<NameIndex>, AllocError>
    ensures { IfOk result (λ found. KeepFound (facts_of basis.now) number found meanings.old.items meanings.new.items) }
{
    match decl {
        Decl::Class { members, .. } => {
            class_places(alloc, basis, number, members.as_slice(), meanings)
        }
        _ => Ok(None),
    }
}

// Keeps it of a class with these members, and gives the places.
fn class_places(
    alloc: Global,
    basis: &Basis<'_>,
    number: usize,
    members: &[Member],
    meanings: &mut Vec<Option<TypeMeaning>>,
) -> Result<Option<NameIndex>, AllocError>
    ensures { IfOk result (λ found. KeepFound (facts_of basis.now) number found meanings.old.items meanings.new.items) }
{
    let mut places = NameIndex::new(alloc);
    let done = keep_members(alloc, basis, number, members, &mut places, meanings);
    match done {
        Ok(()) => Ok(Some(places)),
        Err(fault) => Err(fault),
    }
}

// Keeps it of the members.
fn keep_members(
    alloc: Global,
    basis: &Basis<'_>,
    number: usize,
    members: &[Member],
    places: &mut NameIndex,
    meanings: &mut Vec<Option<TypeMeaning>>,
) -> Result<(), AllocError>
    ensures { OnOk result (KeepField (facts_of basis.now) number places.old meanings.old.items places.new meanings.new.items) }
{
    for member in members {
        keep_member(alloc, basis, number, member, places, meanings)?;
    }
    Ok(())
}

// Keeps it of the member, if it is a field with a set.
fn keep_member(
    alloc: Global,
    basis: &Basis<'_>,
    number: usize,
    member: &Member,
    places: &mut NameIndex,
    meanings: &mut Vec<Option<TypeMeaning>>,
) -> Result<(), AllocError>
    ensures { OnOk result (KeepField (facts_of basis.now) number places.old meanings.old.items places.new meanings.new.items) }
{
    match member {
        Member::Field(typed) => {
            if has_set(&typed.declared) {
                keep_field(alloc, basis, number, &typed.name.text, places, meanings)
            } else {
                Ok(())
            }
        }
        _ => Ok(()),
    }
}

// Whether the type is written with a set. All others are found as fast as they are looked up.
fn has_set(declared: &Type) -> bool {
    match declared.bounds {
        Bounds::Set { .. } => true,
        _ => false,
    }
}

// Keeps what the type means of the field of this name.
fn keep_field(
    alloc: Global,
    basis: &Basis<'_>,
    number: usize,
    name: &Text,
    places: &mut NameIndex,
    meanings: &mut Vec<Option<TypeMeaning>>,
) -> Result<(), AllocError>
    ensures { OnOk result (KeepField (facts_of basis.now) number places.old meanings.old.items places.new meanings.new.items) }
{
    match basis.members.field(number, name) {
        Some(typed) => keep_typed(alloc, &basis.types, name, typed, places, meanings),
        None => Ok(()),
    }
}

// Keeps what the type of this field means, and its place by the name.
fn keep_typed(
    alloc: Global,
    types: &Types<'_>,
    name: &Text,
    typed: &Typed,
    places: &mut NameIndex,
    meanings: &mut Vec<Option<TypeMeaning>>,
) -> Result<(), AllocError>
    ensures places { OnOk result (places.new ≡ with_field places.old name.now meanings.old.items) }
    ensures meanings { OnOk result (meanings.new.items
        ≡ meanings.old.items ++ type_meaning types.now.scope.now types.now.known.now typed.now.declared ∷ []) }
{
    let meaning = type_meaning(alloc, types, &typed.declared)?;
    let place = meanings.len();
    meanings.push(meaning)?;
    let _ = places.note(name, place)?;
    Ok(())
}
