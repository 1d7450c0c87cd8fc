//! The fields and predicates of classes by their names.

ghost use Rattle.std.specs.Prelude.{◌≡◌, ◌∷◌, ◌++◌, [], IfOk, List, OnOk, map};
ghost use Rattle.std.specs.Option.{option_copied};
ghost use Rattle.nddl_ast.specs.declared.declaration.Decl.{Decl as Declaration};
ghost use Rattle.nddl_hierarchy.specs.Decls.{decl_members};
ghost use Rattle.nddl_hierarchy.specs.Members.{ArePlaces, HasMembers, NotesMember, field_at, field_declared, field_place, member_field, predicate_declared, predicate_place};

use super::decls::{decl_at, decl_members};
use eu_index::NameIndex;
use eu_name::text::Text;
use nddl_ast::declaration::{Decl, Member, Typed};
use std::alloc::{AllocError, Global};
use std::marker::Model;

/// The declarations of a program, in each of which a field or a predicate is found by one look-up.
#[derive(Drop)]
pub struct MemberIndex<'a> {
    decls: Vec<&'a Decl>,
    // What each declaration has that is a class.
    places: Vec<Option<Places>>,
}

/// Where the first field and the first predicate of each name stand among the members of a class.
#[derive(Drop)]
pub struct Places {
    fields: NameIndex,
    predicates: NameIndex,
}

impl<'a> Model for MemberIndex<'a> {
    ghost use Rattle.std.specs.Prelude.{List, map};
    ghost use Rattle.std.specs.Coded.{coded_list};
    ghost use Rattle.nddl_ast.specs.contracts.declaration.Decl as a_decl;
    ghost use Rattle.nddl_ast.specs.declared.declaration.Decl.{Decl};
    ghost use Rattle.nddl_hierarchy.specs.Members.{ArePlaces};

    ghost Value = { List Decl };

    ghost coded = { coded_list a_decl.the_row.coded };

    ghost view = { λ inside. map (λ decl. decl.now) inside.decls.items };

    ghost invariant = { λ inside. ArePlaces (map (λ decl. decl.now) inside.decls.items) inside.places.items };
}

impl<'a> MemberIndex<'a> {
    /// Of these declarations.
    pub fn of(alloc: Global, decls: Vec<&'a Decl>) -> Result<MemberIndex<'a>, AllocError>
        ensures { IfOk result (λ index. index ≡ map (λ decl. decl.now) decls.entry.items) }
    {
        let places = places_of(alloc, decls.as_slice())?;
        Ok(MemberIndex { decls, places })
    }

    /// The declarations.
    pub fn decls(&self) -> &[&'a Decl]
        ensures { map (λ decl. decl.now) result.now ≡ self.now }
    {
        self.decls.as_slice()
    }

    /// The field of this name of the declaration of this number.
    pub fn field(&self, number: usize, name: &Text) -> Option<&'a Typed>
        ensures { option_copied result ≡ field_declared self.now number name.now }
    {
        found_field(self.decls.as_slice(), self.places.as_slice(), number, name)
    }

    /// The place of the predicate of this name among the members of the declaration of this number.
    #[tactic(auto, using(crate::proofs::Placing::predicate_found))]
    pub fn predicate(&self, number: usize, name: &Text) -> Option<usize>
        ensures { result ≡ predicate_declared self.now number name.now }
    {
        predicate_place(self.places.as_slice(), number, name)
    }
}

fn found_field<'a>(
    decls: &[&'a Decl],
    places: &[Option<Places>],
    number: usize,
    name: &Text,
) -> Option<&'a Typed>
    requires { ArePlaces (map (λ decl. decl.now) decls.now) places.now }
    ensures { option_copied result ≡ field_declared (map (λ decl. decl.now) decls.now) number name.now }
{
    match field_place(places, number, name) {
        Some(place) => field_at(decls, number, place),
        None => None,
    }
}

// The place that the index of this number has of the name as a field.
fn field_place(places: &[Option<Places>], number: usize, name: &Text) -> Option<usize>
    ensures { result ≡ field_place places.now number name.now }
{
    match places.get(number) {
        Some(Some(found)) => found.fields.find(name),
        _ => None,
    }
}

// The member of the declaration of this number at this place, if it is a field.
fn field_at<'a>(decls: &[&'a Decl], number: usize, place: usize) -> Option<&'a Typed>
    ensures { option_copied result ≡ field_at (map (λ decl. decl.now) decls.now) number place }
{
    let decl = decl_at(decls, number)?;
    let member = decl_members(decl).get(place)?;
    member_field(member)
}

/// The field that the member is.
pub fn member_field(member: &Member) -> Option<&Typed>
    ensures { option_copied result ≡ member_field member.now }
{
    match member {
        Member::Field(typed) => Some(typed),
        _ => None,
    }
}

// The place that the index of this number has of the name as a predicate.
fn predicate_place(places: &[Option<Places>], number: usize, name: &Text) -> Option<usize>
    ensures { result ≡ predicate_place places.now number name.now }
{
    match places.get(number) {
        Some(Some(found)) => found.predicates.find(name),
        _ => None,
    }
}

// For each declaration the places of its members.
fn places_of(alloc: Global, decls: &[&Decl]) -> Result<Vec<Option<Places>>, AllocError>
    ensures { IfOk result (λ places. ArePlaces (map (λ decl. decl.now) decls.now) places.items) }
{
    let mut places = Vec::new(alloc);
    for decl in decls {
        push_places(alloc, decl, &mut places)?;
    }
    Ok(places)
}

// Puts the places of the members of the declaration that comes next at the end.
fn push_places(
    alloc: Global,
    decl: &Decl,
    places: &mut Vec<Option<Places>>,
) -> Result<(), AllocError>
    ensures { OnOk result ((program : List Declaration) → ArePlaces program places.old.items
        → ArePlaces (program ++ decl.now ∷ []) places.new.items) }
{
    let found = decl_places(alloc, decl)?;
    places.push(found)?;
    Ok(())
}

// The places of the members of the declaration, if it is a class.
fn decl_places(alloc: Global, decl: &Decl) -> Result<Option<Places>, AllocError>
    ensures { IfOk result (λ places. HasMembers (decl_members decl.now) places) }
{
    match decl {
        Decl::Class { members, .. } => Ok(Some(index_of(alloc, members.as_slice())?)),
        _ => Ok(None),
    }
}

// The places of the members.
fn index_of(alloc: Global, members: &[Member]) -> Result<Places, AllocError>
    ensures { IfOk result (λ places. HasMembers members.now (Some places)) }
{
    let mut places = Places {
        fields: NameIndex::new(alloc),
        predicates: NameIndex::new(alloc),
    };
    for (place, member) in members.iter().enumerate() {
        note_member(&mut places, place, member)?;
    }
    Ok(places)
}

// Notes the place of the member, if it is a field or a predicate whose name isn't noted.
fn note_member(places: &mut Places, place: usize, member: &Member) -> Result<(), AllocError>
    ensures { OnOk result (NotesMember place member.now places.old places.new) }
{
    match member {
        Member::Field(typed) => {
            let _ = places.fields.note(&typed.name.text, place)?;
        }
        Member::Predicate { name, .. } => {
            let _ = places.predicates.note(&name.text, place)?;
        }
        Member::Constructor { .. } => {}
    }
    Ok(())
}
