//! Which members each thing has.

ghost use Rattle.std.specs.Prelude.{◌≡◌, [], ◌∷◌, false, IfOk, IsTrue, OnOk, map, pos, replicate, slice_get, slice_set};
ghost use Rattle.eu_forest.specs.Members.{IsWithin, Joins, Shares, has_member, list_at, marks_at, numbers_marked, numbers_of, place_or_first};

use super::marks::{either_marked, is_marked, is_within, none_marked, numbers_marked};
use eu_name::sequence::Sequence;
use std::alloc::{AllocError, Global};
use std::marker::Model;

/// Which members each thing has. Things that have the same may share their marks.
#[derive(Drop)]
pub struct Members {
    // The first has no marks: it is that of the things without members.
    marks: Vec<Sequence<bool>>,
    // The place of each thing's marks.
    places: Vec<usize>,
}

impl Model for Members {
    ghost use Rattle.std.specs.Prelude.{Bool, List, map};
    ghost use Rattle.eu_forest.specs.Members.{AreShared, marks_at};

    ghost Value = { List (List Bool) };

    ghost view = { λ inside. map (marks_at inside.marks.items) inside.places.items };

    ghost invariant = { λ inside. AreShared inside.marks.items inside.places.items };
}

/// The numbers of the members that things have, and for each thing the place of its list.
#[derive(Drop)]
pub struct Listed {
    pub lists: Vec<Sequence<i32>>,
    pub places: Vec<usize>,
}

impl Members {
    /// So many things, none of which has one of so many members.
    pub fn none(alloc: Global, things: usize, count: usize) -> Result<Members, AllocError>
        ensures { IfOk result (λ members. members ≡ replicate things (replicate count false)) }
    {
        let places = first_places(alloc, things)?;
        let marks = first_marks(alloc, count)?;
        Ok(Members { marks, places })
    }

    // Which members the thing has.
    fn marks(&self, thing: usize) -> &[bool]
        ensures { result.now ≡ marks_at self.now thing }
    {
        match self.places.get(thing) {
            Some(place) => marks_in(self.marks.as_slice(), *place),
            None => &[],
        }
    }

    /// Whether the thing has the member.
    pub fn has(&self, thing: usize, number: usize) -> bool
        ensures { result ≡ has_member self.now thing number }
    {
        is_marked(self.marks(thing), number)
    }

    /// Whether the other thing has all that the thing has. Where they share their marks it is known at once. That it is told
    /// wherever it is so isn't promised.
    pub fn is_within(&self, thing: usize, other: usize) -> bool
        ensures { IsTrue result → IsWithin (marks_at self.now thing) (marks_at self.now other) }
    {
        self.is_shared(thing, other) || is_within(self.marks(thing), self.marks(other))
    }

    // Whether the two have the same marks in the same place.
    fn is_shared(&self, thing: usize, other: usize) -> bool
        ensures { IsTrue result → marks_at self.now thing ≡ marks_at self.now other }
    {
        match (self.places.get(thing), self.places.get(other)) {
            (Some(one), Some(another)) => *one == *another,
            _ => false,
        }
    }

    /// Gives the thing these members.
    pub fn put(&mut self, thing: usize, marks: Sequence<bool>) -> Result<(), AllocError>
        ensures { OnOk result (self.new ≡ slice_set self.old thing marks) }
    {
        let place = self.marks.len();
        self.marks.push(marks)?;
        if thing < self.places.len() {
            self.places[thing] = place;
        }
        Ok(())
    }

    /// Gives the thing the members of the other one as well. That it has got them isn't promised, as `gather` looks at that at
    /// the end.
    pub fn join(&mut self, alloc: Global, thing: usize, other: usize) -> Result<(), AllocError>
        ensures { OnOk result (Joins thing other self.old self.new) }
    {
        if self.is_within(other, thing) {
            Ok(())
        } else if self.is_without(thing) {
            self.share(thing, other);
            Ok(())
        } else {
            let marks = either_marked(alloc, self.marks(thing), self.marks(other))?;
            self.put(thing, marks)
        }
    }

    // Whether the thing is known to have no members.
    fn is_without(&self, thing: usize) -> bool
        ensures { IsTrue result → IsWithin (marks_at self.now thing) [] }
    {
        match self.places.get(thing) {
            Some(place) => *place == 0,
            None => false,
        }
    }

    // Gives the thing the marks of the other one.
    fn share(&mut self, thing: usize, other: usize)
        ensures { Shares thing other self.old self.new }
    {
        if let Some(place) = place_in(self.places.as_slice(), other) {
            if thing < self.places.len() {
                self.places[thing] = place;
            }
        }
    }

    /// The numbers of what these things have, where those of things that share their marks are one list.
    pub fn listed(&self, alloc: Global, things: &[usize]) -> Result<Listed, AllocError>
        ensures { IfOk result (λ listed. map (list_at listed.lists.items) listed.places.items
            ≡ map (λ thing. numbers_of self.now thing) things.now) }
    {
        let places = places_of(alloc, self.places.as_slice(), things)?;
        let lists = all_numbers(alloc, self.marks.as_slice())?;
        Ok(Listed { lists, places })
    }
}

// The place of the thing's marks.
fn place_in(places: &[usize], thing: usize) -> Option<usize>
    ensures { result ≡ slice_get places.now thing }
{
    Some(*places.get(thing)?)
}

// The place of the thing's marks, the first one where there is no such thing.
fn place_or_first(places: &[usize], thing: usize) -> usize
    ensures { result ≡ place_or_first places.now thing }
{
    match places.get(thing) {
        Some(place) => *place,
        None => 0,
    }
}

fn places_of(alloc: Global, places: &[usize], things: &[usize]) -> Result<Vec<usize>, AllocError>
    ensures { IfOk result (λ found. found.items ≡ map (place_or_first places.now) things.now) }
{
    let mut found = Vec::new(alloc);
    for thing in things {
        found.push(place_or_first(places, *thing))?;
    }
    Ok(found)
}

// The marks at the place.
fn marks_in(marks: &[Sequence<bool>], place: usize) -> &[bool]
    ensures { result.now ≡ marks_at marks.now place }
{
    match marks.get(place) {
        Some(some) => some.as_slice(),
        None => &[],
    }
}

// Those of things without members alone.
fn first_marks(alloc: Global, count: usize) -> Result<Vec<Sequence<bool>>, AllocError>
    ensures { IfOk result (λ marks. marks.items ≡ replicate count false ∷ []) }
{
    let mut marks = Vec::new(alloc);
    marks.push(none_marked(alloc, count)?)?;
    Ok(marks)
}

// So many things have those.
fn first_places(alloc: Global, things: usize) -> Result<Vec<usize>, AllocError>
    ensures { IfOk result (λ places. places.items ≡ replicate things 0) }
{
    let mut places = Vec::new(alloc);
    for _ in 0..things {
        places.push(0)?;
    }
    Ok(places)
}

// What each of these marks, by number.
fn all_numbers(alloc: Global, marks: &[Sequence<bool>]) -> Result<Vec<Sequence<i32>>, AllocError>
    ensures { IfOk result (λ lists. lists.items ≡ map (λ some. map pos (numbers_marked 0 some)) marks.now) }
{
    let mut lists = Vec::new(alloc);
    for some in marks {
        lists.push(numbers_marked(alloc, some.as_slice())?)?;
    }
    Ok(lists)
}
