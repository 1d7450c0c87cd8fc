//! The objects of each class.

ghost use Rattle.std.specs.Prelude.{◌≡◌, IfOk, map};
ghost use Rattle.eu_forest.specs.Members.{list_at};

use eu_name::sequence::Sequence;
use std::alloc::{AllocError, Global};
use std::marker::Model;

/// What each class has, by its number: its objects and those of the classes under it, in the order in which they were made.
/// Classes that have the same objects may share one list.
#[derive(Drop)]
pub struct Populations {
    lists: Vec<Sequence<i32>>,
    // The place of each class's list.
    places: Vec<usize>,
}

impl Model for Populations {
    ghost use Rattle.std.specs.Prelude.{List, ℤ, map};
    ghost use Rattle.eu_forest.specs.Members.{list_at};

    ghost Value = { List (List ℤ) };

    ghost view = { λ inside. map (list_at inside.lists.items) inside.places.items };
}

impl Populations {
    /// The class of each number has the list at this place. Where there is no list, it has nothing.
    pub fn new(lists: Vec<Sequence<i32>>, places: Vec<usize>) -> Populations
        ensures { result ≡ map (list_at lists.items) places.items }
    {
        Populations { lists, places }
    }

    /// What the class of this number has.
    pub fn objects(&self, class: usize) -> &[i32]
        ensures { result.now ≡ list_at self.now class }
    {
        match self.places.get(class) {
            Some(place) => list_in(self.lists.as_slice(), *place),
            None => &[],
        }
    }

    /// A copy in memory of its own.
    pub fn copy(&self, alloc: Global) -> Result<Populations, AllocError>
        ensures { IfOk result (λ copied. copied ≡ self.now) }
    {
        let places = Vec::from_slice(alloc, self.places.as_slice())?;
        let lists = lists_copied(alloc, self.lists.as_slice())?;
        Ok(Populations::new(lists, places))
    }
}

// The list at the place, which is empty where there is none.
fn list_in(lists: &[Sequence<i32>], place: usize) -> &[i32]
    ensures { result.now ≡ list_at lists.now place }
{
    match lists.get(place) {
        Some(list) => list.as_slice(),
        None => &[],
    }
}

fn lists_copied(alloc: Global, lists: &[Sequence<i32>]) -> Result<Vec<Sequence<i32>>, AllocError>
    ensures { IfOk result (λ copied. copied.items ≡ lists.now) }
{
    let mut copied = Vec::new(alloc);
    for list in lists {
        copied.push(list_copied(alloc, list.as_slice())?)?;
    }
    Ok(copied)
}

fn list_copied(alloc: Global, list: &[i32]) -> Result<Sequence<i32>, AllocError>
    ensures { IfOk result (λ copied. copied ≡ list.now) }
{
    Ok(Sequence::from_vec(Vec::from_slice(alloc, list)?))
}
