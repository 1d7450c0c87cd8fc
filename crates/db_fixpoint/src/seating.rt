//! Tokens by the object that they are on.

ghost use Rattle.std.specs.Prelude.{◌≡◌, ◌++◌, ◌∷◌, ◌<◌, ℕ, pos, List, [], length, take, slice_get, slice_index_or, None, Some, Contains, MatchOption, OnOk, OnErr};
ghost use Rattle.domain_core.specs.Domain.{Domain, IsSingle};
ghost use Rattle.eu_name.specs.declared.name.Part.TheVariants.{Object};
ghost use Rattle.db_store.specs.declared.key.VarKey.TheVariants as keys;
ghost use Rattle.db_store.specs.declared.watchers.Watch.{Watch};
ghost use Rattle.db_store.specs.Stores.{blocks_watching};
ghost use Rattle.db_store.specs.StoreMarks.{CanGoBack, KeepStoreMarks};
ghost use Rattle.db_fixpoint.specs.Turns.{OnlyMarks};
ghost use Rattle.db_fixpoint.specs.Seating.{SeatsNumber, SeatsAll, SeatsSince, IsSeatingOf, KeepsSeating};

use db_store::watchers::Watchers;
use db_store::{Mark, Store, VarKey};
use eu_name::name::Part;
use std::alloc::{AllocError, Global};

/// The tokens that are on one object and can be on no other, as far as a store was at a mark, and perhaps others. It goes back
/// with the store, step by step.
#[derive(Drop)]
pub struct Seating {
    // The tokens under each object, as if they watched it.
    seats: Watchers,
    // Nothing is noted if there is none.
    mark: Option<Mark>,
    // How many seats there were at each step.
    steps: Vec<usize>,
}

// The value as the number of an object.
fn number_of(value: i32) -> Option<usize>
    ensures { MatchOption result
        ((object : ℕ) → value ≡ pos object → ⊥)
        (λ object. value ≡ pos object) }
{
    if value < 0 {
        None
    } else {
        Some(value as usize)
    }
}

// The place of the token whose object the variable of the key is.
fn owner_of(key: VarKey) -> Option<u32>
    ensures { MatchOption result
        ((place : ℕ) → key ≡ keys.Part place Object → ⊥)
        (λ place. key ≡ keys.Part place Object) }
{
    match key {
        VarKey::Part(place, Part::Object) => Some(place),
        VarKey::Part(_, Part::Start | Part::End | Part::Duration | Part::Param(_)) => None,
        VarKey::Global(_) | VarKey::Local { .. } => None,
    }
}

// The place of the token whose object the variable of this number is.
fn owner_at(store: &Store, number: usize) -> Option<u32>
    ensures { MatchOption result
        ((place : ℕ) → slice_get store.now.keys number ≡ Some (keys.Part place Object) → ⊥)
        (λ place. slice_get store.now.keys number ≡ Some (keys.Part place Object)) }
{
    let Some(key) = store.key_at(number) else {
        return None;
    };
    owner_of(key)
}

// The object that the variable of this number is, where it can be no other.
fn object_at(store: &Store, number: usize) -> Option<usize>
    ensures { MatchOption result
        ((domain : Domain) (object : ℕ) → slice_get store.now.net.domains number ≡ Some domain → IsSingle domain (pos object) → ⊥)
        (λ object. (domain : Domain) × (slice_get store.now.net.domains number ≡ Some domain) × IsSingle domain (pos object)) }
{
    let Some(domain) = store.net().get(number) else {
        return None;
    };
    let Some(value) = domain.single() else {
        return None;
    };
    number_of(value)
}

// Notes the token whose object the variable of this number is, if it can be on one only.
fn seat(seats: &mut Watchers, store: &Store, number: usize) -> Result<(), AllocError>
    ensures grown { (more : List Watch) × (seats.new ≡ seats.old ++ more) }
    ensures ok { OnOk result (SeatsNumber store.now.keys store.now.net.domains seats.new number) }
{
    let Some(place) = owner_at(store, number) else {
        return Ok(());
    };
    let Some(object) = object_at(store, number) else {
        return Ok(());
    };
    seats.add(object, place as usize)
}

// Notes the tokens whose objects these variables are.
fn seat_these(seats: &mut Watchers, store: &Store, numbers: &[usize]) -> Result<(), AllocError>
    ensures grown { (more : List Watch) × (seats.new ≡ seats.old ++ more) }
    ensures ok { OnOk result ((number : ℕ) → Contains numbers.now number
        → SeatsNumber store.now.keys store.now.net.domains seats.new number) }
{
    for number in numbers {
        seat(seats, store, *number)?;
    }
    Ok(())
}

// Notes all tokens. Memory stands for more variables than can be counted.
fn seat_all(seats: &mut Watchers, store: &Store) -> Result<(), AllocError>
    ensures grown { (more : List Watch) × (seats.new ≡ seats.old ++ more) }
    ensures ok { OnOk result (SeatsAll store.now.keys store.now.net.domains seats.new) }
{
    for number in 0..usize::MAX {
        let Some(_key) = store.key_at(number) else {
            return Ok(());
        };
        seat(seats, store, number)?;
    }
    Err(AllocError)
}

// Notes the tokens whose objects came or were written since the mark, or all tokens if there is none.
fn seat_since(seats: &mut Watchers, store: &Store, mark: Option<Mark>) -> Result<(), AllocError>
    requires { MatchOption mark (Unit {0}) (CanGoBack store.now) }
    ensures grown { (more : List Watch) × (seats.new ≡ seats.old ++ more) }
    ensures ok { OnOk result (SeatsSince store.now mark seats.new) }
{
    match mark {
        None => seat_all(seats, store),
        Some(since) => {
            let touched = store.touched_since(since)?;
            seat_these(seats, store, touched.as_slice())
        }
    }
}

impl Seating {
    /// Nothing is noted yet, which takes no memory.
    pub fn new(alloc: Global) -> Seating
        ensures seats { result.seats ≡ [] }
        ensures mark { result.mark ≡ None }
        ensures steps { result.steps.items ≡ [] }
    {
        Seating {
            seats: Watchers::new(alloc),
            mark: None,
            steps: Vec::new(alloc),
        }
    }

    /// Notes what has come to the store since its mark, and marks the store.
    pub fn catch_up(&mut self, store: &mut Store) -> Result<(), AllocError>
        requires { IsSeatingOf store.old self.old }
        ensures kept { KeepsSeating self.old store.new self.new }
        ensures all { OnOk result (SeatsAll store.new.keys store.new.net.domains self.new.seats) }
        ensures only { OnlyMarks store.old store.new }
        ensures marks { KeepStoreMarks store.old store.new }
    {
        seat_since(&mut self.seats, store, self.mark)?;
        self.mark = Some(store.mark());
        Ok(())
    }

    /// The places that are noted under the object of this number; a token of the store may stand at any of them, or none.
    pub fn on(&self, value: i32) -> &[u32]
        ensures { (object : ℕ) → value ≡ pos object → result.now ≡ blocks_watching self.now.seats object }
    {
        match number_of(value) {
            Some(object) => self.seats.of(object),
            None => &[],
        }
    }

    /// Begins a step, to whose beginning can be gone back.
    pub fn begin_step(&mut self) -> Result<(), AllocError>
        ensures seats { self.new.seats ≡ self.old.seats }
        ensures mark { self.new.mark ≡ self.old.mark }
        ensures ok { OnOk result (self.new.steps.items ≡ self.old.steps.items ++ length self.old.seats ∷ []) }
        ensures err { OnErr result (self.new.steps.items ≡ self.old.steps.items) }
    {
        self.steps.push(self.seats.len())?;
        Ok(())
    }

    /// Forgets what was noted from the step of this number on, where the store is back at the mark. It takes no memory.
    pub fn forget_from(&mut self, number: usize, mark: Mark)
        requires { number < length self.old.steps.items }
        ensures seats { self.new.seats ≡ take (slice_index_or self.old.steps.items number 0) self.old.seats }
        ensures mark { self.new.mark ≡ Some mark }
        ensures steps { self.new.steps.items ≡ take number self.old.steps.items }
    {
        let count = self.steps[number];
        if count < self.seats.len() {
            self.seats.truncate(count);
        }
        self.steps.truncate(number);
        self.mark = Some(mark);
    }
}
