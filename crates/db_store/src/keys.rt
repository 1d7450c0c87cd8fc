//! The keys of variables, by number. Nearly all are parts of tokens, and are found with no index: the parts of a token come one
//! after another, its start first.

ghost use Rattle.std.specs.Prelude.{◌≡◌, ◌^◌, ◌<◌, ◌≤◌, ◌-◌, ◌+◌, ◌↔◌, ℕ, [], ◌∷◌, ◌++◌, length, take, slice_get, List};
ghost use Rattle.std.specs.Prelude.{Some, Contains, IsTrue, OnOk, OnErr, MatchOption};
ghost use Rattle.eu_name.specs.Laws.{DecidesEquality};
ghost use Rattle.eu_name.specs.declared.name.Part.TheVariants.{Start};
ghost use Rattle.db_store.specs.declared.key.VarKey.{VarKey};
ghost use Rattle.db_store.specs.declared.key.VarKey.TheVariants.{Part as KeyPart};
ghost use Rattle.db_store.specs.Puts.{FindsItem};
ghost use Rattle.db_store.specs.Findable.{AreFindable, AreInOrder, IsExpectedAt, FindsExpected, FindsListed, IsCutAt, parts_before as places_before};

use super::key::VarKey;
use super::laws::keys_are_told_apart;
use cell_store::numbers::short;
use eu_name::name::Part;
use indexmap::IndexMap;
use std::alloc::{AllocError, Global};
use std::marker::Model;

/// Keys by number, each of them once.
#[derive(Drop)]
pub struct Keys {
    all: Vec<VarKey>,
    // By place of a token, the number at which its start stood last.
    starts: Vec<u32>,
    // The numbers of those keys that don't stand where they are expected, in order.
    others: IndexMap<VarKey, u32>,
}

impl Model for Keys {
    ghost use Rattle.std.specs.Prelude.{List};
    ghost use Rattle.db_store.specs.declared.key.VarKey.{VarKey};
    ghost use Rattle.db_store.specs.Findable.{AreFindable};

    ghost Value = { List VarKey };

    ghost view = { λ keys. keys.all.items };

    ghost invariant = { λ keys. AreFindable keys.starts.items keys.all.items keys.others.entries };
}

impl Keys {
    /// No keys, which takes no memory.
    pub fn new(alloc: Global) -> Keys
        ensures { result ≡ [] }
    {
        Keys {
            all: Vec::new(alloc),
            starts: Vec::new(alloc),
            others: IndexMap::new(alloc),
        }
    }

    /// How many keys there are.
    pub fn len(&self) -> usize
        ensures { result ≡ length self.now }
    {
        self.all.len()
    }

    /// The key of this number. None where there is no such key.
    pub fn get(&self, number: usize) -> Option<VarKey>
        ensures { result ≡ slice_get self.now number }
    {
        self.all.get(number).copied()
    }

    /// The number of the key.
    pub fn find(&self, key: VarKey) -> Option<usize>
        ensures { FindsItem self.now key result }
    {
        keys_are_told_apart();
        match expected(self.all.as_slice(), self.starts.as_slice(), key) {
            Some(number) => Some(number),
            None => find_other(&self.others, key),
        }
    }

    /// Puts a key that isn't there behind the others. Of 2^32 keys and more, memory is wanting.
    pub fn push(&mut self, key: VarKey) -> Result<(), AllocError>
        requires fresh { Contains self.old key → ⊥ }
        ensures ok { OnOk result (self.new ≡ self.old ++ key ∷ []) }
        ensures err { OnErr result (self.new ≡ self.old) }
    {
        keys_are_told_apart();
        self.all.reserve(1)?;
        note(self.all.as_slice(), &mut self.starts, &mut self.others, key)?;
        self.all.push_reserved(key);
        Ok(())
    }

    /// Keeps the first so many, without memory.
    pub fn truncate(&mut self, count: usize)
        ensures { self.new ≡ take count self.old }
    {
        let kept = count_before(&self.others, count);
        self.others.truncate(kept);
        self.all.truncate(count);
    }
}

// Sees to it that the key is found as soon as it stands behind all.
fn note(
    all: &[VarKey],
    starts: &mut Vec<u32>,
    others: &mut IndexMap<VarKey, u32>,
    key: VarKey,
) -> Result<(), AllocError>
    requires told { DecidesEquality ⟦<VarKey as PartialEq>⟧.eq }
    requires findable { AreFindable starts.old.items all.now others.old.entries }
    requires fresh { Contains all.now key → ⊥ }
    ensures ok { OnOk result (AreFindable starts.new.items (all.now ++ key ∷ []) others.new.entries) }
    ensures err { OnErr result (AreFindable starts.new.items all.now others.new.entries) }
{
    let number = short(all.len())?;
    note_start(starts, key, number)?;
    if !is_expected(all, starts.as_slice(), key) {
        others.insert(key, number)?;
    }
    Ok(())
}

// Notes the number of a key that is a start. What is noted of others stays.
fn note_start(starts: &mut Vec<u32>, key: VarKey, number: u32) -> Result<(), AllocError>
    ensures { (place start : ℕ) → (key ≡ KeyPart place Start → ⊥) → slice_get starts.old.items place ≡ Some start
        → slice_get starts.new.items place ≡ Some start }
{
    match key {
        VarKey::Part(place, Part::Start) => put_at(starts, place as usize, number),
        _ => Ok(()),
    }
}

// Puts the number at the place, unless that is past the end.
fn put_at(numbers: &mut Vec<u32>, place: usize, number: u32) -> Result<(), AllocError>
    ensures { (other start : ℕ) → (other ≡ place → ⊥) → slice_get numbers.old.items other ≡ Some start
        → slice_get numbers.new.items other ≡ Some start }
{
    if place < numbers.len() {
        numbers[place] = number;
    } else if place == numbers.len() {
        numbers.push(number)?;
    }
    Ok(())
}

// How many parts of a token come before this one.
fn parts_before(part: Part) -> usize
    ensures is { result ≡ places_before part }
    ensures few { result < 2 ^ 17 }
{
    match part {
        Part::Start => 0,
        Part::End => 1,
        Part::Duration => 2,
        Part::Object => 3,
        Part::Param(number) => 4 + usize::from(number),
    }
}

// Whether the key is expected behind all others.
fn is_expected(all: &[VarKey], starts: &[u32], key: VarKey) -> bool
    requires told { DecidesEquality ⟦<VarKey as PartialEq>⟧.eq }
    ensures { IsTrue result → IsExpectedAt starts.now (all.now ++ key ∷ []) key (length all.now) }
{
    match key {
        VarKey::Part(place, part) => match starts.get(place as usize) {
            Some(start) => follows_start(all, place, part, *start as usize),
            None => false,
        },
        _ => false,
    }
}

// Whether the part is expected behind all others, where the start of its token is noted at this number.
fn follows_start(all: &[VarKey], place: u32, part: Part, start: usize) -> bool
    requires told { DecidesEquality ⟦<VarKey as PartialEq>⟧.eq }
    requires small { start < 2 ^ 32 }
    ensures there { IsTrue result → slice_get (all.now ++ KeyPart place part ∷ []) start ≡ Some (KeyPart place Start) }
    ensures behind { IsTrue result → length all.now ≡ start + places_before part }
{
    match part {
        Part::Start => start == all.len(),
        _ => {
            start + parts_before(part) == all.len()
                && has_key(all, start, VarKey::Part(place, Part::Start))
        }
    }
}

// Whether the key stands at this number.
fn has_key(all: &[VarKey], number: usize, key: VarKey) -> bool
    requires told { DecidesEquality ⟦<VarKey as PartialEq>⟧.eq }
    ensures { IsTrue result ↔ (slice_get all.now number ≡ Some key) }
{
    match all.get(number) {
        Some(found) => *found == key,
        None => false,
    }
}

// The number of the key, if it stands where it is expected.
fn expected(all: &[VarKey], starts: &[u32], key: VarKey) -> Option<usize>
    requires told { DecidesEquality ⟦<VarKey as PartialEq>⟧.eq }
    ensures { FindsExpected starts.now all.now key result }
{
    match expected_at(starts, key) {
        Some(number) => if_there(all, number, key),
        None => None,
    }
}

// The number, if the key stands there.
fn if_there(all: &[VarKey], number: usize, key: VarKey) -> Option<usize>
    requires told { DecidesEquality ⟦<VarKey as PartialEq>⟧.eq }
    ensures { MatchOption result (slice_get all.now number ≡ Some key → ⊥)
        (λ there. (there ≡ number) × (slice_get all.now number ≡ Some key)) }
{
    if has_key(all, number, key) {
        Some(number)
    } else {
        None
    }
}

// The number at which the key is expected.
fn expected_at(starts: &[u32], key: VarKey) -> Option<usize>
    ensures { (all : List VarKey) (number : ℕ) → IsExpectedAt starts.now all key number → result ≡ Some number }
{
    match key {
        VarKey::Part(place, part) => match starts.get(place as usize) {
            Some(start) => Some(*start as usize + parts_before(part)),
            None => None,
        },
        VarKey::Global(_number) => None,
        VarKey::Local { .. } => None,
    }
}

// The number with which the key is listed.
fn find_other(others: &IndexMap<VarKey, u32>, key: VarKey) -> Option<usize>
    requires told { DecidesEquality ⟦<VarKey as PartialEq>⟧.eq }
    ensures { FindsListed others.now.entries key result }
{
    match others.get(&key) {
        Some(number) => Some(*number as usize),
        None => None,
    }
}

// How many entries in front are those of numbers below the count.
fn count_before(others: &IndexMap<VarKey, u32>, count: usize) -> usize
    requires { AreInOrder others.now.entries }
    ensures { IsCutAt others.now.entries count result }
{
    let mut kept = others.len();
    while ends_from(others, kept, count) {
        kept -= 1;
    }
    kept
}

// Whether the last of the first so many entries is of a number from the count on.
fn ends_from(others: &IndexMap<VarKey, u32>, kept: usize, count: usize) -> bool
    ensures some { IsTrue result → 0 < kept }
    ensures last { (number : ℕ) (key : VarKey) → slice_get others.now.entries (kept - 1) ≡ Some (key, number)
        → 0 < kept → IsTrue result ↔ (count ≤ number) }
{
    match kept.checked_sub(1) {
        Some(last) => stands_from(others, last, count),
        None => false,
    }
}

// Whether the entry at the place is of a number from the count on.
fn stands_from(others: &IndexMap<VarKey, u32>, place: usize, count: usize) -> bool
    ensures { (number : ℕ) (key : VarKey) → slice_get others.now.entries place ≡ Some (key, number)
        → IsTrue result ↔ (count ≤ number) }
{
    match others.get_index(place) {
        Some((_key, number)) => *number as usize >= count,
        None => false,
    }
}
