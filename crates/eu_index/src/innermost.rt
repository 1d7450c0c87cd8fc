//! The innermost of a name.

ghost use Rattle.std.specs.Prelude.{◌≡◌, ℕ, ◌-◌, ◌++◌, List, ◌∷◌, [], OnOk, OnErr, length, take, if◌then◌else◌};
ghost use Rattle.std.specs.Str.{bytes_eq};
ghost use Rattle.eu_index.specs.Hiding.{AreIndexed, indexed_meaning, last_meaning, seen_pairs};

use eu_name::laws::names_are_told_apart;
use eu_name::text::Text;
use indexmap::IndexMap;
use std::alloc::{AllocError, Global};
use std::marker::Model;

/// A name that is seen, with what it means, and what the one means that it hides.
#[derive(Drop)]
pub struct SeenName<T> {
    pub name: Text,
    pub meaning: T,
    pub hidden: Option<T>,
}

/// Names with what they mean, the innermost last.
#[derive(Drop)]
pub struct Innermost<T> {
    seen: Vec<SeenName<T>>,
    // What the last of each name means, or nothing where all of them are forgotten.
    last: IndexMap<Text, Option<T>>,
}

impl<T> Model for Innermost<T> {
    ghost use Rattle.eu_index.specs.Hiding.{AreIndexed, Meant, meant_code, seen_pairs};

    ghost Value = { Meant T };

    ghost coded = { meant_code T.code };

    ghost view = { λ inside. seen_pairs inside.seen.items };

    ghost invariant = { λ inside. AreIndexed inside.last.entries inside.seen.items };
}

impl<T: Copy + Drop> Innermost<T> {
    /// No names, which take no memory.
    pub fn new(alloc: Global) -> Innermost<T>
        ensures { result ≡ [] }
    {
        Innermost {
            seen: Vec::new(alloc),
            last: IndexMap::new(alloc),
        }
    }

    /// What the innermost of this name means.
    pub fn find(&self, name: &Text) -> Option<T>
        ensures { result ≡ last_meaning name.now self.now }
    {
        indexed(&self.last, name)
    }

    /// One more, which hides others of its name.
    pub fn push(&mut self, name: &Text, meaning: T) -> Result<(), AllocError>
        ensures { OnOk result (self.new ≡ self.old ++ (name.now, meaning) ∷ []) }
    {
        let hidden = indexed(&self.last, name);
        push_seen(&mut self.seen, &mut self.last, name, meaning, hidden)
    }

    pub fn len(&self) -> usize
        ensures { result ≡ length self.now }
    {
        self.seen.len()
    }

    /// The first so many. Without memory some more may be left.
    pub fn truncate(&mut self, count: usize) -> Result<(), AllocError>
        ensures { OnOk result (self.new ≡ take count self.old) }
    {
        forget_seen(&mut self.seen, &mut self.last, count)
    }
}

// What the index has of the name.
fn indexed<T: Copy>(last: &IndexMap<Text, Option<T>>, name: &Text) -> Option<T>
    ensures { result ≡ indexed_meaning last.now.entries name.now }
{
    names_are_told_apart();
    match last.get(name) {
        Some(meaning) => *meaning,
        None => None,
    }
}

// One name more, which hides this one.
#[tactic(auto, using(crate::proofs::Hiding::pushed_pairs))]
fn push_seen<T: Copy + Drop>(
    seen: &mut Vec<SeenName<T>>,
    last: &mut IndexMap<Text, Option<T>>,
    name: &Text,
    meaning: T,
    hidden: Option<T>,
) -> Result<(), AllocError>
    requires indexed { AreIndexed last.old.entries seen.old.items }
    requires hidden { hidden ≡ indexed_meaning last.old.entries name.now }
    ensures indexed { AreIndexed last.new.entries seen.new.items }
    ensures pushed { OnOk result (seen_pairs seen.new.items ≡ seen_pairs seen.old.items ++ (name.now, meaning) ∷ []) }
{
    let more = SeenName {
        name: name.copy()?,
        meaning,
        hidden,
    };
    seen.push(more)?;
    match set_last(last, name, Some(meaning)) {
        Ok(()) => Ok(()),
        Err(error) => {
            let _ = seen.pop();
            Err(error)
        }
    }
}

// Notes what the last of the name means.
fn set_last<T: Copy + Drop>(
    last: &mut IndexMap<Text, Option<T>>,
    name: &Text,
    meaning: Option<T>,
) -> Result<(), AllocError>
    ensures ok { OnOk result ((other : List ℕ) → indexed_meaning last.new.entries other
        ≡ if bytes_eq name.now other then meaning else indexed_meaning last.old.entries other) }
    ensures err { OnErr result (last.new.entries ≡ last.old.entries) }
{
    names_are_told_apart();
    let key = name.copy()?;
    last.insert(key, meaning)?;
    Ok(())
}

// Without the names behind the first so many.
#[tactic(auto, using(crate::proofs::Hiding::cut_on, crate::proofs::Hiding::cut_done, crate::proofs::Hiding::shorter))]
fn forget_seen<T: Copy + Drop>(
    seen: &mut Vec<SeenName<T>>,
    last: &mut IndexMap<Text, Option<T>>,
    count: usize,
) -> Result<(), AllocError>
    requires { AreIndexed last.old.entries seen.old.items }
    ensures indexed { AreIndexed last.new.entries seen.new.items }
    ensures cut { OnOk result (seen_pairs seen.new.items ≡ take count (seen_pairs seen.old.items)) }
{
    while count < seen.len() {
        forget_last(seen, last)?;
    }
    Ok(())
}

// Without the last name, where there is one.
fn forget_last<T: Copy + Drop>(
    seen: &mut Vec<SeenName<T>>,
    last: &mut IndexMap<Text, Option<T>>,
) -> Result<(), AllocError>
    requires { AreIndexed last.old.entries seen.old.items }
    ensures indexed { AreIndexed last.new.entries seen.new.items }
    ensures fewer { OnOk result (seen.new.items ≡ take (length seen.old.items - 1) seen.old.items) }
{
    match seen.as_slice().split_last() {
        Some((gone, _)) => set_last(last, &gone.name, gone.hidden)?,
        None => return Ok(()),
    }
    let _ = seen.pop();
    Ok(())
}
