//! The names that are seen from a block: those of the slots and locals that stand in it or in a block round it.

ghost use Rattle.std.specs.Prelude.{◌≡◌, ◌↔◌, ◌++◌, All, Contains, IsTrue, OnOk};
ghost use Rattle.model_core.specs.Block.{plain_entries, with_entry};
ghost use Rattle.model_core.specs.Entries.{NoEntry};
ghost use Rattle.model_rules.specs.Nested.{IsItemAmong, IsTermAmong, names_of};

use model_core::item::{Item, Term};
use model_core::rule::Entry;
use std::alloc::AllocError;

/// A slot or a local of a rule, by its number.
#[derive(Clone, Copy)]
pub enum Name {
    Slot(u32),
    Local(u32),
}

// Whether the two names are one.
fn is_same_name(one: Name, other: Name) -> bool
    ensures { IsTrue result ↔ (one ≡ other) }
{
    match (one, other) {
        (Name::Slot(number), Name::Slot(found)) => number == found,
        (Name::Local(number), Name::Local(found)) => number == found,
        (Name::Slot(_), Name::Local(_)) => false,
        (Name::Local(_), Name::Slot(_)) => false,
    }
}

// Whether the name is one of these.
fn is_seen(seen: &[Name], name: Name) -> bool
    ensures { IsTrue result ↔ Contains seen.now name }
{
    for other in seen {
        if is_same_name(*other, name) {
            return true;
        }
    }
    false
}

// Puts the name of the entry behind those that are there, if it has one.
fn add_name(entry: &Entry, seen: &mut Vec<Name>) -> Result<(), AllocError>
    ensures { OnOk result (seen.new.items ≡ seen.old.items ++ names_of (with_entry entry.now NoEntry)) }
{
    match entry {
        Entry::Slot(number) => seen.push(Name::Slot(*number))?,
        Entry::Local(number) => seen.push(Name::Local(*number))?,
        Entry::Item(_) => {}
        Entry::Branch { .. } => {}
    }
    Ok(())
}

/// Puts the names of what stands in the block behind those that are there.
pub fn add_names(entries: &[Entry], seen: &mut Vec<Name>) -> Result<(), AllocError>
    ensures { OnOk result (seen.new.items ≡ seen.old.items ++ names_of (plain_entries entries.now)) }
{
    for entry in entries {
        add_name(entry, seen)?;
    }
    Ok(())
}

// Whether the term names no slot or local but these.
fn is_term_among(seen: &[Name], term: Term) -> bool
    ensures { IsTrue result ↔ IsTermAmong seen.now term }
{
    match term {
        Term::Slot(number, _) => is_seen(seen, Name::Slot(number)),
        Term::Local(number) => is_seen(seen, Name::Local(number)),
        Term::Lit(_) => true,
        Term::Here(_) => true,
        Term::Global(_) => true,
        Term::Root(_, _) => true,
    }
}

/// Whether the terms name no slots or locals but these.
pub fn are_terms_among(seen: &[Name], terms: &[Term]) -> bool
    ensures { IsTrue result ↔ All (IsTermAmong seen.now) terms.now }
{
    terms.iter().all(|term| is_term_among(seen, *term))
}

/// Whether the item names no slot or local but these.
pub fn is_item_among(seen: &[Name], item: &Item) -> bool
    ensures { IsTrue result ↔ IsItemAmong seen.now item.now }
{
    match item {
        Item::Constraint(_, terms) => are_terms_among(seen, terms.as_slice()),
        Item::Relation(_, number) => is_seen(seen, Name::Slot(*number)),
    }
}
