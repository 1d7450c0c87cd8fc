//! What names mean in the scope of a program's files.

ghost use Rattle.std.specs.Prelude.{◌≡◌, ◌<◌, ◌^◌, ◌||◌, not, length, false, true, IfOk, IfSome, OnOk};
ghost use Rattle.nddl_symbols.specs.Names.{is_body_sort};
ghost use Rattle.nddl_symbols.specs.Scope.{IsIndexed, NotesListed, builtin_number, is_class_at, meaning_of, named_number};

use super::builtin::builtin_number;
use super::declared::{Declared, Sort};
use eu_index::NameIndex;
use eu_name::sequence::Sequence;
use eu_name::text::Text;
use std::alloc::{AllocError, Global};
use std::marker::Model;

/// What a name means.
#[derive(Clone, Copy, Debug, PartialEq, Eq)]
pub enum Meaning {
    /// The built-in class of this number.
    BuiltIn(u32),
    /// What is declared, by its number among all names of the scope.
    Entry(usize),
}

/// The names of a program's files, which contracts see as a list, with what is needed to find them.
#[derive(Drop)]
pub struct Scope {
    names: Sequence<Declared>,
    firsts: NameIndex,
    bodies: NameIndex,
}

impl Model for Scope {
    ghost use Rattle.std.specs.Prelude.{List, false, true, length, ◌<◌, ◌^◌};
    ghost use Rattle.nddl_symbols.specs.declared.declared.Declared.{Declared};
    ghost use Rattle.nddl_symbols.specs.Scope.{IsIndexed};

    ghost Value = { List Declared };

    ghost view = { λ inside. inside.names };

    ghost invariant = { λ inside. (length inside.names < 2 ^ 31)
        × IsIndexed false inside.names inside.firsts × IsIndexed true inside.names inside.bodies };
}

impl Scope {
    /// The scope of these names. There is no memory for 2^31 of them or more.
    pub fn of(alloc: Global, names: Sequence<Declared>) -> Result<Scope, AllocError>
        ensures { IfOk result (λ scope. scope ≡ names) }
    {
        if names.len() >= 2_147_483_648 {
            return Err(AllocError);
        }
        let firsts = index_of(alloc, names.as_slice(), false)?;
        let bodies = index_of(alloc, names.as_slice(), true)?;
        Ok(Scope {
            names,
            firsts,
            bodies,
        })
    }

    /// The names, each under its number.
    pub fn names(&self) -> &[Declared]
        ensures names { result.now ≡ self.now }
        ensures few { length self.now < 2 ^ 31 }
    {
        self.names.as_slice()
    }

    /// The number of what is declared first under the name.
    pub fn entry(&self, name: &Text) -> Option<usize>
        ensures number { result ≡ named_number false self.now name.now }
        ensures few { IfSome result (λ number. number < 2 ^ 31) }
    {
        self.firsts.find(name)
    }

    /// The number of the first class with its members of this name.
    pub fn body(&self, name: &Text) -> Option<usize>
        ensures { result ≡ named_number true self.now name.now }
    {
        self.bodies.find(name)
    }

    /// What the name means.
    pub fn meaning(&self, name: &Text) -> Option<Meaning>
        ensures { result ≡ meaning_of self.now name.now }
    {
        match builtin_number(name.as_str()) {
            Some(number) => Some(Meaning::BuiltIn(number)),
            None => self.entry(name).map(Meaning::Entry),
        }
    }

    /// Whether the name of this number is a class.
    pub fn is_class(&self, number: usize) -> bool
        ensures { result ≡ is_class_at self.now number }
    {
        match self.names.as_slice().get(number) {
            Some(declared) => declared.sort.is_class(),
            None => false,
        }
    }
}

// The numbers of the first of each name, among all or among classes with their members.
fn index_of(alloc: Global, names: &[Declared], only_bodies: bool) -> Result<NameIndex, AllocError>
    ensures { IfOk result (λ index. IsIndexed only_bodies names.now index) }
{
    let mut index = NameIndex::new(alloc);
    for (number, declared) in names.iter().enumerate() {
        note_listed(&mut index, only_bodies, number, declared)?;
    }
    Ok(index)
}

// Notes the name under its number, if it counts and isn't there.
fn note_listed(
    index: &mut NameIndex,
    only_bodies: bool,
    number: usize,
    declared: &Declared,
) -> Result<(), AllocError>
    ensures { OnOk result (NotesListed only_bodies number declared.now index.old index.new) }
{
    if is_listed(only_bodies, declared.sort) {
        let _ = index.note(&declared.name, number)?;
    }
    Ok(())
}

// Whether names of this sort count.
fn is_listed(only_bodies: bool, sort: Sort) -> bool
    ensures { result ≡ (not only_bodies || is_body_sort sort) }
{
    !only_bodies || sort.is_body()
}
