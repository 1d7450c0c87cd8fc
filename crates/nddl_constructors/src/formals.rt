//! The formals of constructors, and what stands around in their bodies.

ghost use Rattle.std.specs.Prelude.{◌≡◌, ℕ, List, IfOk, map};
ghost use Rattle.eu_index.specs.Index.{noted_number};
ghost use Rattle.nddl_hierarchy.specs.Facts.{facts_of};
ghost use Rattle.nddl_resolve.specs.Paths.{around_of};
ghost use Rattle.nddl_resolve.specs.Seen.{seen_in};
ghost use Rattle.nddl_constructors.specs.Formals.{around_formals, formal_number, formal_seen, typed_number};

use eu_index::NameIndex;
use eu_name::text::Text;
use nddl_ast::declaration::Typed;
use nddl_hierarchy::Basis;
use nddl_resolve::fields::type_value;
use nddl_resolve::{Around, SeenNames};
use std::alloc::{AllocError, Global};
use std::marker::Model;

/// The formals of a constructor with what they mean, which contracts see as a list. One of a name is found by one look-up.
#[derive(Drop)]
pub struct Formals {
    names: SeenNames,
    // The first of each name by its number.
    numbers: NameIndex,
}

impl Model for Formals {
    ghost use Rattle.std.specs.Prelude.{List};
    ghost use Rattle.nddl_resolve.specs.declared.denoted.Seen.{Seen};
    ghost use Rattle.nddl_constructors.specs.Formals.{AreNumbered};

    ghost Value = { List Seen };

    ghost view = { λ inside. inside.names };

    ghost invariant = { λ inside. AreNumbered inside.names inside.numbers };
}

impl Formals {
    pub fn names(&self) -> &SeenNames
        ensures { result.now ≡ self.now }
    {
        &self.names
    }

    /// The number of the first of this name.
    pub fn number(&self, name: &Text) -> Option<usize>
        ensures { result ≡ formal_number self.now name.now }
    {
        self.numbers.find(name)
    }
}

/// These formals stand around, and nothing else.
pub fn around_formals(formals: Option<&Formals>) -> Around<'_>
    ensures { around_of result ≡ around_formals (seen_in formals.entry) }
{
    Around {
        formals: names_in(formals),
        turns: None,
        locals: None,
        labels: None,
        token: None,
    }
}

// The names of the formals, if there are any.
fn names_in(formals: Option<&Formals>) -> Option<&SeenNames>
    ensures { seen_in result ≡ seen_in formals.entry }
{
    match formals {
        Some(formals) => Some(formals.names()),
        None => None,
    }
}

/// The formals with what they mean.
#[tactic(auto, using(crate::proofs::Numbering::numbered))]
pub fn formals_seen(
    alloc: Global,
    basis: &Basis<'_>,
    formals: &[Typed],
) -> Result<Formals, AllocError>
    ensures { IfOk result (λ seen. seen ≡ map (formal_seen (facts_of basis.now)) formals.now) }
{
    let numbers = first_numbers(alloc, formals)?;
    let names = names_seen(alloc, basis, formals)?;
    Ok(Formals { names, numbers })
}

fn names_seen(alloc: Global, basis: &Basis<'_>, formals: &[Typed]) -> Result<SeenNames, AllocError>
    ensures { IfOk result (λ seen. seen ≡ map (formal_seen (facts_of basis.now)) formals.now) }
{
    let mut seen = SeenNames::new(alloc);
    for typed in formals {
        let denoted = type_value(&basis.types, true, &typed.declared);
        seen.push(&typed.name.text, denoted)?;
    }
    Ok(seen)
}

// The names of the formals, each with the number of the first that has it.
fn first_numbers(alloc: Global, formals: &[Typed]) -> Result<NameIndex, AllocError>
    ensures { IfOk result (λ numbers. (name : List ℕ) → noted_number numbers name ≡ typed_number formals.now name) }
{
    let mut numbers = NameIndex::new(alloc);
    for (number, typed) in formals.iter().enumerate() {
        let _ = numbers.note(&typed.name.text, number)?;
    }
    Ok(numbers)
}
