//! The fields of a class, found by name.

ghost use Rattle.std.specs.Prelude.{◌≡◌, IfOk};
ghost use Rattle.nddl_terms.specs.Attributes.{AreNumbered};
ghost use Rattle.nddl_terms.specs.Lexicon.{attribute_number};

use super::lexicon::Attribute;
use eu_index::NameIndex;
use eu_name::sequence::Sequence;
use eu_name::text::Text;
use std::alloc::{AllocError, Global};
use std::marker::Model;

/// The fields of a class, which contracts see as a list. One of a name is found by one look-up.
#[derive(Drop)]
pub struct Attributes {
    items: Sequence<Attribute>,
    // The first of each name by its number.
    numbers: NameIndex,
}

impl Model for Attributes {
    ghost use Rattle.std.specs.Prelude.{List};
    ghost use Rattle.std.specs.Coded.{coded_list};
    ghost use Rattle.nddl_terms.specs.contracts.lexicon.Attribute as an_attribute;
    ghost use Rattle.nddl_terms.specs.declared.lexicon.Attribute.{Attribute};
    ghost use Rattle.nddl_terms.specs.Attributes.{AreNumbered};

    ghost Value = { List Attribute };

    ghost coded = { coded_list an_attribute.the_row.coded };

    ghost view = { λ inside. inside.items };

    ghost invariant = { λ inside. AreNumbered inside.items inside.numbers };
}

impl Attributes {
    pub fn of(alloc: Global, items: Sequence<Attribute>) -> Result<Attributes, AllocError>
        ensures { IfOk result (λ attributes. attributes ≡ items) }
    {
        let numbers = first_numbers(alloc, items.as_slice());
        attributes_with(items, numbers)
    }

    pub fn as_slice(&self) -> &[Attribute]
        ensures { result.now ≡ self.now }
    {
        self.items.as_slice()
    }

    /// The number of the first of this name.
    pub fn number(&self, name: &Text) -> Option<usize>
        ensures { result ≡ attribute_number name.now self.now }
    {
        self.numbers.find(name)
    }
}

// The attributes with their numbers, if there was memory for these.
fn attributes_with(
    items: Sequence<Attribute>,
    numbers: Result<NameIndex, AllocError>,
) -> Result<Attributes, AllocError>
    requires { IfOk numbers (λ found. AreNumbered items found) }
    ensures { IfOk result (λ attributes. attributes ≡ items) }
{
    match numbers {
        Ok(numbers) => Ok(Attributes { items, numbers }),
        Err(fault) => Err(fault),
    }
}

// The names of the attributes, each with the number of the first that has it.
fn first_numbers(alloc: Global, attributes: &[Attribute]) -> Result<NameIndex, AllocError>
    ensures { IfOk result (λ numbers. AreNumbered attributes.now numbers) }
{
    let mut numbers = NameIndex::new(alloc);
    for (number, attribute) in attributes.iter().enumerate() {
        let _ = numbers.note(&attribute.name, number)?;
    }
    Ok(numbers)
}
