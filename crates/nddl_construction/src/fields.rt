//! The fields of an object that are set.

ghost use Rattle.std.specs.Prelude.{◌≡◌, ◌++◌, ◌∷◌, [], OnOk, OnErr};
ghost use Rattle.nddl_construction.specs.Fields.{ArePlaces, AreRepeated, NotesSet, datum_placed, field_datum, is_set_once};

use super::made::{Datum, FieldValue};
use eu_index::NameIndex;
use eu_name::text::Text;
use std::alloc::{AllocError, Global};
use std::marker::Model;

/// The fields of an object in the order in which they are set, which contracts see as a list. One of a name is found by one
/// look-up.
#[derive(Drop)]
pub struct SetFields {
    values: Vec<FieldValue>,
    // The place of the first field of each name.
    places: NameIndex,
    // The names that are set again.
    repeated: NameIndex,
}

impl Model for SetFields {
    ghost use Rattle.std.specs.Prelude.{List};
    ghost use Rattle.nddl_construction.specs.declared.made.FieldValue.{FieldValue};
    ghost use Rattle.nddl_construction.specs.Fields.{ArePlaces, AreRepeated};

    ghost Value = { List FieldValue };

    ghost view = { λ inside. inside.values.items };

    ghost invariant = { λ inside. ArePlaces inside.values.items inside.places × AreRepeated inside.values.items inside.repeated };
}

impl SetFields {
    /// No fields, which take no memory.
    pub fn new(alloc: Global) -> SetFields
        ensures { result ≡ [] }
    {
        SetFields {
            values: Vec::new(alloc),
            places: NameIndex::new(alloc),
            repeated: NameIndex::new(alloc),
        }
    }

    /// One field more is set. Without memory for it all stays as it was.
    pub fn push(&mut self, field: FieldValue) -> Result<(), AllocError>
        ensures ok { OnOk result (self.new ≡ self.old ++ field ∷ []) }
        ensures err { OnErr result (self.new ≡ self.old) }
    {
        push_field(
            &mut self.values,
            &mut self.places,
            &mut self.repeated,
            field,
        )
    }

    /// The value to which the field of this name is set first.
    #[tactic(auto, using(crate::proofs::Placing::first_datum))]
    pub fn datum(&self, name: &Text) -> Option<Datum>
        ensures { result ≡ field_datum name.now self.now }
    {
        datum_placed(self.values.as_slice(), self.places.find(name))
    }

    /// Whether the field of this name is set, and only once.
    #[tactic(auto, using(crate::proofs::Placing::told_once))]
    pub fn is_set_once(&self, name: &Text) -> bool
        ensures { result ≡ is_set_once name.now self.now }
    {
        self.repeated.find(name).is_none() && self.places.find(name).is_some()
    }
}

// The value of the field at this place, if there is one.
fn datum_placed(fields: &[FieldValue], place: Option<usize>) -> Option<Datum>
    ensures { result ≡ datum_placed fields.now place }
{
    match fields.get(place?) {
        Some(field) => field.value,
        None => None,
    }
}

// Puts the field behind the others, and notes its name.
fn push_field(
    values: &mut Vec<FieldValue>,
    places: &mut NameIndex,
    repeated: &mut NameIndex,
    field: FieldValue,
) -> Result<(), AllocError>
    requires places { ArePlaces values.old.items places.old }
    requires repeated { AreRepeated values.old.items repeated.old }
    ensures places { ArePlaces values.new.items places.new }
    ensures repeated { AreRepeated values.new.items repeated.new }
    ensures ok { OnOk result (values.new.items ≡ values.old.items ++ field ∷ []) }
    ensures err { OnErr result (values.new.items ≡ values.old.items) }
{
    let name = field.name.copy()?;
    let place = values.len();
    values.push(field)?;
    match note_set(places, repeated, &name, place) {
        Ok(()) => Ok(()),
        Err(error) => {
            let _ = values.pop();
            Err(error)
        }
    }
}

// Notes that the field of this name is set at this place.
fn note_set(
    places: &mut NameIndex,
    repeated: &mut NameIndex,
    name: &Text,
    place: usize,
) -> Result<(), AllocError>
    ensures ok { OnOk result (NotesSet name.now place places.old repeated.old places.new repeated.new) }
    ensures places { OnErr result (places.new ≡ places.old) }
    ensures repeated { OnErr result (repeated.new ≡ repeated.old) }
{
    let is_new = places.note(name, place)?;
    if !is_new {
        let _ = repeated.note(name, place)?;
    }
    Ok(())
}
