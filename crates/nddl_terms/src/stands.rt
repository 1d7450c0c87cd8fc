//! What names stand for in a rule.

ghost use Rattle.std.specs.Prelude.{◌≡◌, slice_get};
ghost use Rattle.std.specs.Option.{option_or};
ghost use Rattle.nddl_terms.specs.Readings.{readings_of};
ghost use Rattle.nddl_terms.specs.Stands.{declared_stand, file_stand, first_stand, latest_stand, meaning_stand, own_stand, stand_if_at};

use super::growth::Growth;
use super::lexicon::Lexicon;
use super::names::ReadNames;
use crate::Meaning;
use eu_name::name::Part;
use eu_name::sequence::Sequence;
use model_core::class::Object;
use model_core::item::Term;
use model_core::variable::ValueKind;

/// What a path stands for in a rule that is unrolled, as far as it is read.
#[derive(Clone, Copy)]
pub enum Stand {
    /// A value that is known, or a variable; of objects the declared class.
    Value {
        term: Term,
        kind: ValueKind,
        class: u32,
    },
    /// The token of a slot of the rule.
    Slot {
        number: u32,
        pred: u32,
    },
    /// A posted token.
    Root {
        number: u32,
        pred: u32,
    },
    Class(u32),
    /// Nothing that can stand in a rule with which nothing is wrong.
    Nothing,
}

/// What stands for something that the text declares there.
#[derive(Clone, Copy)]
pub struct Made {
    pub at: u32,
    pub stand: Stand,
}

/// Where the text of a rule declares its variables of `foreach` and its locals, and asks for its slots: the place of each
/// name, and for a slot without a label that of the relation.
#[derive(Drop)]
pub struct TextPlaces {
    pub turns: Sequence<u32>,
    pub locals: Sequence<u32>,
    pub slots: Sequence<u32>,
}

/// What is known where a rule of the predicate is unrolled.
#[derive(Clone, Copy)]
pub struct Reading<'a> {
    pub lexicon: &'a Lexicon,
    pub objects: &'a [Object],
    pub names: ReadNames<'a>,
    pub places: &'a TextPlaces,
    pub pred: u32,
}

// What stands for what is declared there, if that is this, and else what was found before.
fn stand_or(at: u32, made: &Made, found: Option<Stand>) -> Option<Stand>
    ensures { result ≡ option_or (stand_if_at at made.now) found }
{
    if made.at == at {
        Some(made.stand)
    } else {
        found
    }
}

// What stands for what is declared there: the latest.
fn latest_stand(at: u32, made: &[Made]) -> Option<Stand>
    ensures { result ≡ latest_stand at made.now }
{
    let mut found = None;
    for one in made {
        found = stand_or(at, one, found);
    }
    found
}

// What stands for the declaration of this number.
fn declared_stand(places: &[u32], number: u32, made: &[Made]) -> Option<Stand>
    ensures { result ≡ declared_stand places.now number made.now }
{
    let at = places.get(number as usize)?;
    latest_stand(*at, made)
}

/// What a name of the files stands for.
pub fn file_stand(lexicon: &Lexicon, place: u32) -> Option<Stand>
    ensures { result ≡ file_stand lexicon.now place }
{
    Some(*lexicon.scope.as_slice().get(place as usize)?)
}

// What stands for what a name means.
fn meaning_stand(
    reading: &Reading<'_>,
    turns: &[Made],
    growth: &Growth,
    meaning: Meaning,
) -> Option<Stand>
    ensures { result ≡ meaning_stand (readings_of reading.now) turns.now growth.now meaning }
{
    match meaning {
        Meaning::Turn(number) => declared_stand(reading.places.turns.as_slice(), number, turns),
        Meaning::Local(number) => declared_stand(
            reading.places.locals.as_slice(),
            number,
            growth.named.as_slice(),
        ),
        Meaning::Slot(number) => declared_stand(
            reading.places.slots.as_slice(),
            number,
            growth.asked.as_slice(),
        ),
        Meaning::Here(part) => Some(own_stand(reading, part)),
        Meaning::Scope(place) => file_stand(reading.lexicon, place),
        Meaning::BuiltIn(class) => Some(Stand::Class(class)),
    }
}

// A part of the token whose rule it is.
fn own_stand(reading: &Reading<'_>, part: Part) -> Stand
    ensures { result ≡ own_stand (readings_of reading.now) part }
{
    Stand::Value {
        term: Term::Here(part),
        kind: reading.lexicon.part_kind(reading.pred, part),
        class: reading.lexicon.part_class(reading.pred, part),
    }
}

/// What the name stands for that is read there, at the front of a path.
pub fn first_stand(reading: &Reading<'_>, turns: &[Made], growth: &Growth, at: u32) -> Stand
    ensures { result ≡ first_stand (readings_of reading.now) turns.now growth.now at }
{
    match reading.names.meaning(at) {
        Some(meaning) => match meaning_stand(reading, turns, growth, meaning) {
            Some(stand) => stand,
            None => Stand::Nothing,
        },
        None => Stand::Nothing,
    }
}
