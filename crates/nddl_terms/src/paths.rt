//! What paths stand for in a rule.

ghost use Rattle.std.specs.Prelude.{◌≡◌, IfOk, OnOk};
ghost use Rattle.nddl_terms.specs.Paths.{next_field, known_value, known_stand, part_stand, path_stand, next_stand, rest_stand, read_field, token_stand};
ghost use Rattle.nddl_terms.specs.Readings.{readings_of};

use super::growth::Growth;
use super::lexicon::{Attribute, as_number, attribute_class, attribute_kind, value_place};
use super::stands::{Made, Reading, Stand, first_stand};
use eu_name::name::Part;
use eu_name::text::Text;
use model_core::class::Object;
use model_core::item::Term;
use nddl_ast::name::{Name, Path};
use std::alloc::{AllocError, Global};

// What the object that is this value has in its field of this number.
fn known_value(objects: &[Object], value: i32, number: usize) -> Option<i32>
    ensures { result ≡ known_value objects.now value number }
{
    let place = value_place(value)?;
    let object = objects.get(place)?;
    object.fields.as_slice().get(number).copied()
}

// What that field stands for: its value, with the kind and the class that these fields of the object's class give it.
fn known_stand(objects: &[Object], value: i32, fields: &[Attribute], number: usize) -> Stand
    ensures { result ≡ known_stand objects.now value fields.now number }
{
    match known_value(objects, value, number) {
        Some(value) => Stand::Value {
            term: Term::Lit(value),
            kind: attribute_kind(fields, number),
            class: attribute_class(fields, number),
        },
        None => Stand::Nothing,
    }
}

// The field of a variable: a local more.
fn read_field(
    alloc: Global,
    object: Term,
    fields: &[Attribute],
    number: usize,
    growth: &mut Growth,
) -> Result<Stand, AllocError>
    ensures grown { OnOk result (growth.new ≡ (read_field object fields.now number growth.old).growth) }
    ensures stand { IfOk result (λ stand. stand ≡ (read_field object fields.now number growth.old).stand) }
{
    match fields.get(number) {
        Some(attribute) => {
            let field = as_number(number)?;
            let local = growth.add_access(alloc, object, field, &attribute.shape)?;
            Ok(Stand::Value {
                term: Term::Local(local),
                kind: attribute.shape.kind,
                class: attribute.shape.class,
            })
        }
        None => Ok(Stand::Nothing),
    }
}

// The field of this name of what the term is: of a known object its value.
fn next_field(
    alloc: Global,
    reading: &Reading<'_>,
    object: Term,
    class: u32,
    name: &Text,
    growth: &mut Growth,
) -> Result<Stand, AllocError>
    ensures grown { OnOk result (growth.new
        ≡ (next_field (readings_of reading.now) object class name.now growth.old).growth) }
    ensures stand { IfOk result (λ stand. stand
        ≡ (next_field (readings_of reading.now) object class name.now growth.old).stand) }
{
    let fields = reading.lexicon.fields(class);
    match reading.lexicon.field_number(class, name) {
        Some(number) => match object {
            Term::Lit(value) => Ok(known_stand(reading.objects, value, fields, number)),
            _ => read_field(alloc, object, fields, number, growth),
        },
        None => Ok(Stand::Nothing),
    }
}

// The part of a token as a variable.
fn part_stand(reading: &Reading<'_>, here: Stand, part: Part) -> Stand
    ensures { result ≡ part_stand (readings_of reading.now) here part }
{
    match here {
        Stand::Slot { number, pred } => Stand::Value {
            term: Term::Slot(number, part),
            kind: reading.lexicon.part_kind(pred, part),
            class: reading.lexicon.part_class(pred, part),
        },
        Stand::Root { number, pred } => Stand::Value {
            term: Term::Root(number, part),
            kind: reading.lexicon.part_kind(pred, part),
            class: reading.lexicon.part_class(pred, part),
        },
        _ => Stand::Nothing,
    }
}

// The part of this name of a token of the predicate.
fn token_stand(
    reading: &Reading<'_>,
    here: Stand,
    pred: u32,
    name: &Text,
) -> Result<Stand, AllocError>
    ensures { IfOk result (λ stand. stand ≡ token_stand (readings_of reading.now) here pred name.now) }
{
    match reading.lexicon.part_named(pred, name)? {
        Some(part) => Ok(part_stand(reading, here, part)),
        None => Ok(Stand::Nothing),
    }
}

// What the name stands for behind what stands for this.
fn next_stand(
    alloc: Global,
    reading: &Reading<'_>,
    here: Stand,
    name: &Name,
    growth: &mut Growth,
) -> Result<Stand, AllocError>
    ensures grown { OnOk result (growth.new
        ≡ (next_stand (readings_of reading.now) here name.now growth.old).growth) }
    ensures stand { IfOk result (λ stand. stand
        ≡ (next_stand (readings_of reading.now) here name.now growth.old).stand) }
{
    match here {
        Stand::Value { term, class, .. } => {
            next_field(alloc, reading, term, class, &name.text, growth)
        }
        Stand::Slot { pred, .. } => token_stand(reading, here, pred, &name.text),
        Stand::Root { pred, .. } => token_stand(reading, here, pred, &name.text),
        _ => Ok(Stand::Nothing),
    }
}

/// What the last of the names stands for behind what stands for this.
pub fn rest_stand(
    alloc: Global,
    reading: &Reading<'_>,
    begin: Stand,
    names: &[Name],
    growth: &mut Growth,
) -> Result<Stand, AllocError>
    ensures grown { OnOk result (growth.new
        ≡ (rest_stand (readings_of reading.now) begin names.now growth.old).growth) }
    ensures stand { IfOk result (λ stand. stand
        ≡ (rest_stand (readings_of reading.now) begin names.now growth.old).stand) }
{
    let mut here = begin;
    for name in names {
        here = next_stand(alloc, reading, here, name, growth)?;
    }
    Ok(here)
}

/// What the path stands for.
pub fn path_stand(
    alloc: Global,
    reading: &Reading<'_>,
    turns: &[Made],
    path: &Path,
    growth: &mut Growth,
) -> Result<Stand, AllocError>
    ensures grown { OnOk result (growth.new
        ≡ (path_stand (readings_of reading.now) turns.now path.now growth.old).growth) }
    ensures stand { IfOk result (λ stand. stand
        ≡ (path_stand (readings_of reading.now) turns.now path.now growth.old).stand) }
{
    let begin = first_stand(reading, turns, growth, path.first.at);
    rest_stand(alloc, reading, begin, path.rest.as_slice(), growth)
}
