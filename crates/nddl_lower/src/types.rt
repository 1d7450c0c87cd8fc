//! What variables of a type may be.

ghost use Rattle.std.specs.Prelude.{◌≡◌, IfOk};
ghost use Rattle.std.specs.List.{filter_map};
ghost use Rattle.nddl_terms.specs.Readings.{readings_of};
ghost use Rattle.nddl_lower.specs.Locals.{range_base, set_base, base_shape, bounds_base, class_shape, constant_value, decimal_shape, range_end, file_shape, known_number, meaning_shape, numeric_shape, stand_shape, truth_shape, type_shape, value_number, whole_shape, with_base};

use super::arguments::truth_value;
use super::slots::class_base;
use model_core::item::Term;
use model_core::variable::{Base, ValueKind};
use nddl_ast::expression::{BaseType, Bounds, Constant, Type, Value};
use nddl_declarations::domains::{range, set_of_values};
use nddl_terms::lexicon::copy_base;
use nddl_terms::stands::{file_stand, first_stand};
use nddl_terms::{Growth, Lexicon, Made, Meaning, Reading, Shape, Stand};
use std::alloc::{AllocError, Global};

// An object of the class.
fn class_shape(alloc: Global, lexicon: &Lexicon, class: u32) -> Result<Shape, AllocError>
    ensures { IfOk result (λ shape. shape ≡ class_shape lexicon.now class) }
{
    let base = class_base(alloc, lexicon, class)?;
    Ok(Shape {
        kind: ValueKind::Object,
        base,
        class,
    })
}

// All numbers of the kind.
fn numeric_shape(kind: ValueKind) -> Result<Shape, AllocError>
    ensures { IfOk result (λ shape. shape ≡ numeric_shape kind) }
{
    let domain = range(-1_000_000, 1_000_000)?;
    Ok(Shape {
        kind,
        base: Base::Given(domain),
        class: 0,
    })
}

// Any whole number.
fn whole_shape() -> Result<Shape, AllocError>
    ensures { IfOk result (λ shape. shape ≡ whole_shape) }
{
    numeric_shape(ValueKind::Int)
}

// Any decimal.
fn decimal_shape() -> Result<Shape, AllocError>
    ensures { IfOk result (λ shape. shape ≡ decimal_shape) }
{
    numeric_shape(ValueKind::Float)
}

fn truth_shape(alloc: Global) -> Result<Shape, AllocError>
    ensures { IfOk result (λ shape. shape ≡ truth_shape) }
{
    let domain = set_of_values(alloc, &[0, 1])?;
    Ok(Shape {
        kind: ValueKind::Bool,
        base: Base::Given(domain),
        class: 0,
    })
}

// An object of the class that a name stands for.
fn stand_shape(alloc: Global, lexicon: &Lexicon, stand: Option<Stand>) -> Result<Shape, AllocError>
    ensures { IfOk result (λ shape. shape ≡ stand_shape lexicon.now stand) }
{
    match stand {
        Some(Stand::Class(class)) => class_shape(alloc, lexicon, class),
        _ => whole_shape(),
    }
}

// An equal shape in memory of its own.
fn copy_shape(shape: &Shape) -> Result<Shape, AllocError>
    ensures { IfOk result (λ copied. copied ≡ shape.now) }
{
    let base = copy_base(&shape.base)?;
    Ok(Shape {
        kind: shape.kind,
        base,
        class: shape.class,
    })
}

// What the name of this place in the scope is as a type.
fn file_shape(alloc: Global, lexicon: &Lexicon, place: u32) -> Result<Shape, AllocError>
    ensures { IfOk result (λ shape. shape ≡ file_shape lexicon.now place) }
{
    match lexicon.types.named(place as usize) {
        Some(shape) => copy_shape(shape),
        None => stand_shape(alloc, lexicon, file_stand(lexicon, place)),
    }
}

fn meaning_shape(
    alloc: Global,
    lexicon: &Lexicon,
    meaning: Option<Meaning>,
) -> Result<Shape, AllocError>
    ensures { IfOk result (λ shape. shape ≡ meaning_shape lexicon.now meaning) }
{
    match meaning {
        Some(Meaning::Scope(place)) => file_shape(alloc, lexicon, place),
        Some(Meaning::BuiltIn(class)) => class_shape(alloc, lexicon, class),
        _ => whole_shape(),
    }
}

// What a variable may be, before the bounds of its type restrict it.
fn base_shape(alloc: Global, reading: &Reading<'_>, base: &BaseType) -> Result<Shape, AllocError>
    ensures { IfOk result (λ shape. shape ≡ base_shape (readings_of reading.now) base.now) }
{
    match base {
        BaseType::Float => decimal_shape(),
        BaseType::Bool => truth_shape(alloc),
        BaseType::Named(name) => {
            let meaning = reading.names.meaning(name.at);
            meaning_shape(alloc, reading.lexicon, meaning)
        }
        _ => whole_shape(),
    }
}

// A value that is known.
fn known_number(stand: Stand) -> Option<i32>
    ensures { result ≡ known_number stand }
{
    match stand {
        Stand::Value {
            term: Term::Lit(value),
            ..
        } => Some(value),
        _ => None,
    }
}

// The value of this kind that a constant is or stands for.
fn constant_value(kind: ValueKind, constant: Constant) -> Option<i32>
    ensures { result ≡ constant_value kind constant }
{
    match (kind, constant) {
        (ValueKind::Float, _) => constant.decimal(),
        (_, Constant::Number(number)) => Some(number),
        (_, Constant::Truth(truth)) => Some(truth_value(truth)),
        (_, Constant::Decimal(_)) => None,
    }
}

fn value_number(
    reading: &Reading<'_>,
    turns: &[Made],
    growth: &Growth,
    kind: ValueKind,
    value: &Value,
) -> Option<i32>
    ensures { result ≡ value_number (readings_of reading.now) turns.now growth.now kind value.now }
{
    match value {
        Value::Name(name) => known_number(first_stand(reading, turns, growth, name.at)),
        Value::Literal(literal) => constant_value(kind, literal.constant),
    }
}

// An end of a range.
fn end_number(
    reading: &Reading<'_>,
    turns: &[Made],
    growth: &Growth,
    kind: ValueKind,
    value: &Value,
) -> i32
    ensures { result ≡ range_end (readings_of reading.now) turns.now growth.now kind value.now }
{
    match value_number(reading, turns, growth, kind, value) {
        Some(number) => number,
        None => 0,
    }
}

// The numbers of these values.
fn value_numbers(
    alloc: Global,
    reading: &Reading<'_>,
    turns: &[Made],
    growth: &Growth,
    kind: ValueKind,
    values: &[Value],
) -> Result<Vec<i32>, AllocError>
    ensures { IfOk result (λ numbers. numbers.items
        ≡ filter_map (value_number (readings_of reading.now) turns.now growth.now kind) values.now) }
{
    let mut numbers = Vec::new(alloc);
    for value in values {
        if let Some(number) = value_number(reading, turns, growth, kind, value) {
            numbers.push(number)?;
        }
    }
    Ok(numbers)
}

fn range_base(
    reading: &Reading<'_>,
    turns: &[Made],
    growth: &Growth,
    kind: ValueKind,
    least: &Value,
    greatest: &Value,
) -> Result<Base, AllocError>
    ensures { IfOk result (λ base. base
        ≡ range_base (readings_of reading.now) turns.now growth.now kind least.now greatest.now) }
{
    let least = end_number(reading, turns, growth, kind, least);
    let greatest = end_number(reading, turns, growth, kind, greatest);
    let domain = range(least, greatest)?;
    Ok(Base::Given(domain))
}

fn set_base(
    alloc: Global,
    reading: &Reading<'_>,
    turns: &[Made],
    growth: &Growth,
    kind: ValueKind,
    values: &[Value],
) -> Result<Base, AllocError>
    ensures { IfOk result (λ base. base ≡ set_base (readings_of reading.now) turns.now growth.now kind values.now) }
{
    let numbers = value_numbers(alloc, reading, turns, growth, kind, values)?;
    Ok(Base::Given(set_of_values(alloc, numbers.as_slice())?))
}

// What the bounds of a type of this kind leave, if there are any.
fn bounds_base(
    alloc: Global,
    reading: &Reading<'_>,
    turns: &[Made],
    growth: &Growth,
    kind: ValueKind,
    bounds: &Bounds,
) -> Result<Option<Base>, AllocError>
    ensures { IfOk result (λ base. base ≡ bounds_base (readings_of reading.now) turns.now growth.now kind bounds.now) }
{
    match bounds {
        Bounds::All => Ok(None),
        Bounds::Range {
            least,
            greatest,
            ..
        } => Ok(Some(range_base(reading, turns, growth, kind, least, greatest)?)),
        Bounds::Set { values, .. } => Ok(Some(set_base(
            alloc,
            reading,
            turns,
            growth,
            kind,
            values.as_slice(),
        )?)),
    }
}

// The shape with this base in place of its own, if there is one.
fn with_base(shape: Shape, base: Option<Base>) -> Shape
    ensures { result ≡ with_base shape base }
{
    match base {
        Some(base) => Shape {
            kind: shape.kind,
            base,
            class: shape.class,
        },
        None => shape,
    }
}

/// What a variable of the type may be in these turns, with what was made so far.
pub fn type_shape(
    alloc: Global,
    reading: &Reading<'_>,
    turns: &[Made],
    growth: &Growth,
    written: &Type,
) -> Result<Shape, AllocError>
    ensures { IfOk result (λ shape. shape ≡ type_shape (readings_of reading.now) turns.now growth.now written.now) }
{
    let shape = base_shape(alloc, reading, &written.base)?;
    let base = bounds_base(alloc, reading, turns, growth, shape.kind, &written.bounds)?;
    Ok(with_base(shape, base))
}
