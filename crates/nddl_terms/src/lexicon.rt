//! What is known of classes, predicates, types and the names of files once all objects are made.

ghost use Rattle.std.specs.Prelude.{◌≡◌, IfOk, slice_get};
ghost use Rattle.nddl_terms.specs.Lexicon.{attribute_class, attribute_kind, attribute_number, class_objects, shape_fields, part_class, part_called, part_kind, place_of_value, pred_class, pred_named, pred_params};

use super::attributes::Attributes;
use super::populations::Populations;
use super::preds::PredShapes;
use super::stands::Stand;
use super::type_shapes::TypeShapes;
use eu_name::name::Part;
use eu_name::sequence::Sequence;
use eu_name::text::Text;
use model_core::variable::{Base, ValueKind};
use std::alloc::AllocError;

/// What a variable may be.
#[derive(Drop)]
pub struct Shape {
    pub kind: ValueKind,
    pub base: Base,
    /// The declared class of what it may be, if these are objects; else it says nothing.
    pub class: u32,
}

/// A field of a class, or a parameter of a predicate.
#[derive(Drop)]
pub struct Attribute {
    pub name: Text,
    pub shape: Shape,
}

/// A class, by its number.
#[derive(Drop)]
pub struct ClassShape {
    /// Its fields, those of its ancestors first.
    pub fields: Attributes,
}

/// A predicate, by its number.
#[derive(Drop)]
pub struct PredShape {
    pub class: u32,
    pub name: Text,
    pub params: Sequence<Attribute>,
}

/// All of them, and what the names of the files stand for, by their places in the scope of the table.
#[derive(Drop)]
pub struct Lexicon {
    pub classes: Sequence<ClassShape>,
    /// The objects of each class.
    pub populations: Populations,
    pub preds: PredShapes,
    pub scope: Sequence<Stand>,
    /// What a variable may be whose type is the name; no name but those of enums and typedefs is one here.
    pub types: TypeShapes,
}

/// The number of the one of this name, which is looked for one after another: for a few, as the parameters of a predicate.
pub fn attribute_number(name: &Text, attributes: &[Attribute]) -> Option<usize>
    ensures { result ≡ attribute_number name.now attributes.now }
{
    for (number, attribute) in attributes.iter().enumerate() {
        if name.as_str() == attribute.name.as_str() {
            return Some(number);
        }
    }
    None
}

/// The kind of the field or parameter of this number.
pub fn attribute_kind(attributes: &[Attribute], number: usize) -> ValueKind
    ensures { result ≡ attribute_kind attributes.now number }
{
    match attributes.get(number) {
        Some(attribute) => attribute.shape.kind,
        None => ValueKind::Int,
    }
}

/// The declared class of the field or parameter of this number.
pub fn attribute_class(attributes: &[Attribute], number: usize) -> u32
    ensures { result ≡ attribute_class attributes.now number }
{
    match attributes.get(number) {
        Some(attribute) => attribute.shape.class,
        None => 0,
    }
}

impl Lexicon {
    /// The fields of a class.
    pub fn fields(&self, class: u32) -> &[Attribute]
        ensures { result.now ≡ shape_fields self.now class }
    {
        match self.classes.as_slice().get(class as usize) {
            Some(shape) => shape.fields.as_slice(),
            None => &[],
        }
    }

    /// The number of the field of this name of a class.
    pub fn field_number(&self, class: u32, name: &Text) -> Option<usize>
        ensures { result ≡ attribute_number name.now (shape_fields self.now class) }
    {
        match self.classes.as_slice().get(class as usize) {
            Some(shape) => shape.fields.number(name),
            None => None,
        }
    }

    /// The objects of a class and of those under it, in the order in which they were made.
    pub fn objects(&self, class: u32) -> &[i32]
        ensures { result.now ≡ class_objects self.now class }
    {
        self.populations.objects(class as usize)
    }

    /// The parameters of a predicate.
    pub fn params(&self, pred: u32) -> &[Attribute]
        ensures { result.now ≡ pred_params self.now pred }
    {
        match self.preds.as_slice().get(pred as usize) {
            Some(shape) => shape.params.as_slice(),
            None => &[],
        }
    }

    /// The class of a predicate, which its tokens' objects are of.
    pub fn pred_class(&self, pred: u32) -> u32
        ensures { result ≡ pred_class self.now pred }
    {
        match self.preds.as_slice().get(pred as usize) {
            Some(shape) => shape.class,
            None => 0,
        }
    }

    /// The kind of a part of a token.
    pub fn part_kind(&self, pred: u32, part: Part) -> ValueKind
        ensures { result ≡ part_kind self.now pred part }
    {
        match part {
            Part::Object => ValueKind::Object,
            Part::Param(number) => attribute_kind(self.params(pred), number as usize),
            _ => ValueKind::Int,
        }
    }

    /// The declared class of a part of a token.
    pub fn part_class(&self, pred: u32, part: Part) -> u32
        ensures { result ≡ part_class self.now pred part }
    {
        match part {
            Part::Object => self.pred_class(pred),
            Part::Param(number) => attribute_class(self.params(pred), number as usize),
            _ => 0,
        }
    }

    /// The part of this name of a token. There is no memory for 2^16 parameters.
    pub fn part_named(&self, pred: u32, name: &Text) -> Result<Option<Part>, AllocError>
        ensures { IfOk result (λ part. part ≡ part_called self.now pred name.now) }
    {
        let word = name.as_str();
        if word == "start" {
            Ok(Some(Part::Start))
        } else if word == "end" {
            Ok(Some(Part::End))
        } else if word == "duration" {
            Ok(Some(Part::Duration))
        } else if word == "object" {
            Ok(Some(Part::Object))
        } else {
            match attribute_number(name, self.params(pred)) {
                Some(number) => Ok(Some(parameter(number)?)),
                None => Ok(None),
            }
        }
    }

    /// The predicate of this name of the class. There is no memory for 2^32 of them.
    pub fn pred_named(&self, class: u32, name: &Text) -> Result<Option<u32>, AllocError>
        ensures { IfOk result (λ pred. pred ≡ pred_named self.now class name.now) }
    {
        match self.preds.named(class, name) {
            Some(place) => Ok(Some(as_number(place)?)),
            None => Ok(None),
        }
    }
}

// The parameter of this number.
fn parameter(number: usize) -> Result<Part, AllocError>
    ensures { IfOk result (λ part. part ≡ Part.Param number) }
{
    if number > 65_535 {
        return Err(AllocError);
    }
    Ok(Part::Param(number as u16))
}

/// The number, of which there is no memory for 2^32.
pub fn as_number(number: usize) -> Result<u32, AllocError>
    ensures { IfOk result (λ same. same ≡ number) }
{
    if number > 4_294_967_295 {
        return Err(AllocError);
    }
    Ok(number as u32)
}

/// The place that the value is as a number from 0 on.
pub fn value_place(value: i32) -> Option<usize>
    ensures { result ≡ place_of_value value }
{
    if value < 0 {
        None
    } else {
        Some(value as usize)
    }
}

/// An equal base in memory of its own.
pub fn copy_base(base: &Base) -> Result<Base, AllocError>
    ensures { IfOk result (λ copied. copied ≡ base.now) }
{
    match base {
        Base::Given(domain) => Ok(Base::Given(domain.copy()?)),
        Base::Void => Ok(Base::Void),
    }
}
