//! Objects that are made one after another, and what is found to be wrong on the way.

ghost use Rattle.std.specs.Prelude.{◌≡◌, [], None, false, length, OnOk};
ghost use Rattle.nddl_objects.specs.Construction.{asked_of, object_begun, construction_of, counted, field_added, has_room, subject_of, too_deep, too_many, too_nested, with_field, with_set};

use eu_name::text::Text;
use nddl_ast::TextKind;
use nddl_ast::expression::Creation;
use nddl_construction::{Datum, FieldValue, MadeObject, Scene, SetFields};
use nddl_symbols::{Fault, Meaning, Place, kind_if, note_at};
use std::alloc::{AllocError, Global};

/// The most objects that a program may have.
pub const MOST_OBJECTS: usize = 4096;

/// How deep constructors may make objects in one another. A `new` outside of constructors is 0 deep.
pub const DEEPEST: usize = 16;

/// The objects so far, and the earliest of what making them has met that is wrong.
#[derive(Drop)]
pub struct Making {
    pub objects: Vec<MadeObject>,
    pub first: Option<Fault>,
    /// Whether there were too many objects.
    pub is_full: bool,
    /// Whether they were made too deep in one another.
    pub is_deep: bool,
}

/// An object of a class that is to be made with these arguments.
#[derive(Clone, Copy)]
pub struct Request<'a> {
    pub name: &'a Text,
    /// The number of its name in the scope, if it is declared there.
    pub entry: Option<usize>,
    /// That of the name behind `new`.
    pub place: Place,
    pub class: Meaning,
    pub values: &'a [Option<Datum>],
}

/// A `new` that is carried out: where it is written, and the name of the object that it makes.
#[derive(Clone, Copy)]
pub struct Instantiation<'a> {
    pub scene: Scene<'a>,
    pub creation: &'a Creation,
    pub name: &'a Text,
    /// The number of the name in the scope, if it is declared there.
    pub entry: Option<usize>,
}

/// An object that is being made: its name, the place of the name behind the `new` that makes it, and its number.
#[derive(Clone, Copy)]
pub struct Subject<'a> {
    pub name: &'a Text,
    pub place: Place,
    pub number: usize,
}

/// A constructor that runs: for which object, of the class of which number, and in which scene its body stands.
#[derive(Clone, Copy)]
pub struct Frame<'a> {
    pub subject: Subject<'a>,
    pub entry: usize,
    pub scene: Scene<'a>,
}

impl Making {
    /// No objects yet.
    pub fn new(alloc: Global) -> Making
        ensures { construction_of result ≡ record { objects = []; first = None; is_full = false; is_deep = false } }
    {
        Making {
            objects: Vec::new(alloc),
            first: None,
            is_full: false,
            is_deep: false,
        }
    }

    /// How many objects there are, and so the number of the next one.
    pub fn count(&self) -> usize
        ensures { result ≡ length (construction_of self.now).objects }
    {
        self.objects.len()
    }

    /// Whether one object more can be made.
    pub fn has_room(&self) -> bool
        ensures { result ≡ has_room (construction_of self.now) }
    {
        self.objects.len() < MOST_OBJECTS
    }

    /// Notes that there are too many objects, unless it is known.
    pub fn note_too_many(&mut self, place: Place)
        ensures { construction_of self.new ≡ too_many (construction_of self.old) place }
    {
        let is_first = !self.is_full;
        note_at(
            &mut self.first,
            place.decl,
            place.at,
            kind_if(is_first, TextKind::LimitObjects),
        );
        self.is_full = true;
    }

    // Notes that objects are made too deep in one another, unless it is known.
    fn note_too_deep(&mut self, place: Place)
        ensures { construction_of self.new ≡ too_deep (construction_of self.old) place }
    {
        let is_first = !self.is_deep;
        note_at(
            &mut self.first,
            place.decl,
            place.at,
            kind_if(is_first, TextKind::LimitNew),
        );
        self.is_deep = true;
    }

    // Notes that there are too many objects, if one more would be one too many.
    fn note_counted(&mut self, place: Place)
        ensures { construction_of self.new ≡ counted (construction_of self.old) place }
    {
        if !self.has_room() {
            self.note_too_many(place);
        }
    }

    /// Notes that the object that comes next is too deep, and that it is one too many, if it is that as well.
    pub fn note_too_nested(&mut self, place: Place)
        ensures { construction_of self.new ≡ too_nested (construction_of self.old) place }
    {
        self.note_counted(place);
        self.note_too_deep(place);
    }

    /// Begins the object that is asked for.
    pub fn begin(&mut self, alloc: Global, request: &Request<'_>) -> Result<(), AllocError>
        ensures { OnOk result (construction_of self.new ≡ object_begun (construction_of self.old) (asked_of request.now)) }
    {
        let object = MadeObject {
            name: request.name.copy()?,
            entry: request.entry,
            class: request.class,
            fields: SetFields::new(alloc),
        };
        self.objects.push(object)?;
        Ok(())
    }

    /// Sets the field of the object that is being made.
    pub fn set(
        &mut self,
        subject: &Subject<'_>,
        name: &Text,
        value: Option<Datum>,
    ) -> Result<(), AllocError>
        ensures { OnOk result (construction_of self.new
            ≡ with_set (construction_of self.old) (subject_of subject.now) name.now value) }
    {
        let field = FieldValue {
            name: name.copy()?,
            value,
        };
        add_field(&mut self.objects, subject.number, field)
    }
}

// Puts the field behind the others of the object of this number.
fn add_field(
    objects: &mut Vec<MadeObject>,
    number: usize,
    field: FieldValue,
) -> Result<(), AllocError>
    ensures { OnOk result (objects.new.items ≡ with_field objects.old.items number field) }
{
    if number < objects.len() {
        push_field(&mut objects[number], field)
    } else {
        Ok(())
    }
}

fn push_field(object: &mut MadeObject, field: FieldValue) -> Result<(), AllocError>
    ensures { OnOk result (object.new ≡ field_added object.old field) }
{
    object.fields.push(field)
}
