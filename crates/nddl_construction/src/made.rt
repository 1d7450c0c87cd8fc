//! Values of fields, and the objects that are made so far.

ghost use Rattle.std.specs.Prelude.{◌≡◌};
ghost use Rattle.nddl_construction.specs.Scene.{scenery_of};

use super::fields::SetFields;
use eu_name::text::Text;
use nddl_constructors::Formals;
use nddl_hierarchy::Basis;
use nddl_symbols::Meaning;

/// What a value stands for.
#[derive(Clone, Copy, Debug, PartialEq, Eq)]
pub enum Datum {
    Number(i32),
    /// A decimal, in thousandths.
    Decimal(i32),
    Truth(bool),
    /// The member of an enum whose name in the scope has this number.
    Member(usize),
    /// The object of this number.
    Object(usize),
}

/// A field with the value to which it is set; where something is wrong with that, there is none.
#[derive(Drop)]
pub struct FieldValue {
    pub name: Text,
    pub value: Option<Datum>,
}

/// An object that is made, with its fields that are set.
#[derive(Drop)]
pub struct MadeObject {
    pub name: Text,
    /// The number of its name in the scope, if it is declared there.
    pub entry: Option<usize>,
    pub class: Meaning,
    pub fields: SetFields,
}

/// The object of a name of the files, where objects are made one after another.
#[derive(Clone, Copy, Debug, PartialEq, Eq)]
pub enum NamedObject {
    /// No object of this name is made by now.
    Unmade,
    /// The object that is made; none, where something is wrong with that.
    Made(Option<Datum>),
}

/// What is known of a program, and the objects of its names by now, by the numbers of these in the scope.
#[derive(Clone, Copy)]
pub struct Ground<'a> {
    pub basis: Basis<'a>,
    pub named_objects: &'a [NamedObject],
}

/// Where a value is written: the number of the declaration, the formals of the constructor, where it is in one, and their
/// values.
#[derive(Clone, Copy)]
pub struct Scene<'a> {
    pub decl: usize,
    pub formals: Option<&'a Formals>,
    pub values: &'a [Option<Datum>],
}

impl<'a> Scene<'a> {
    /// The body of a constructor that has these formals, and is passed these values.
    pub fn in_body(decl: usize, formals: &'a Formals, values: &'a [Option<Datum>]) -> Scene<'a>
        ensures { scenery_of result ≡ record { decl = decl; formals = formals.now; values = values.now } }
    {
        Scene {
            decl,
            formals: Some(formals),
            values,
        }
    }
}
