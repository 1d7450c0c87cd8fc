//! The types of a problem and its objects: enums, classes, predicates.

use super::variable::VarDecl;
use eu_name::sequence::Sequence;
use eu_name::text::Text;

/// An enum; its members are the values from 0 on, by their place.
#[derive(Drop)]
pub struct Enum {
    pub name: Text,
    pub members: Sequence<Text>,
}

/// A class of objects.
#[derive(Drop)]
pub struct Class {
    pub name: Text,
    /// The class that it extends.
    pub parent: Option<u32>,
    /// Its fields, those of its ancestors first.
    pub fields: Sequence<VarDecl>,
}

/// An object; its number is its value.
#[derive(Drop)]
pub struct Object {
    /// The name of its declaration; an object that was made for a field has the name of the object that has the field, `.` and the field's name.
    pub name: Text,
    pub class: u32,
    /// The values of the fields of its class.
    pub fields: Sequence<i32>,
    pub kind: ObjectKind,
}

/// What an object means for the tokens that are on it.
#[derive(Clone, Copy)]
pub enum ObjectKind {
    Plain,
    /// Its active tokens don't overlap.
    Timeline,
    /// Its uses never take more than the capacity together.
    Reusable { capacity: i32 },
    /// Its level begins at `initial` and stays from `low` to `high`.
    Reservoir { initial: i32, low: i32, high: i32 },
}

/// A predicate of a class: what tokens are of.
#[derive(Drop)]
pub struct Pred {
    pub class: u32,
    pub name: Text,
    pub params: Sequence<VarDecl>,
    pub kind: PredKind,
    /// Its rules, those of its ancestor classes first.
    pub rules: Sequence<u32>,
}

/// What a token of a predicate does to a resource.
#[derive(Clone, Copy)]
pub enum PredKind {
    Plain,
    /// Takes the quantity of a reusable from its start up to its end.
    Uses,
    /// Adds the quantity to a reservoir at its start.
    Produce,
    /// Takes the quantity from a reservoir at its start.
    Consume,
}
