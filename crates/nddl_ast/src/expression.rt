//! Expressions, and the types with which variables are declared.

use super::name::{Name, Path};
use eu_name::sequence::Sequence;

/// A decimal as the number of its thousandths.
#[derive(Clone, Copy, Debug, PartialEq, Eq)]
pub struct Thousandths(pub i32);

/// A value that is written out.
#[derive(Clone, Copy, Debug, PartialEq, Eq)]
pub enum Constant {
    /// A number, from -1,000,000 to 1,000,000.
    Number(i32),
    /// A decimal.
    Decimal(Thousandths),
    /// `true` or `false`.
    Truth(bool),
}

/// A constant at its place.
#[derive(Clone, Copy, Debug, PartialEq, Eq)]
pub struct Literal {
    pub constant: Constant,
    pub at: u32,
}

/// What can be an argument.
#[derive(Drop)]
pub enum Expr {
    Path(Path),
    Literal(Literal),
}

/// What can stand in the range or the set of a type.
#[derive(Drop)]
pub enum Value {
    Name(Name),
    Literal(Literal),
}

/// What the values of a type are, before a range or a set restricts them.
#[derive(Drop)]
pub enum BaseType {
    /// `int`
    Int,
    /// `float`
    Float,
    /// `bool`
    Bool,
    /// `string`
    Str,
    /// A class, an enum or a name given by `typedef`. It begins where the type does.
    Named(Name),
}

/// Which values of the base a type has.
#[derive(Drop)]
pub enum Bounds {
    /// All of them.
    All,
    /// Those between two ends, written `[least greatest]`. The place is that of `[`.
    Range {
        at: u32,
        least: Value,
        greatest: Value,
    },
    /// Those that are written out between braces, of which there is one. The place is that of `{`.
    Set {
        at: u32,
        values: Sequence<Value>,
    },
}

/// A type as it is written where something is declared.
#[derive(Drop)]
pub struct Type {
    pub at: u32,
    pub base: BaseType,
    pub bounds: Bounds,
}

/// `new`, a class, and arguments between parentheses. The place is that of the word `new`.
#[derive(Drop)]
pub struct Creation {
    pub at: u32,
    pub class: Name,
    pub arguments: Sequence<Expr>,
}

/// What can stand behind `=`.
#[derive(Drop)]
pub enum Init {
    Expr(Expr),
    New(Creation),
}
