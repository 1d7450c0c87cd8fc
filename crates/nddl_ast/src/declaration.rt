//! Declarations, the parts of a text.

use super::expression::{Expr, Init, Type};
use super::name::Name;
use super::statement::{Ask, Call, StmtBlock, Variable};
use eu_name::bytes::Bytes;
use eu_name::sequence::Sequence;
use eu_name::text::Text;

/// A type and the name that is declared with it: a field, a parameter, or a formal of a constructor.
#[derive(Drop)]
pub struct Typed {
    pub declared: Type,
    pub name: Name,
}

/// What can stand in the body of a predicate.
#[derive(Drop)]
pub enum PredicatePart {
    Parameter(Typed),
    Constraint(Call),
}

/// What can stand in the body of a constructor.
#[derive(Drop)]
pub enum Set {
    /// `name = ..`
    Field { name: Name, value: Init },
    /// `super(..)`, at the place of the word.
    Super { at: u32, arguments: Sequence<Expr> },
}

/// What can stand in the body of a class.
#[derive(Drop)]
pub enum Member {
    Field(Typed),
    /// `predicate`, a name and a body, at the place of the word.
    Predicate {
        at: u32,
        name: Name,
        parts: Sequence<PredicatePart>,
    },
    /// A name, formals between parentheses, and a body.
    Constructor {
        name: Name,
        formals: Sequence<Typed>,
        sets: Sequence<Set>,
    },
}

/// What a text is a list of. A place without another word is that of the first word.
#[derive(Drop)]
pub enum Decl {
    /// `#include` and the bytes between the quotes.
    Include {
        at: u32,
        file: Bytes,
        file_at: u32,
    },
    /// `enum` and its members, of which there is one. The braces begin at `members_at`.
    Enum {
        at: u32,
        name: Name,
        members_at: u32,
        members: Sequence<Name>,
    },
    /// `typedef`
    Typedef {
        at: u32,
        declared: Type,
        name: Name,
    },
    /// A class that is only named: `class Name;`
    Forward {
        at: u32,
        name: Name,
    },
    /// `class`, perhaps with `extends`.
    Class {
        at: u32,
        name: Name,
        parent: Option<Name>,
        members: Sequence<Member>,
    },
    /// A rule of a predicate: `Class::Predicate` and a block.
    Rule {
        class: Name,
        predicate: Name,
        body: StmtBlock,
    },
    Variable(Variable),
    Call(Call),
    Ask(Ask),
}

/// The declarations of one file, under the name by which it was asked for.
#[derive(Drop)]
pub struct FileDecls {
    pub name: Text,
    pub decls: Sequence<Decl>,
}
