//! The table of names and types.

use eu_name::sequence::Sequence;
use eu_name::text::Text;
use model_core::class::{Class, Enum, Pred};

/// What the names of files mean, and which types they have. No rules are compiled yet, and no object is made: so
/// predicates are without rules, and what an object variable may be is void.
#[derive(Drop)]
pub struct TypeTable {
    /// In the order of their declarations.
    pub enums: Sequence<Enum>,
    /// The built-in ones, and then those of the files in the order in which they are declared first.
    pub classes: Sequence<Class>,
    /// By class, and of each class those that it inherits first.
    pub preds: Sequence<Pred>,
    /// The names of the files, each where it is declared first, in order.
    pub scope: Sequence<Named>,
}

/// A name with the file and the place where it is declared first.
#[derive(Drop)]
pub struct Named {
    pub name: Text,
    pub kind: NamedKind,
    pub file: Text,
    pub at: u32,
}

/// What a name is.
#[derive(Clone, Copy, Debug, PartialEq, Eq)]
pub enum NamedKind {
    Enum,
    Member,
    Typedef,
    Class,
    Global,
    /// A variable that is made by `new`.
    Object,
    /// The label of a posted token.
    Root,
    /// The settings of a search.
    Config,
}
