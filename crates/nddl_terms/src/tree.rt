//! The tree of a rule.

use eu_name::name::Part;
use eu_name::text::Text;
use nddl_ast::statement::Stmt;
use nddl_symbols::Place;
use std::marker::Model;

/// What a name in a rule means.
#[derive(Clone, Copy, PartialEq, Eq)]
pub enum Meaning {
    /// The variable of a `foreach`, by its number among those of the rule.
    Turn(u32),
    /// A local, by its number among those of the rule.
    Local(u32),
    /// The label of a slot, by the number of the slot among those of the rule, with a label or without one.
    Slot(u32),
    /// A part of the token whose rule it is.
    Here(Part),
    /// A name of the files, by its place in the scope of the table.
    Scope(u32),
    /// The built-in class of this number.
    BuiltIn(u32),
}

/// A name where it is read, with what it means.
#[derive(Clone, Copy, PartialEq, Eq)]
pub struct ReadName {
    /// The byte at which the name begins.
    pub at: u32,
    pub meaning: Meaning,
}

/// The text of a rule for one of the predicates that have it. A turn, a local or a slot has its number in the order of
/// the text, before any `foreach` is unrolled.
#[derive(Drop)]
pub struct RuleTree {
    /// The predicate, by its number in the table.
    pub pred: u32,
    /// The file in which the text stands.
    pub file: Text,
    /// Where the rule is: at its first name, or at that of the predicate in whose body it stands.
    pub place: Place,
    /// The statements as they were parsed.
    pub body: Vec<Stmt>,
    /// The names that are read in them, in order.
    pub names: Vec<ReadName>,
}

impl Model for RuleTree {
    ghost use Rattle.nddl_terms.specs.PlainTree.{PlainTree};

    ghost Value = { PlainTree };

    ghost use Rattle.std.specs.Coded.{codes};
    ghost use Rattle.nddl_terms.specs.Code.{statements_code};

    ghost coded = { Prim.hlevel (codes, statements_code) };

    ghost use Rattle.nddl_ast.specs.Block.{statements_of};

    ghost view = { λ inside. record {
      pred = inside.pred;
      file = inside.file;
      place = inside.place;
      body = statements_of inside.body.items;
      names = inside.names.items;
    } };
}
