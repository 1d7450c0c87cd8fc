//! What is known of a program with whose names, types and rules nothing is wrong.

ghost use Rattle.std.specs.Prelude.{All};
ghost use Rattle.nddl_terms.specs.Names.{AreReadInOrder};

use eu_index::NameIndex;
use nddl_env::Premises;
use nddl_objects::objects::Program as Made;
use nddl_terms::{Lexicon, RuleTree};
use nddl_types::{Groundwork, Program, TypeTable};

/// Files of which this is known, with their table and the trees of their rules.
#[derive(Clone, Copy)]
pub struct Ruled<'a> {
    pub groundwork: &'a Groundwork<'a>,
    pub table: &'a TypeTable,
    pub trees: &'a [RuleTree],
    ghost are_in_order: { All (λ tree. AreReadInOrder tree.names) trees.now },
}

/// The files of a program with their joined declarations, its table and rule trees, the objects that were made, and what
/// its names, classes and predicates stand for with these.
#[derive(Clone, Copy)]
pub struct Outline<'a> {
    pub program: Program<'a>,
    pub table: &'a TypeTable,
    pub trees: &'a [RuleTree],
    pub made: &'a Made,
    pub premises: Premises<'a>,
    pub lexicon: &'a Lexicon,
    /// The names of the table's scope, each with its place there.
    pub scope: &'a NameIndex,
    ghost are_in_order: { All (λ tree. AreReadInOrder tree.names) trees.now },
}
