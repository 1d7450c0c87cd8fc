//! The model: what a problem's text says, as lists.

ghost use Rattle.std.specs.Prelude.{◌≡◌, ◌<◌, ◌^◌, length};
ghost use Rattle.model_core.specs.Lookup.{global_named};

use super::class::{Class, Enum, Object, Pred};
use super::decision::Decision;
use super::item::Item;
use super::rule::Rule;
use super::variable::{VarDecl, first_named};
use domain_core::domain::Dom;
use eu_name::sequence::Sequence;
use eu_name::text::Text;

/// A compiled problem.
#[derive(Drop)]
pub struct Model {
    pub enums: Sequence<Enum>,
    pub classes: Sequence<Class>,
    /// The objects, in order of making.
    pub objects: Sequence<Object>,
    pub preds: Sequence<Pred>,
    pub rules: Sequence<Rule>,
    pub problem: Problem,
}

impl Model {
    /// The number of the global variable of this name.
    pub fn global_named(&self, name: &[u8]) -> Option<u32>
        requires { length self.now.problem.globals < 2 ^ 32 }
        ensures { result ≡ global_named self.now name.now }
    {
        first_named(self.problem.globals.as_slice(), name)
    }
}

/// What is asked for, and within which times.
#[derive(Drop)]
pub struct Problem {
    /// The horizon: the first and the last instant at which a token may start or end.
    pub start: i32,
    pub end: i32,
    /// How many lists a search may visit.
    pub steps: u32,
    /// The tokens that are posted, by number.
    pub roots: Sequence<Root>,
    /// The global variables, by number.
    pub globals: Sequence<VarDecl>,
    /// The constraints of the problem, in order of text.
    pub items: Sequence<Item>,
    /// The decisions of the text, in order.
    pub decisions: Sequence<Placed>,
}

/// A token that the problem posts.
#[derive(Drop)]
pub struct Root {
    pub label: Text,
    pub kind: RootKind,
    pub pred: u32,
    /// The objects that it may be on.
    pub object: Dom,
}

/// What a posted token has to become.
#[derive(Clone, Copy)]
pub enum RootKind {
    /// Active or merged.
    Goal,
    /// Active, merged or rejected.
    Rejectable,
    /// It takes place from the start, and nothing is decided of it.
    Fact,
}

/// A decision of the text, with the file and the place of its first name.
#[derive(Drop)]
pub struct Placed {
    pub decision: Decision,
    pub file: Text,
    pub at: u32,
}
