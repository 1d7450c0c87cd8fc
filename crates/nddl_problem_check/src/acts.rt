//! The words behind the last point of a call outside of rules.

ghost use Rattle.std.specs.Prelude.{◌≡◌};
ghost use Rattle.nddl_problem_check.specs.Acts.{act_named};

use eu_name::text::Text;
use nddl_ast::expression::Expr;
use nddl_ast::name::Name;

/// What is done with what stands before the word.
#[derive(Clone, Copy)]
pub enum Act {
    /// A variable is decided to have a value.
    Specify,
    Activate,
    Reject,
    /// A token is merged into another.
    Merge,
    /// No further object of a class is made, which says nothing.
    Close,
}

/// A call with an act as it is written: the names of the path before it, its own name, and its arguments.
#[derive(Clone, Copy)]
pub struct WrittenAct<'a> {
    pub name: &'a Name,
    pub names: &'a [Name],
    pub act: &'a Name,
    pub exprs: &'a [Expr],
}

/// The act of this name.
#[tactic(auto, unfolding(crate::specs::Acts::act_named))]
pub fn act_named(name: &Text) -> Option<Act>
    ensures { result ≡ act_named name.now }
{
    let word = name.as_str();
    if word == "specify" {
        Some(Act::Specify)
    } else if word == "activate" {
        Some(Act::Activate)
    } else if word == "reject" {
        Some(Act::Reject)
    } else if word == "merge" {
        Some(Act::Merge)
    } else if word == "close" {
        Some(Act::Close)
    } else {
        None
    }
}
