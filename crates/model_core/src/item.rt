//! What has to hold: constraints and temporal relations.

use domain_core::kind::Kind;
use eu_name::name::Part;
use eu_name::sequence::Sequence;

/// What has to hold.
#[derive(Drop)]
pub enum Item {
    /// The constraint holds of the values of its arguments.
    Constraint(Kind, Sequence<Term>),
    /// The temporal relation holds between the token of the rule and that of its slot of this number.
    Relation(Rel, u32),
}

/// The temporal relations between two tokens.
#[derive(Clone, Copy, PartialEq, Eq)]
pub enum Rel {
    Any,
    Before,
    After,
    Meets,
    MetBy,
    Equals,
    Contains,
    ContainedBy,
    Starts,
    Ends,
    Parallels,
    ParalleledBy,
    StartsDuring,
    ContainsStart,
    EndsDuring,
    ContainsEnd,
}

/// An argument of a constraint, or a side of a guard.
#[derive(Clone, Copy)]
pub enum Term {
    /// A value as it is written.
    Lit(i32),
    /// A part of the token whose rule it is.
    Here(Part),
    /// A part of the token of a slot, by the slot's number in the rule.
    Slot(u32, Part),
    /// A local variable, by its number in the rule.
    Local(u32),
    /// A global variable, by its number.
    Global(u32),
    /// A part of a root token, by the root's number.
    Root(u32, Part),
}
