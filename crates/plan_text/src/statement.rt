//! What one line of a plan text says.

use plan_defs::plan::Line;

/// The word with which a line begins.
#[derive(Clone, Copy, Debug, PartialEq, Eq)]
pub enum Keyword {
    /// `global`
    Global,
    /// `fact`
    Fact,
    /// `token`
    Token,
    /// `merged`
    Merged,
    /// `rejected`
    Rejected,
    /// `local`
    Local,
    /// `end`, behind which there is no line any more
    End,
}

/// What a line says.
#[derive(Drop)]
pub enum Statement {
    /// The global of this number has this value.
    Global(u32, i32),
    /// A line of the plan.
    Of(Line),
}
