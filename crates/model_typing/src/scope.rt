//! Where terms stand.

use super::line::Line;
use model_core::rule::Rule;

/// Where a constraint or a guard stands.
#[derive(Clone, Copy)]
pub enum TermScope<'a> {
    InProblem,
    /// In a rule of the predicate of this number, whose locals have these lines.
    InRule(u32, &'a Rule, &'a [Line]),
}
