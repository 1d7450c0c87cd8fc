//! What is judged.

ghost use Rattle.std.specs.Prelude.{◌≡◌};
ghost use Rattle.model_typing.specs.declared.scope.TermScope.TheVariants.{InRule};

use model_core::model::Model;
use model_core::rule::Rule;
use model_typing::line::Line;
use model_typing::scope::TermScope;
use model_typing::table::Classes;

/// A rule as one of the predicate of this number, with what is known of the model's classes, and the lines of its locals.
#[derive(Clone, Copy)]
pub struct Judge<'a> {
    pub model: &'a Model,
    pub classes: &'a Classes,
    pub pred: u32,
    pub rule: &'a Rule,
    pub locals: &'a [Line],
}

impl<'a> Judge<'a> {
    /// Where what stands in the rule stands.
    pub fn scope(self) -> TermScope<'a>
        ensures { result ≡ InRule self.entry.pred self.entry.rule self.entry.locals }
    {
        TermScope::InRule(self.pred, self.rule, self.locals)
    }
}
