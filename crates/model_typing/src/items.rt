//! Which constraints and relations may stand where.

ghost use Rattle.std.specs.Prelude.{◌↔◌, IsTrue};
ghost use Rattle.model_core.specs.declared.item.Item.TheVariants as items;
ghost use Rattle.model_core.specs.Lawful.{IsLawfulItem};
ghost use Rattle.model_typing.specs.Ground.{IsGround};
ghost use Rattle.model_typing.specs.Terms.{HasSlot, HasLocalLines, scope_of};

use super::arguments::{are_arguments, arity};
use super::scope::TermScope;
use super::table::Classes;
use domain_core::kind::Kind;
use model_core::item::{Item, Term};
use model_core::model::Model;

// Whether the constraint has as many arguments as it takes, and of the kinds that it takes.
fn is_lawful_constraint(
    model: &Model,
    classes: &Classes,
    scope: TermScope<'_>,
    kind: Kind,
    terms: &[Term],
) -> bool
    requires ground { IsGround model.now classes.now }
    requires scoped { HasLocalLines model.now scope }
    ensures { IsTrue result ↔ IsLawfulItem model.now (scope_of scope.entry) (items.Constraint kind terms.now) }
{
    terms.len() == arity(kind) && are_arguments(model, classes, scope, kind, terms)
}

// Whether the scope is a rule that has the slot.
fn has_slot(scope: TermScope<'_>, number: u32) -> bool
    ensures { IsTrue result ↔ HasSlot (scope_of scope.entry) number }
{
    match scope {
        TermScope::InRule(_, rule, _) => (number as usize) < rule.slots.len(),
        TermScope::InProblem => false,
    }
}

/// Whether the item may stand in the scope, as far as it doesn't matter in which block of a rule.
pub fn is_lawful_item(model: &Model, classes: &Classes, scope: TermScope<'_>, item: &Item) -> bool
    requires ground { IsGround model.now classes.now }
    requires scoped { HasLocalLines model.now scope }
    ensures { IsTrue result ↔ IsLawfulItem model.now (scope_of scope.entry) item.now }
{
    match item {
        Item::Constraint(kind, terms) => {
            is_lawful_constraint(model, classes, scope, *kind, terms.as_slice())
        }
        Item::Relation(_, number) => has_slot(scope, *number),
    }
}
