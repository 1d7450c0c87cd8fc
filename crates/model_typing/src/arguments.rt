//! The arguments that constraints take.

ghost use Rattle.std.specs.Prelude.{◌≡◌, ◌↔◌, ◌∷◌, [], IsTrue, pos};
ghost use Rattle.domain_core.specs.Constraints.{arity_of};
ghost use Rattle.domain_core.specs.declared.kind.Kind.TheVariants as constraints;
ghost use Rattle.model_core.specs.Kinds.{AreArguments};
ghost use Rattle.model_typing.specs.Ground.{IsGround};
ghost use Rattle.model_typing.specs.Terms.{IsFactor, HasLocalLines, scope_of};

use super::accesses::{Access, accesses_field};
use super::kinds::is_of_kind;
use super::scope::TermScope;
use super::table::Classes;
use super::terms::{are_comparable, are_numbers};
use domain_core::kind::Kind;
use domain_core::number::is_value;
use model_core::item::Term;
use model_core::model::Model;
use model_core::variable::ValueKind;

/// How many arguments the constraint has.
pub fn arity(kind: Kind) -> usize
    ensures { result ≡ arity_of kind }
{
    match kind {
        Kind::AddEq | Kind::MulEq | Kind::TestEq | Kind::TestLeq => 3,
        Kind::AllDiff => 0,
        Kind::Eq | Kind::Neq | Kind::Lt | Kind::Leq | Kind::Field(_) => 2,
    }
}

// Whether the term is a whole number other than 0 as it is written.
fn is_factor(term: Term) -> bool
    ensures { IsTrue result ↔ IsFactor term }
{
    match term {
        Term::Lit(value) => is_value(value) && value != 0,
        Term::Here(_) => false,
        Term::Slot(_, _) => false,
        Term::Local(_) => false,
        Term::Global(_) => false,
        Term::Root(_, _) => false,
    }
}

// Whether the terms may be a number, a factor and their product.
fn are_product(model: &Model, scope: TermScope<'_>, terms: &[Term]) -> bool
    ensures { IsTrue result ↔ AreArguments model.now (scope_of scope.entry) constraints.MulEq terms.now }
{
    match terms {
        [first, factor, product] => {
            is_factor(*factor) && are_numbers(model, scope, &[*first, *product])
        }
        _ => false,
    }
}

// Whether the terms may be a truth and what is compared with another.
fn are_equality(model: &Model, classes: &Classes, scope: TermScope<'_>, terms: &[Term]) -> bool
    requires { IsGround model.now classes.now }
    ensures { IsTrue result ↔ AreArguments model.now (scope_of scope.entry) constraints.TestEq terms.now }
{
    match terms {
        [truth, compared @ ..] => {
            is_of_kind(model, scope, ValueKind::Bool, *truth)
                && are_comparable(model, classes, scope, compared)
        }
        [] => false,
    }
}

// Whether the terms may be a truth and numbers that are put in order.
fn are_ordering(model: &Model, scope: TermScope<'_>, terms: &[Term]) -> bool
    ensures { IsTrue result ↔ AreArguments model.now (scope_of scope.entry) constraints.TestLeq terms.now }
{
    match terms {
        [truth, ordered @ ..] => {
            is_of_kind(model, scope, ValueKind::Bool, *truth) && are_numbers(model, scope, ordered)
        }
        [] => false,
    }
}

// Whether the terms may be an object and what is in its field.
fn are_access(
    model: &Model,
    classes: &Classes,
    scope: TermScope<'_>,
    field: u32,
    terms: &[Term],
) -> bool
    requires ground { IsGround model.now classes.now }
    requires scoped { HasLocalLines model.now scope }
    ensures { IsTrue result ↔ AreArguments model.now (scope_of scope.entry) (constraints.Field field) terms.now }
{
    match terms {
        [object, value] => {
            let access = Access {
                field,
                object: *object,
                value: *value,
            };
            accesses_field(model, classes, scope, access)
        }
        _ => false,
    }
}

/// Whether the terms may be the arguments of the constraint.
pub fn are_arguments(
    model: &Model,
    classes: &Classes,
    scope: TermScope<'_>,
    kind: Kind,
    terms: &[Term],
) -> bool
    requires ground { IsGround model.now classes.now }
    requires scoped { HasLocalLines model.now scope }
    ensures { IsTrue result ↔ AreArguments model.now (scope_of scope.entry) kind terms.now }
{
    match kind {
        Kind::Eq => are_comparable(model, classes, scope, terms),
        Kind::Neq => are_comparable(model, classes, scope, terms),
        Kind::Lt => are_numbers(model, scope, terms),
        Kind::Leq => are_numbers(model, scope, terms),
        Kind::AddEq => are_numbers(model, scope, terms),
        Kind::MulEq => are_product(model, scope, terms),
        Kind::TestEq => are_equality(model, classes, scope, terms),
        Kind::TestLeq => are_ordering(model, scope, terms),
        Kind::Field(field) => are_access(model, classes, scope, field, terms),
        Kind::AllDiff => false,
    }
}
