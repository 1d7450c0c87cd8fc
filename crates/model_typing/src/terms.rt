//! Terms that are compared.

ghost use Rattle.std.specs.Prelude.{◌≡◌, ◌↔◌, All, Contains, IsTrue, MatchOption};
ghost use Rattle.model_core.specs.Kinds.{AreComparable, AreNumbers, AreOfKind};
ghost use Rattle.model_typing.specs.Ground.{IsGround};
ghost use Rattle.model_typing.specs.Terms.{IsNamed, scope_of};

use super::kinds::{is_of_kind, named_kind};
use super::scope::TermScope;
use super::table::Classes;
use super::values::is_numeric;
use model_core::item::Term;
use model_core::model::Model;
use model_core::variable::ValueKind;

// Whether the term isn't a value as it is written.
fn is_named(term: Term) -> bool
    ensures { IsTrue result ↔ IsNamed term }
{
    match term {
        Term::Lit(_) => false,
        Term::Here(_) => true,
        Term::Slot(_, _) => true,
        Term::Local(_) => true,
        Term::Global(_) => true,
        Term::Root(_, _) => true,
    }
}

// The first of the terms that isn't a value as it is written.
fn first_named(terms: &[Term]) -> Option<Term>
    ensures { MatchOption result
        (All (λ term. IsNamed term → ⊥) terms.now)
        (λ term. IsNamed term × Contains terms.now term) }
{
    for term in terms {
        if is_named(*term) {
            return Some(*term);
        }
    }
    None
}

/// Whether all the terms are of this kind.
pub fn are_of_kind(model: &Model, scope: TermScope<'_>, kind: ValueKind, terms: &[Term]) -> bool
    ensures { IsTrue result ↔ AreOfKind model.now (scope_of scope.entry) kind terms.now }
{
    terms
        .iter()
        .all(|term| is_of_kind(model, scope, kind, *term))
}

// Whether all the terms, one of which is this, are of its kind.
fn are_of_its_kind(model: &Model, scope: TermScope<'_>, term: Term, terms: &[Term]) -> bool
    requires named { IsNamed term }
    requires there { Contains terms.now term }
    ensures { IsTrue result ↔ AreComparable model.now (scope_of scope.entry) terms.now }
{
    match named_kind(model, scope, term) {
        Some(kind) => are_of_kind(model, scope, kind, terms),
        None => false,
    }
}

// Whether values as they are written are of one kind; then they are whole numbers too.
fn are_comparable_values(
    model: &Model,
    classes: &Classes,
    scope: TermScope<'_>,
    terms: &[Term],
) -> bool
    requires ground { IsGround model.now classes.now }
    requires values { All (λ term. IsNamed term → ⊥) terms.now }
    ensures { IsTrue result ↔ AreComparable model.now (scope_of scope.entry) terms.now }
{
    are_of_kind(model, scope, ValueKind::Int, terms)
}

// Whether all the terms, one of which is this, are of its kind, which is one of numbers.
fn are_numbers_of_its_kind(model: &Model, scope: TermScope<'_>, term: Term, terms: &[Term]) -> bool
    requires named { IsNamed term }
    requires there { Contains terms.now term }
    ensures { IsTrue result ↔ AreNumbers model.now (scope_of scope.entry) terms.now }
{
    match named_kind(model, scope, term) {
        Some(kind) => is_numeric(kind) && are_of_kind(model, scope, kind, terms),
        None => false,
    }
}

/// Whether the terms are all of one kind of numbers. If all are values as they are written, they are whole numbers or of neither kind.
pub fn are_numbers(model: &Model, scope: TermScope<'_>, terms: &[Term]) -> bool
    ensures { IsTrue result ↔ AreNumbers model.now (scope_of scope.entry) terms.now }
{
    match first_named(terms) {
        Some(term) => are_numbers_of_its_kind(model, scope, term, terms),
        None => are_of_kind(model, scope, ValueKind::Int, terms),
    }
}

/// Whether the terms are all of one kind.
pub fn are_comparable(
    model: &Model,
    classes: &Classes,
    scope: TermScope<'_>,
    terms: &[Term],
) -> bool
    requires { IsGround model.now classes.now }
    ensures { IsTrue result ↔ AreComparable model.now (scope_of scope.entry) terms.now }
{
    match first_named(terms) {
        Some(term) => are_of_its_kind(model, scope, term, terms),
        None => are_comparable_values(model, classes, scope, terms),
    }
}
