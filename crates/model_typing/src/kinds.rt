//! Of which kind parts of tokens and terms are.

ghost use Rattle.std.specs.Prelude.{◌≡◌, ◌↔◌, IsTrue, Some};
ghost use Rattle.eu_name.specs.declared.name.Part.TheVariants as parts;
ghost use Rattle.model_core.specs.declared.item.Term.TheVariants as named_terms;
ghost use Rattle.model_core.specs.Kinds.{IsOfKind, IsPartOfKind, OfRule, IsInner};
ghost use Rattle.model_typing.specs.Terms.{IsJust, IsNamed, scope_of};

use super::finding::{global_at, local_at, param_at, root_at, slot_at};
use super::scope::TermScope;
use super::values::is_value_of;
use eu_name::name::Part;
use model_core::item::Term;
use model_core::model::Model;
use model_core::rule::Rule;
use model_core::variable::ValueKind;

/// Whether the two kinds are one.
pub fn is_same_kind(one: ValueKind, other: ValueKind) -> bool
    ensures { IsTrue result ↔ (one ≡ other) }
{
    match (one, other) {
        (ValueKind::Int, ValueKind::Int) => true,
        (ValueKind::Float, ValueKind::Float) => true,
        (ValueKind::Bool, ValueKind::Bool) => true,
        (ValueKind::Object, ValueKind::Object) => true,
        (ValueKind::Enum(number), ValueKind::Enum(found)) => number == found,
        _ => false,
    }
}

// Whether this kind was found.
fn is_just(found: Option<ValueKind>, kind: ValueKind) -> bool
    ensures { IsTrue result ↔ (found ≡ Some kind) }
{
    match found {
        Some(other) => is_same_kind(other, kind),
        None => false,
    }
}

// The kind of a parameter.
fn param_kind(model: &Model, pred: u32, number: u16) -> Option<ValueKind>
    ensures { IsJust result (λ kind. IsPartOfKind model.now pred kind (parts.Param number)) }
{
    match param_at(model, pred, number) {
        Some(variable) => Some(variable.kind),
        None => None,
    }
}

// The kind of a part of a token of the predicate.
fn part_kind(model: &Model, pred: u32, part: Part) -> Option<ValueKind>
    ensures { IsJust result (λ kind. IsPartOfKind model.now pred kind part) }
{
    match part {
        Part::Start => Some(ValueKind::Int),
        Part::End => Some(ValueKind::Int),
        Part::Duration => Some(ValueKind::Int),
        Part::Object => Some(ValueKind::Object),
        Part::Param(number) => param_kind(model, pred, number),
    }
}

// The kind of a global.
fn global_kind(model: &Model, scope: TermScope<'_>, number: u32) -> Option<ValueKind>
    ensures { IsJust result (λ kind. IsOfKind model.now (scope_of scope.entry) kind (named_terms.Global number)) }
{
    match global_at(model, number) {
        Some(variable) => Some(variable.kind),
        None => None,
    }
}

// The kind of a part of a root.
fn root_kind(model: &Model, scope: TermScope<'_>, number: u32, part: Part) -> Option<ValueKind>
    ensures { IsJust result (λ kind. IsOfKind model.now (scope_of scope.entry) kind (named_terms.Root number part)) }
{
    match root_at(model, number) {
        Some(root) => part_kind(model, root.pred, part),
        None => None,
    }
}

// The kind of a part of the token of the rule's slot.
fn slot_kind(model: &Model, pred: u32, rule: &Rule, number: u32, part: Part) -> Option<ValueKind>
    ensures { IsJust result (λ kind. IsOfKind model.now (OfRule pred rule.now) kind (named_terms.Slot number part)) }
{
    match slot_at(rule, number) {
        Some(slot) => part_kind(model, slot.pred, part),
        None => None,
    }
}

// The kind of a local of the rule.
fn local_kind(model: &Model, pred: u32, rule: &Rule, number: u32) -> Option<ValueKind>
    ensures { IsJust result (λ kind. IsOfKind model.now (OfRule pred rule.now) kind (named_terms.Local number)) }
{
    match local_at(rule, number) {
        Some(variable) => Some(variable.kind),
        None => None,
    }
}

// The kind of a term that names something of the rule.
fn inner_kind(model: &Model, pred: u32, rule: &Rule, term: Term) -> Option<ValueKind>
    ensures { IsInner term → IsJust result (λ kind. IsOfKind model.now (OfRule pred rule.now) kind term) }
{
    match term {
        Term::Here(part) => part_kind(model, pred, part),
        Term::Slot(number, part) => slot_kind(model, pred, rule, number, part),
        Term::Local(number) => local_kind(model, pred, rule, number),
        Term::Lit(_) => None,
        Term::Global(_) => None,
        Term::Root(_, _) => None,
    }
}

// The kind of a term that names something of a rule, which there is in rules alone.
fn scoped_kind(model: &Model, scope: TermScope<'_>, term: Term) -> Option<ValueKind>
    ensures { IsInner term → IsJust result (λ kind. IsOfKind model.now (scope_of scope.entry) kind term) }
{
    match scope {
        TermScope::InRule(pred, rule, _) => inner_kind(model, pred, rule, term),
        TermScope::InProblem => None,
    }
}

/// The kind of a term that isn't a value as it is written.
pub fn named_kind(model: &Model, scope: TermScope<'_>, term: Term) -> Option<ValueKind>
    ensures { IsNamed term → IsJust result (λ kind. IsOfKind model.now (scope_of scope.entry) kind term) }
{
    match term {
        Term::Lit(_) => None,
        Term::Global(number) => global_kind(model, scope, number),
        Term::Root(number, part) => root_kind(model, scope, number, part),
        Term::Here(_) => scoped_kind(model, scope, term),
        Term::Slot(_, _) => scoped_kind(model, scope, term),
        Term::Local(_) => scoped_kind(model, scope, term),
    }
}

/// Whether the term may be named there, and is of the kind.
pub fn is_of_kind(model: &Model, scope: TermScope<'_>, kind: ValueKind, term: Term) -> bool
    ensures { IsTrue result ↔ IsOfKind model.now (scope_of scope.entry) kind term }
{
    match term {
        Term::Lit(value) => is_value_of(model, kind, value),
        Term::Global(_) => is_just(named_kind(model, scope, term), kind),
        Term::Root(_, _) => is_just(named_kind(model, scope, term), kind),
        Term::Here(_) => is_just(named_kind(model, scope, term), kind),
        Term::Slot(_, _) => is_just(named_kind(model, scope, term), kind),
        Term::Local(_) => is_just(named_kind(model, scope, term), kind),
    }
}
