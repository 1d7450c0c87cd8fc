//! What a problem asks for.

ghost use Rattle.std.specs.Prelude.{◌≡◌, ◌↔◌, ◌≤◌, All, IsTrue, count_by};
ghost use Rattle.eu_name.specs.Word.{IsName};
ghost use Rattle.model_core.specs.Kinds.{OfProblem};
ghost use Rattle.model_core.specs.Lawful.{IsHorizon, IsLawfulItem, IsLawfulRoot, is_fact};
ghost use Rattle.model_core.specs.Variables.{IsGiven};
ghost use Rattle.model_typing.specs.Ground.{IsGround};
ghost use Rattle.model_lawful.specs.Parts.{IsRootOf};

use domain_core::number::is_value;
use eu_name::is_name;
use model_core::class::Pred;
use model_core::item::Item;
use model_core::model::{Model, Problem, Root, RootKind};
use model_core::variable::{Base, ValueKind, VarDecl};
use model_typing::classes::are_objects_in;
use model_typing::finding::pred_at;
use model_typing::items::is_lawful_item;
use model_typing::scope::TermScope;
use model_typing::table::Classes;
use model_typing::values::is_in_kind;

/// How many lists a search may visit at most.
pub const MOST_VISITS: u32 = 1_000_000;

/// How many facts a problem may have.
pub const MOST_FACTS: usize = 512;

/// Whether the horizon and the number of lists that a search may visit are lawful.
pub fn is_horizon(problem: &Problem) -> bool
    ensures { IsTrue result ↔ IsHorizon problem.now }
{
    0 <= problem.start
        && problem.start < problem.end
        && is_value(problem.end)
        && 0 < problem.steps
        && problem.steps <= MOST_VISITS
}

// Whether roots of this kind are facts.
fn is_fact(kind: RootKind) -> bool
    ensures { result ≡ is_fact kind }
{
    match kind {
        RootKind::Fact => true,
        RootKind::Goal | RootKind::Rejectable => false,
    }
}

/// Whether few of the roots are facts.
pub fn has_few_facts(roots: &[Root]) -> bool
    ensures { IsTrue result ↔ (count_by (λ root. is_fact root.kind) roots.now ≤ 512) }
{
    roots.iter().filter(|root| is_fact(root.kind)).count() <= MOST_FACTS
}

// Whether the base isn't void.
fn is_given(base: &Base) -> bool
    ensures { IsTrue result ↔ IsGiven base.now }
{
    match base {
        Base::Given(_) => true,
        Base::Void => false,
    }
}

// Whether none of the variables is void.
fn are_given(variables: &[VarDecl]) -> bool
    ensures { IsTrue result ↔ All (λ variable. IsGiven variable.base) variables.now }
{
    for variable in variables {
        if !is_given(&variable.base) {
            return false;
        }
    }
    true
}

// Whether the root's label is a name.
fn is_labelled(root: &Root) -> bool
    ensures { IsTrue result ↔ IsName root.now.label }
{
    is_name(root.label.as_bytes())
}

// Whether none of the predicate's parameters is void.
fn has_given_params(pred: &Pred) -> bool
    ensures { IsTrue result ↔ All (λ variable. IsGiven variable.base) pred.now.params }
{
    are_given(pred.params.as_slice())
}

// Whether the root is lawful as one of the predicate.
fn is_root_of(model: &Model, classes: &Classes, pred: &Pred, root: &Root) -> bool
    requires { IsGround model.now classes.now }
    ensures { IsTrue result ↔ IsRootOf model.now pred.now root.now }
{
    if !is_labelled(root) {
        return false;
    }
    if !has_given_params(pred) {
        return false;
    }
    if !is_in_kind(model, ValueKind::Object, &root.object) {
        return false;
    }
    are_objects_in(model, &classes.parents, pred.class, &root.object)
}

// Whether the root is of a predicate that there is, none of whose parameters is void, on objects of its class.
fn is_lawful_root(model: &Model, classes: &Classes, root: &Root) -> bool
    requires { IsGround model.now classes.now }
    ensures { IsTrue result ↔ IsLawfulRoot model.now root.now }
{
    match pred_at(model, root.pred) {
        Some(pred) => is_root_of(model, classes, pred, root),
        None => false,
    }
}

/// Whether the roots are all lawful.
pub fn are_lawful_roots(model: &Model, classes: &Classes, roots: &[Root]) -> bool
    requires { IsGround model.now classes.now }
    ensures { IsTrue result ↔ All (IsLawfulRoot model.now) roots.now }
{
    for root in roots {
        if !is_lawful_root(model, classes, root) {
            return false;
        }
    }
    true
}

/// Whether the items of the problem are all lawful.
pub fn are_lawful_items(model: &Model, classes: &Classes, items: &[Item]) -> bool
    requires { IsGround model.now classes.now }
    ensures { IsTrue result ↔ All (IsLawfulItem model.now OfProblem) items.now }
{
    items.iter().all(|item| is_lawful_item(model, classes, TermScope::InProblem, item))
}
