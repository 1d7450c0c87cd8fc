//! Predicates and their rules.

ghost use Rattle.std.specs.Prelude.{◌≡◌, ◌≢◌, ◌↔◌, ◌<◌, ◌^◌, ◌∷◌, [], List, All, AllPairs, IfOk, IsTrue, MatchOption, Some, length, map, pos, slice_get};
ghost use Rattle.model_core.specs.declared.rule.Rule.{Rule as RuleValue};
ghost use Rattle.eu_name.specs.Word.{IsName};
ghost use Rattle.model_core.specs.Lawful.{HasQuantity, IsLawfulRule, quantity};
ghost use Rattle.model_core.specs.Naming.{IsParameterName, names_of};
ghost use Rattle.model_typing.specs.Ground.{IsGround};
ghost use Rattle.domain_core.specs.Domain.{Range};
ghost use Rattle.model_lawful.specs.Alike.{HaveSameParts};
ghost use Rattle.model_lawful.specs.Preds.{AreLawfulInOrder, AreLawfulPreds, AreLawfulRules, AreRules, HasAllLawful, HasClass, HasFewParams, HasLawfulParams, HasLawfulRules, HasQuantityEnds, IsOfAClass};

use domain_core::domain::Dom;
use eu_name::is_name;
use model_core::class::{Pred, PredKind};
use model_core::model::Model;
use model_core::rule::Rule;
use model_core::variable::{Base, ValueKind, VarDecl};
use model_rules::amounts::are_few;
use model_rules::distinct::are_distinct;
use model_rules::forms::{Form, have_form};
use model_rules::judge::Judge;
use model_rules::rules::is_lawful_rule;
use model_typing::finding::class_at;
use model_typing::kinds::is_same_kind;
use model_typing::table::{Classes, variable_lines};
use model_typing::values::are_lawful_variables;
use std::alloc::{AllocError, Global};

/// How many parameters a predicate may have.
pub const MOST_PARAMS: usize = 32;

/// The greatest quantity.
pub const MOST_QUANTITY: i32 = 1_000_000;

// Whether the variable has the name.
fn is_called(variable: &VarDecl, name: &[u8]) -> bool
    ensures { IsTrue result ↔ (variable.now.name ≡ name.now) }
{
    variable.name.as_bytes() == name
}

// Whether there is the class of this number.
fn has_class(model: &Model, class: u32) -> bool
    ensures { IsTrue result ↔ HasClass model.now class }
{
    match class_at(model, class) {
        Some(_) => true,
        None => false,
    }
}

// Whether the predicate has a name.
fn is_named(pred: &Pred) -> bool
    ensures { IsTrue result ↔ IsName pred.now.name }
{
    is_name(pred.name.as_bytes())
}

// Whether the predicate has a name, and a class that there is.
fn is_of_a_class(model: &Model, pred: &Pred) -> bool
    ensures { IsTrue result ↔ IsOfAClass model.now pred.now }
{
    if !is_named(pred) {
        return false;
    }
    has_class(model, pred.class)
}

// Whether the domain is a range from 0 to the greatest quantity.
fn has_quantity_ends(domain: &Dom) -> bool
    ensures { IsTrue result ↔ HasQuantityEnds domain.now }
{
    domain.is_range() && domain.lo() == 0 && domain.hi() == MOST_QUANTITY
}

// Whether the domain is that of quantities.
fn is_quantity_domain(domain: &Dom) -> bool
    ensures { IsTrue result ↔ (domain.now ≡ Range (pos 0) (pos 1000000)) }
{
    has_quantity_ends(domain)
}

// Whether the base is that of quantities.
fn is_quantity_base(base: &Base) -> bool
    ensures { IsTrue result ↔ (base.now ≡ quantity.base) }
{
    match base {
        Base::Given(domain) => is_quantity_domain(domain),
        Base::Void => false,
    }
}

// Whether the variable has the name, the kind and the base of a quantity.
fn is_like_quantity(variable: &VarDecl) -> bool
    ensures { IsTrue result ↔ HaveSameParts variable.now quantity }
{
    is_called(variable, b"quantity")
        && is_same_kind(variable.kind, ValueKind::Int)
        && is_quantity_base(&variable.base)
}

// Whether the variable is a quantity.
fn is_quantity(variable: &VarDecl) -> bool
    ensures { IsTrue result ↔ (variable.now ≡ quantity) }
{
    is_like_quantity(variable)
}

// Whether there is one variable, and it is a quantity.
fn are_quantity(variables: &[VarDecl]) -> bool
    ensures { IsTrue result ↔ (variables.now ≡ quantity ∷ []) }
{
    match variables {
        [variable] => is_quantity(variable),
        _ => false,
    }
}

// Whether a predicate that does something to a resource has a quantity as its one parameter.
fn has_quantity(kind: PredKind, params: &[VarDecl]) -> bool
    ensures { IsTrue result ↔ HasQuantity kind params.now }
{
    match kind {
        PredKind::Plain => true,
        PredKind::Uses => are_quantity(params),
        PredKind::Produce => are_quantity(params),
        PredKind::Consume => are_quantity(params),
    }
}

// Whether no two parameters have one name.
fn are_params_distinct(alloc: Global, pred: &Pred) -> Result<bool, AllocError>
    ensures { IfOk result (λ answer. IsTrue answer ↔ AllPairs ◌≢◌ (names_of pred.now.params)) }
{
    are_distinct(alloc, pred.params.as_slice())
}

// Whether the parameters have names that parameters may have.
fn has_named_params(pred: &Pred) -> bool
    ensures { IsTrue result ↔ All IsParameterName (names_of pred.now.params) }
{
    have_form(Form::Parameter, pred.params.as_slice())
}

// Whether the parameters are few, and lawful variables.
fn has_few_params(model: &Model, pred: &Pred) -> bool
    ensures { IsTrue result ↔ HasFewParams model.now pred.now }
{
    are_lawful_variables(model, pred.params.as_slice()) && pred.params.len() <= MOST_PARAMS
}

// Whether the parameters are as those of what does something to a resource have to be.
fn has_its_quantity(pred: &Pred) -> bool
    ensures { IsTrue result ↔ HasQuantity pred.now.kind pred.now.params }
{
    has_quantity(pred.kind, pred.params.as_slice())
}

// Whether the parameters are lawful and few, and have names that differ.
fn has_lawful_params(alloc: Global, model: &Model, pred: &Pred) -> Result<bool, AllocError>
    ensures { IfOk result (λ answer. IsTrue answer ↔ HasLawfulParams model.now pred.now) }
{
    let distinct = are_params_distinct(alloc, pred)?;
    if !distinct {
        return Ok(false);
    }
    if !has_few_params(model, pred) {
        return Ok(false);
    }
    if !has_named_params(pred) {
        return Ok(false);
    }
    Ok(has_its_quantity(pred))
}

// The rule of this number.
fn rule_at(model: &Model, place: u32) -> Option<&Rule>
    ensures { MatchOption result
        ((rule : RuleValue) → slice_get model.now.rules place ≡ Some rule → ⊥)
        (λ rule. slice_get model.now.rules place ≡ Some rule.now) }
{
    model.rules.as_slice().get(place as usize)
}

// The rules of these numbers, unless one isn't there.
fn rules_at<'a>(
    alloc: Global,
    model: &'a Model,
    places: &[u32],
) -> Result<Option<Vec<&'a Rule>>, AllocError>
    ensures { IfOk result (λ found. MatchOption found
        ((rules : List RuleValue) → AreRules model.now places.now rules → ⊥)
        (λ rules. AreRules model.now places.now (map (λ rule. rule.now) rules.items))) }
{
    let mut rules = Vec::new(alloc);
    for place in places {
        match rule_at(model, *place) {
            Some(rule) => rules.push(rule)?,
            None => return Ok(None),
        }
    }
    Ok(Some(rules))
}

// Whether the rule is lawful as one of the predicate of this number.
fn is_lawful_as(
    alloc: Global,
    model: &Model,
    classes: &Classes,
    number: u32,
    rule: &Rule,
) -> Result<bool, AllocError>
    requires { IsGround model.now classes.now }
    ensures { IfOk result (λ answer. IsTrue answer ↔ IsLawfulRule model.now number rule.now) }
{
    let locals = variable_lines(alloc, model, &classes.parents, rule.locals.as_slice())?;
    let judge = Judge {
        model,
        classes,
        pred: number,
        rule,
        locals: locals.as_slice(),
    };
    is_lawful_rule(alloc, judge)
}

// Whether the rules are lawful as ones of the predicate of this number.
fn are_lawful_each(
    alloc: Global,
    model: &Model,
    classes: &Classes,
    number: u32,
    rules: &[&Rule],
) -> Result<bool, AllocError>
    requires { IsGround model.now classes.now }
    ensures { IfOk result (λ answer. IsTrue answer ↔ All (IsLawfulRule model.now number) (map (λ rule. rule.now) rules.now)) }
{
    for rule in rules {
        if !is_lawful_as(alloc, model, classes, number, rule)? {
            return Ok(false);
        }
    }
    Ok(true)
}

// Whether the rules are few and lawful.
fn are_lawful_rules(
    alloc: Global,
    model: &Model,
    classes: &Classes,
    number: u32,
    rules: &[&Rule],
) -> Result<bool, AllocError>
    requires { IsGround model.now classes.now }
    ensures { IfOk result (λ answer. IsTrue answer ↔ AreLawfulRules model.now number (map (λ rule. rule.now) rules.now)) }
{
    if !are_few(rules) {
        return Ok(false);
    }
    are_lawful_each(alloc, model, classes, number, rules)
}

// Whether the predicate has rules that are few and lawful.
fn has_lawful_rules(
    alloc: Global,
    model: &Model,
    classes: &Classes,
    number: u32,
    pred: &Pred,
) -> Result<bool, AllocError>
    requires { IsGround model.now classes.now }
    ensures { IfOk result (λ answer. IsTrue answer ↔ HasLawfulRules model.now number pred.now) }
{
    let found = rules_at(alloc, model, pred.rules.as_slice())?;
    match found {
        Some(rules) => are_lawful_rules(alloc, model, classes, number, rules.as_slice()),
        None => Ok(false),
    }
}

// Whether all is lawful of the predicate but perhaps that a field of its class has its name.
fn has_all(
    alloc: Global,
    model: &Model,
    classes: &Classes,
    number: u32,
    pred: &Pred,
) -> Result<bool, AllocError>
    requires { IsGround model.now classes.now }
    ensures { IfOk result (λ answer. IsTrue answer ↔ HasAllLawful model.now number pred.now) }
{
    let params = has_lawful_params(alloc, model, pred)?;
    let rules = has_lawful_rules(alloc, model, classes, number, pred)?;
    Ok(params && rules && is_of_a_class(model, pred))
}

// Whether it is so of each of the predicates.
fn are_lawful_in_order(
    alloc: Global,
    model: &Model,
    classes: &Classes,
    preds: &[Pred],
) -> Result<bool, AllocError>
    requires ground { IsGround model.now classes.now }
    requires few { length preds.now < 2 ^ 32 }
    ensures { IfOk result (λ answer. IsTrue answer ↔ AreLawfulInOrder model.now preds.now) }
{
    for (number, pred) in preds.iter().enumerate() {
        if !has_all(alloc, model, classes, number as u32, pred)? {
            return Ok(false);
        }
    }
    Ok(true)
}

/// Whether all is lawful of the predicates but perhaps that fields have their names.
pub fn are_lawful_preds(alloc: Global, model: &Model, classes: &Classes) -> Result<bool, AllocError>
    requires ground { IsGround model.now classes.now }
    requires few { length model.now.preds < 2 ^ 32 }
    ensures { IfOk result (λ answer. IsTrue answer ↔ AreLawfulPreds model.now) }
{
    are_lawful_in_order(alloc, model, classes, model.preds.as_slice())
}
