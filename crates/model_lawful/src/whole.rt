//! The whole model.

ghost use Rattle.std.specs.Prelude.{◌↔◌, All, IfOk, IsTrue};
ghost use Rattle.model_core.specs.Kinds.{OfProblem};
ghost use Rattle.model_core.specs.Lawful.{IsLawful, IsLawfulItem, IsLawfulRoot};
ghost use Rattle.model_rules.specs.Distinct.{AreApart, AreFree};
ghost use Rattle.model_lawful.specs.Naming.{HaveGlobalNames};
ghost use Rattle.model_typing.specs.Ground.{AreClassParents, IsGround};
ghost use Rattle.model_lawful.specs.Classes.{AreInLine};
ghost use Rattle.model_lawful.specs.Wholes.{AreNamed, HasLawfulBasis, HasLawfulProblem, HasLawfulTypes, IsLawfulAbove, IsSmallModel};

use super::classes::have_lawful_members;
use super::decisions::are_lawful_decisions;
use super::enums::are_lawful_enums;
use super::naming::{are_apart, have_global_names, have_own_names};
use super::objects::are_lawful_objects;
use super::parents::class_parents;
use super::preds::are_lawful_preds;
use super::problem::{are_lawful_items, are_lawful_roots, has_few_facts, is_horizon};
use eu_forest::Parents;
use model_core::model::Model;
use model_rules::distinct::are_apart as are_preds_apart;
use model_typing::table::Classes;
use model_typing::values::are_lawful_variables;
use std::alloc::{AllocError, Global};

/// How many objects, roots and globals there may be.
pub const MOST: usize = 4096;

/// There are fewer enums, classes, predicates, rules and items than this.
pub const MORE_THAN_MOST: usize = 4_294_967_296;

// Whether there are as few things as there may be.
fn is_small(model: &Model) -> bool
    ensures { IsTrue result ↔ IsSmallModel model.now }
{
    model.enums.len() < MORE_THAN_MOST
        && model.classes.len() < MORE_THAN_MOST
        && model.preds.len() < MORE_THAN_MOST
        && model.rules.len() < MORE_THAN_MOST
        && model.objects.len() <= MOST
        && model.problem.roots.len() <= MOST
        && model.problem.globals.len() <= MOST
        && model.problem.items.len() < MORE_THAN_MOST
}

// Whether the horizon, the enums, the objects and the globals are lawful, and the facts few.
fn has_lawful_basis(model: &Model) -> bool
    ensures { IsTrue result ↔ HasLawfulBasis model.now }
{
    is_horizon(&model.problem)
        && has_few_facts(model.problem.roots.as_slice())
        && are_lawful_enums(model.enums.as_slice())
        && are_lawful_objects(model, model.objects.as_slice())
        && are_lawful_variables(model, model.problem.globals.as_slice())
        && are_lawful_decisions(model, model.problem.decisions.as_slice())
}

// Whether the globals are called as they may be.
fn are_globals_named(alloc: Global, model: &Model) -> Result<bool, AllocError>
    ensures { IfOk result (λ answer. IsTrue answer ↔ HaveGlobalNames model.now.problem.globals) }
{
    have_global_names(alloc, model.problem.globals.as_slice())
}

// Whether no two predicates of one class have one name, and none has that of a field of its class.
fn are_preds_named(alloc: Global, model: &Model) -> Result<bool, AllocError>
    requires { IsSmallModel model.now }
    ensures { IfOk result (λ answer. IsTrue answer ↔ (AreApart model.now.preds × AreFree model.now.classes model.now.preds)) }
{
    are_preds_apart(alloc, model.classes.as_slice(), model.preds.as_slice())
}

// Whether names are as they should be.
fn are_named(alloc: Global, model: &Model) -> Result<bool, AllocError>
    requires { IsSmallModel model.now }
    ensures { IfOk result (λ answer. IsTrue answer ↔ AreNamed model.now) }
{
    let globals = are_globals_named(alloc, model)?;
    if !globals {
        return Ok(false);
    }
    let preds = are_preds_named(alloc, model)?;
    if !preds {
        return Ok(false);
    }
    let apart = are_apart(alloc, model)?;
    if !apart {
        return Ok(false);
    }
    Ok(have_own_names(model))
}

// Whether the roots are lawful.
fn has_lawful_roots(model: &Model, classes: &Classes) -> bool
    requires { IsGround model.now classes.now }
    ensures { IsTrue result ↔ All (IsLawfulRoot model.now) model.now.problem.roots }
{
    are_lawful_roots(model, classes, model.problem.roots.as_slice())
}

// Whether the items of the problem are lawful.
fn has_lawful_items(model: &Model, classes: &Classes) -> bool
    requires { IsGround model.now classes.now }
    ensures { IsTrue result ↔ All (IsLawfulItem model.now OfProblem) model.now.problem.items }
{
    are_lawful_items(model, classes, model.problem.items.as_slice())
}

// Whether they are, where this is known of the classes.
fn has_lawful_problem(alloc: Global, model: &Model, classes: &Classes) -> Result<bool, AllocError>
    requires ground { IsGround model.now classes.now }
    requires small { IsSmallModel model.now }
    ensures { IfOk result (λ answer. IsTrue answer ↔ HasLawfulProblem model.now) }
{
    let preds = are_lawful_preds(alloc, model, classes)?;
    if !preds {
        return Ok(false);
    }
    if !has_lawful_roots(model, classes) {
        return Ok(false);
    }
    Ok(has_lawful_items(model, classes))
}

// Whether the roots, the items and the predicates are lawful of a model whose classes extend these.
fn has_lawful_rest(alloc: Global, model: &Model, parents: Parents) -> Result<bool, AllocError>
    requires parents { AreClassParents model.now parents }
    requires small { IsSmallModel model.now }
    requires basis { HasLawfulBasis model.now }
    ensures { IfOk result (λ answer. IsTrue answer ↔ HasLawfulProblem model.now) }
{
    let classes = Classes::of(alloc, model, parents)?;
    has_lawful_problem(alloc, model, &classes)
}

// Whether the classes are in line, and what stands on them is lawful.
fn is_lawful_above(alloc: Global, model: &Model) -> Result<bool, AllocError>
    requires small { IsSmallModel model.now }
    requires basis { HasLawfulBasis model.now }
    ensures { IfOk result (λ answer. IsTrue answer ↔ IsLawfulAbove model.now) }
{
    let found = class_parents(alloc, model)?;
    match found {
        Some(parents) => has_lawful_rest(alloc, model, parents),
        None => Ok(false),
    }
}

// Whether the names and the members of classes are lawful.
fn has_lawful_types(alloc: Global, model: &Model) -> Result<bool, AllocError>
    requires { IsSmallModel model.now }
    ensures { IfOk result (λ answer. IsTrue answer ↔ HasLawfulTypes model.now) }
{
    let named = are_named(alloc, model)?;
    let members = have_lawful_members(alloc, model, model.classes.as_slice())?;
    Ok(named && members)
}

/// Whether the model is lawful.
pub fn is_lawful(alloc: Global, model: &Model) -> Result<bool, AllocError>
    ensures { IfOk result (λ answer. IsTrue answer ↔ IsLawful model.now) }
{
    if !is_small(model) {
        return Ok(false);
    }
    if !has_lawful_basis(model) {
        return Ok(false);
    }
    let types = has_lawful_types(alloc, model)?;
    if !types {
        return Ok(false);
    }
    is_lawful_above(alloc, model)
}
