//! Whether a rule is lawful.

ghost use Rattle.std.specs.Prelude.{◌≡◌, ◌↔◌, [], All, IfOk, IsTrue};
ghost use Rattle.model_core.specs.Lawful.{IsLawfulRule, IsLawfulSlot};
ghost use Rattle.model_typing.specs.Ground.{IsGround};
ghost use Rattle.model_typing.specs.Lines.{AreLinesOf};
ghost use Rattle.model_rules.specs.Numbered.{AreOnce, numbers_of};
ghost use Rattle.model_rules.specs.Rules.{HasLawfulParts, IsBaseOfClass, StandsNested};

use super::blocks::{contents, is_lawful_block};
use super::judge::Judge;
use super::numbers::{Sort, are_once, numbers_in};
use model_core::model::Model;
use model_core::rule::{Rule, Slot};
use model_core::variable::{Base, ValueKind, VarDecl};
use model_typing::classes::are_objects_of;
use model_typing::finding::pred_at;
use model_typing::table::Classes;
use model_typing::values::{are_lawful_variables, is_base_of};
use std::alloc::{AllocError, Global};

// Whether the base is lawful, and of objects of the class.
fn is_base_of_class(model: &Model, classes: &Classes, class: u32, base: &Base) -> bool
    requires { IsGround model.now classes.now }
    ensures { IsTrue result ↔ IsBaseOfClass model.now class base.now }
{
    is_base_of(model, ValueKind::Object, base)
        && are_objects_of(model, &classes.parents, class, base)
}

// Whether the slot asks for a token of a predicate that there is, on objects of the predicate's class.
fn is_lawful_slot(model: &Model, classes: &Classes, slot: &Slot) -> bool
    requires { IsGround model.now classes.now }
    ensures { IsTrue result ↔ IsLawfulSlot model.now slot.now }
{
    match pred_at(model, slot.pred) {
        Some(pred) => is_base_of_class(model, classes, pred.class, &slot.object),
        None => false,
    }
}

// Whether the slots are all lawful.
fn are_lawful_slots(model: &Model, classes: &Classes, slots: &[Slot]) -> bool
    requires { IsGround model.now classes.now }
    ensures { IsTrue result ↔ All (IsLawfulSlot model.now) slots.now }
{
    slots
        .iter()
        .all(|slot| is_lawful_slot(model, classes, slot))
}

// Whether the variables have no names.
fn are_unnamed(variables: &[VarDecl]) -> bool
    ensures { IsTrue result ↔ All (λ variable. variable.name ≡ []) variables.now }
{
    variables
        .iter()
        .all(|variable| variable.name.as_bytes().is_empty())
}

// Whether the slots and the locals of the rule are lawful.
fn has_lawful_parts(model: &Model, classes: &Classes, rule: &Rule) -> bool
    requires { IsGround model.now classes.now }
    ensures { IsTrue result ↔ HasLawfulParts model.now rule.now }
{
    are_lawful_slots(model, classes, rule.slots.as_slice())
        && are_lawful_variables(model, rule.locals.as_slice())
        && are_unnamed(rule.locals.as_slice())
}

// Whether each slot, or local, below the count stands once in the rule, and no other does.
fn stand_once(alloc: Global, sort: Sort, count: usize, rule: &Rule) -> Result<bool, AllocError>
    ensures { IfOk result (λ answer. IsTrue answer ↔ AreOnce count (numbers_of sort rule.now.top)) }
{
    let numbers = numbers_in(alloc, sort, contents(&rule.top))?;
    are_once(alloc, count, numbers.as_slice())
}

// Whether the blocks of the rule are lawful, and each slot and local stands in them once. It is this that is told first, since names
// are then few in each block.
fn stands_nested(alloc: Global, judge: Judge<'_>) -> Result<bool, AllocError>
    requires ground { IsGround judge.model.now judge.classes.now }
    requires lines { AreLinesOf judge.model.now judge.rule.now.locals judge.locals.now }
    ensures { IfOk result (λ answer. IsTrue answer ↔ StandsNested judge.entry.model.now judge.entry.pred judge.entry.rule.now) }
{
    let slots = stand_once(alloc, Sort::Slots, judge.rule.slots.len(), judge.rule)?;
    let locals = stand_once(alloc, Sort::Locals, judge.rule.locals.len(), judge.rule)?;
    if !slots {
        return Ok(false);
    }
    if !locals {
        return Ok(false);
    }
    is_lawful_block(alloc, judge, 0, &[], contents(&judge.rule.top))
}

/// Whether the rule is lawful as one of the predicate.
pub fn is_lawful_rule(alloc: Global, judge: Judge<'_>) -> Result<bool, AllocError>
    requires ground { IsGround judge.model.now judge.classes.now }
    requires lines { AreLinesOf judge.model.now judge.rule.now.locals judge.locals.now }
    ensures { IfOk result (λ answer. IsTrue answer ↔ IsLawfulRule judge.entry.model.now judge.entry.pred judge.entry.rule.now) }
{
    if !has_lawful_parts(judge.model, judge.classes, judge.rule) {
        return Ok(false);
    }
    stands_nested(alloc, judge)
}
