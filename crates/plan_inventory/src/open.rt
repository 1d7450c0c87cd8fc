//! Clause V5: what open blocks ask for is there.

ghost use Rattle.std.specs.Prelude.{◌≡◌, ◌<◌, ℕ, Some, MatchBool, MatchOption, slice_get};
ghost use Rattle.eu_name.specs.declared.name.VarName.TheVariants as variables;
ghost use Rattle.model_core.specs.declared.rule.Rule.{Rule};
ghost use Rattle.model_core.specs.declared.variable.VarDecl.{VarDecl};
ghost use Rattle.model_core.specs.Blocks.{OfSlot, OfLocal};
ghost use Rattle.model_core.specs.Lawful.{IsLawful};
ghost use Rattle.plan_defs.specs.declared.plan.Clause.TheVariants.{V5};
ghost use Rattle.plan_defs.specs.declared.plan.Plan.{Plan};
ghost use Rattle.model_core.specs.Tokens.{slot_token};
ghost use Rattle.plan_defs.specs.Plans.{IsPlanOf, IsTakenIn};
ghost use Rattle.plan_defs.specs.Refusals.{IsDeclared};
ghost use Rattle.plan_defs.specs.Valid.{HasDeclaredValue, IsActivatedAt, IsLineAt};
ghost use Rattle.plan_values.specs.Keys.{IsOrderly};
ghost use Rattle.plan_values.specs.Openings.{StandsInRule};
ghost use Rattle.plan_values.specs.Walks.{HasRuleOf};
ghost use Rattle.plan_inventory.specs.Breaks.{FindsBreak, FindsNumber, IsFirstInRules};
ghost use Rattle.plan_inventory.specs.Asking.{IsSlotKept, IsLocalKept, FindsOnLine};
ghost use Rattle.plan_inventory.specs.Marking.{IsMarked};

use super::asked::activated_by;
use super::bases::pred_in;
use super::marks::Marks;
use super::standing::marks_of;
use eu_name::name::TokenName;
use model_core::model::Model;
use model_core::rule::Rule;
use model_core::variable::VarDecl;
use plan_defs::plan::{Line, Place, Plan};
use plan_values::is_local_declared;
use plan_values::key::TokenKey;
use plan_values::lines::{is_taken, local_value};
use plan_values::rules::rule_of;
use plan_values::tokens::pred_of;

/// Something of a rule: the numbers of the rule, and of the slot or the local in it.
#[derive(Clone, Copy)]
struct InRule {
    rule: u16,
    number: u16,
}

// Whether the slot's token is taken, where the slot is marked.
fn is_slot_kept(plan: &Plan, marks: &Marks, token: &TokenName, rule: u16, slot: u16) -> bool
    requires { IsOrderly plan.now }
    ensures { MatchBool result
        (IsMarked marks.now (OfSlot slot) → IsTakenIn plan.now (slot_token token.now rule slot))
        ((IsMarked marks.now (OfSlot slot) → IsTakenIn plan.now (slot_token token.now rule slot)) → ⊥) }
{
    if marks.has_slot(slot) {
        is_taken(plan, TokenKey::of_slot(token, rule, u32::from(slot)))
    } else {
        true
    }
}

// Whether the local has a value that it is declared with.
fn has_local_value(model: &Model, plan: &Plan, token: &TokenName, rule: u16, number: u16) -> bool
    requires { IsOrderly plan.now }
    ensures { MatchBool result
        (HasDeclaredValue model.now plan.now (variables.Local token.now rule number))
        (HasDeclaredValue model.now plan.now (variables.Local token.now rule number) → ⊥) }
{
    match local_value(plan, TokenKey::of(token), rule, u32::from(number)) {
        Some(value) => is_local_declared(model, token, rule, number, value),
        None => false,
    }
}

// Whether the local has a value that it is declared with, where it is marked.
fn is_local_kept(
    model: &Model,
    plan: &Plan,
    marks: &Marks,
    token: &TokenName,
    rule: u16,
    number: u16,
) -> bool
    requires { IsOrderly plan.now }
    ensures { MatchBool result
        (IsMarked marks.now (OfLocal number)
        → HasDeclaredValue model.now plan.now (variables.Local token.now rule number))
        ((IsMarked marks.now (OfLocal number)
        → HasDeclaredValue model.now plan.now (variables.Local token.now rule number)) → ⊥) }
{
    if marks.has_local(number) {
        has_local_value(model, plan, token, rule, number)
    } else {
        true
    }
}

// How many slots the token's rule of this number has.
fn count_slots(model: &Model, token: &TokenName, rule: u16) -> u16
    requires { IsLawful model.now }
    ensures { (plan : Plan) (slot : ℕ) → StandsInRule model.now plan token.now rule (OfSlot slot) → slot < result }
{
    match rule_of(model, token, rule) {
        Some(found) => found.slots.len() as u16,
        None => 0,
    }
}

// How many locals it has.
fn count_locals(model: &Model, token: &TokenName, rule: u16) -> u16
    requires { IsLawful model.now }
    ensures { (plan : Plan) (number : ℕ) → StandsInRule model.now plan token.now rule (OfLocal number) → number < result }
{
    match rule_of(model, token, rule) {
        Some(found) => found.locals.len() as u16,
        None => 0,
    }
}

/// How many rules the token has.
pub fn count_rules(model: &Model, token: &TokenName) -> u16
    requires { IsLawful model.now }
    ensures below { (number : ℕ) (rule : Rule) → HasRuleOf model.now token.now number rule → number < result }
    ensures there { (number : ℕ) → number < result → (rule : Rule) × HasRuleOf model.now token.now number rule }
{
    match pred_of(model, token) {
        Some(pred) => match pred_in(model, pred) {
            Some(found) => found.rules.len() as u16,
            None => 0,
        },
        None => 0,
    }
}

// The first slot of the token's rule of this number that isn't kept.
fn unkept_slot_in(model: &Model, plan: &Plan, token: &TokenName, rule: u16) -> Option<u16>
    requires lawful { IsLawful model.now }
    requires orderly { IsOrderly plan.now }
    ensures { FindsNumber (IsSlotKept model.now plan.now token.now rule) result }
{
    let marks = marks_of(model, plan, token, rule);
    for slot in 0..count_slots(model, token, rule) {
        if !is_slot_kept(plan, &marks, token, rule, slot) {
            return Some(slot);
        }
    }
    None
}

// The first local of the token's rule of this number that isn't kept.
fn unkept_local_in(model: &Model, plan: &Plan, token: &TokenName, rule: u16) -> Option<u16>
    requires lawful { IsLawful model.now }
    requires orderly { IsOrderly plan.now }
    ensures { FindsNumber (IsLocalKept model.now plan.now token.now rule) result }
{
    let marks = marks_of(model, plan, token, rule);
    for number in 0..count_locals(model, token, rule) {
        if !is_local_kept(model, plan, &marks, token, rule, number) {
            return Some(number);
        }
    }
    None
}

// The first slot of the token's rules that isn't kept.
fn unkept_slot(model: &Model, plan: &Plan, token: &TokenName) -> Option<InRule>
    requires lawful { IsLawful model.now }
    requires orderly { IsOrderly plan.now }
    ensures { MatchOption result
        ((rule slot : ℕ) → IsSlotKept model.now plan.now token.now rule slot)
        (λ found. IsFirstInRules (IsSlotKept model.now plan.now token.now) found.rule found.number) }
{
    for rule in 0..count_rules(model, token) {
        if let Some(number) = unkept_slot_in(model, plan, token, rule) {
            return Some(InRule { rule, number });
        }
    }
    None
}

// The first local of the token's rules that isn't kept.
fn unkept_local(model: &Model, plan: &Plan, token: &TokenName) -> Option<InRule>
    requires lawful { IsLawful model.now }
    requires orderly { IsOrderly plan.now }
    ensures { MatchOption result
        ((rule number : ℕ) → IsLocalKept model.now plan.now token.now rule number)
        (λ found. IsFirstInRules (IsLocalKept model.now plan.now token.now) found.rule found.number) }
{
    for rule in 0..count_rules(model, token) {
        if let Some(number) = unkept_local_in(model, plan, token, rule) {
            return Some(InRule { rule, number });
        }
    }
    None
}

// The first slot of the token's rules that isn't kept, or else the first local, where the token takes place by this line.
fn unkept_of(model: &Model, plan: &Plan, line: u32, token: &TokenName) -> Option<Place>
    requires lawful { IsLawful model.now }
    requires orderly { IsOrderly plan.now }
    requires activated { IsActivatedAt plan.now line token.now }
    ensures { FindsOnLine model.now plan.now V5 line result }
{
    match unkept_slot(model, plan, token) {
        Some(found) => Some(Place::Slot {
            line,
            rule: found.rule,
            slot: found.number,
        }),
        None => match unkept_local(model, plan, token) {
            Some(found) => Some(Place::Local {
                line,
                rule: found.rule,
                number: found.number,
            }),
            None => None,
        },
    }
}

// The first slot or local that isn't kept of the token that takes place by this line, if one does.
fn unkept_at(model: &Model, plan: &Plan, place: u32, line: &Line) -> Option<Place>
    requires lawful { IsLawful model.now }
    requires orderly { IsOrderly plan.now }
    requires there { IsLineAt plan.now place line.now }
    ensures { FindsOnLine model.now plan.now V5 place result }
{
    match activated_by(line) {
        Some(token) => unkept_of(model, plan, place, token),
        None => None,
    }
}

/// The first slot in an open block whose token isn't taken, or local without a value of its base; of one token the slots come
/// before the locals.
pub fn broken_open(model: &Model, plan: &Plan) -> Option<Place>
    requires lawful { IsLawful model.now }
    requires is_plan { IsPlanOf model.now plan.now }
    requires orderly { IsOrderly plan.now }
    ensures { FindsBreak model.now plan.now V5 result }
{
    for (place, line) in plan.lines.as_slice().iter().enumerate() {
        if let Some(found) = unkept_at(model, plan, place as u32, line) {
            return Some(found);
        }
    }
    None
}
