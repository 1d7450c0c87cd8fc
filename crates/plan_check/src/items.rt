//! Clause V7: what the problem and the open blocks say holds.

ghost use Rattle.std.specs.Prelude.{◌≡◌, ◌<◌, ℕ, MatchBool, MatchOption, slice_get};
ghost use Rattle.model_core.specs.Lawful.{IsLawful};
ghost use Rattle.plan_defs.specs.declared.plan.Clause.TheVariants.{V7};
ghost use Rattle.plan_defs.specs.Plans.{IsPlanOf, IsActivatedIn};
ghost use Rattle.plan_defs.specs.Valid.{IsTrueInRule, IsActivatedAt, IsLineAt};
ghost use Rattle.plan_values.specs.Keys.{IsOrderly};
ghost use Rattle.plan_inventory.specs.Breaks.{FindsBreak, FindsNumber, IsFirstInRules};
ghost use Rattle.plan_inventory.specs.Asking.{FindsOnLine};
ghost use Rattle.plan_check.specs.Items.{IsProblemItemTrue};

use eu_name::name::TokenName;
use model_core::model::Model;
use plan_defs::plan::{Line, Place, Plan};
use plan_inventory::{activated_by, count_rules};
use plan_values::claims::is_item_true;
use plan_values::rules::false_item;
use plan_values::terms::Standpoint;

/// The numbers of a rule, and of an item in it.
#[derive(Clone, Copy)]
struct ItemOf {
    rule: u16,
    item: u32,
}

// The first item of the problem that isn't true.
fn false_in_problem(model: &Model, plan: &Plan) -> Option<u32>
    requires lawful { IsLawful model.now }
    requires orderly { IsOrderly plan.now }
    ensures { FindsNumber (IsProblemItemTrue model.now plan.now) result }
{
    for (number, item) in model.problem.items.as_slice().iter().enumerate() {
        if !is_item_true(model, plan, Standpoint::Problem, item) {
            return Some(number as u32);
        }
    }
    None
}

// The first item in open blocks of the token's rules that isn't true.
fn false_in_rules(model: &Model, plan: &Plan, token: &TokenName) -> Option<ItemOf>
    requires lawful { IsLawful model.now }
    requires orderly { IsOrderly plan.now }
    requires activated { IsActivatedIn plan.now token.now }
    ensures { MatchOption result
        ((rule item : ℕ) → IsTrueInRule model.now plan.now token.now rule item)
        (λ found. IsFirstInRules (IsTrueInRule model.now plan.now token.now) found.rule found.item) }
{
    for rule in 0..count_rules(model, token) {
        if let Some(item) = false_item(model, plan, token, rule) {
            return Some(ItemOf { rule, item });
        }
    }
    None
}

// The first item in open blocks of the token's rules that isn't true, where the token takes place by this line.
fn false_of(model: &Model, plan: &Plan, line: u32, token: &TokenName) -> Option<Place>
    requires lawful { IsLawful model.now }
    requires orderly { IsOrderly plan.now }
    requires activated { IsActivatedAt plan.now line token.now }
    ensures { FindsOnLine model.now plan.now V7 line result }
{
    match false_in_rules(model, plan, token) {
        Some(found) => Some(Place::Item {
            line,
            rule: found.rule,
            item: found.item,
        }),
        None => None,
    }
}

// The first item that isn't true of the token that takes place by this line, if one does.
fn false_at(model: &Model, plan: &Plan, place: u32, line: &Line) -> Option<Place>
    requires lawful { IsLawful model.now }
    requires orderly { IsOrderly plan.now }
    requires there { IsLineAt plan.now place line.now }
    ensures { FindsOnLine model.now plan.now V7 place result }
{
    match activated_by(line) {
        Some(token) => false_of(model, plan, place, token),
        None => None,
    }
}

// The first item in an open block that isn't true, where those of the problem are.
fn false_in_blocks(model: &Model, plan: &Plan) -> Option<Place>
    requires lawful { IsLawful model.now }
    requires is_plan { IsPlanOf model.now plan.now }
    requires orderly { IsOrderly plan.now }
    requires problem { (number : ℕ) → IsProblemItemTrue model.now plan.now number }
    ensures { FindsBreak model.now plan.now V7 result }
{
    for (place, line) in plan.lines.as_slice().iter().enumerate() {
        if let Some(found) = false_at(model, plan, place as u32, line) {
            return Some(found);
        }
    }
    None
}

/// The first item of the problem that isn't true, or else the first in an open block.
pub fn broken_item(model: &Model, plan: &Plan) -> Option<Place>
    requires lawful { IsLawful model.now }
    requires is_plan { IsPlanOf model.now plan.now }
    requires orderly { IsOrderly plan.now }
    ensures { FindsBreak model.now plan.now V7 result }
{
    match false_in_problem(model, plan) {
        Some(number) => Some(Place::Problem(number)),
        None => false_in_blocks(model, plan),
    }
}
