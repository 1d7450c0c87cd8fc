//! What the rules of a token ask for in a plan.

ghost use Rattle.std.specs.Prelude.{◌≡◌, ◌<◌, MatchOption};
ghost use Rattle.model_core.specs.declared.rule.Rule.{Rule};
ghost use Rattle.model_core.specs.Block.{plain_entries};
ghost use Rattle.model_core.specs.Lawful.{IsLawful};
ghost use Rattle.plan_defs.specs.Plans.{IsActivatedIn};
ghost use Rattle.plan_values.specs.Keys.{IsOrderly};
ghost use Rattle.plan_values.specs.Walks.{HasRuleOf, IsFirstFalse, IsAllTrue};

use super::items::false_among;
use super::terms::Standpoint;
use super::tokens::pred_of;
use eu_name::name::TokenName;
use model_core::model::Model;
use model_core::rule::{Block, Entry, Rule};
use plan_defs::plan::Plan;

/// The rule of this number of the token.
pub fn rule_of<'a>(model: &'a Model, token: &TokenName, number: u16) -> Option<&'a Rule>
    ensures { MatchOption result
        ((rule : Rule) → HasRuleOf model.now token.now number rule → ⊥)
        (λ rule. HasRuleOf model.now token.now number rule.now) }
{
    match pred_of(model, token) {
        Some(pred) => model.rule_of(pred, number),
        None => None,
    }
}

// What stands in the block.
fn contents(block: &Block) -> &[Entry]
    ensures { plain_entries result.now ≡ block.now }
{
    block.entries.as_slice()
}

/// The number of the first item in an open block of the token's rule of this number that isn't true.
pub fn false_item(model: &Model, plan: &Plan, token: &TokenName, number: u16) -> Option<u32>
    requires lawful { IsLawful model.now }
    requires orderly { IsOrderly plan.now }
    requires activated { IsActivatedIn plan.now token.now }
    ensures { MatchOption result
        (IsAllTrue model.now plan.now token.now number)
        (IsFirstFalse model.now plan.now token.now number) }
{
    match rule_of(model, token, number) {
        Some(rule) => false_in_rule(model, plan, token, number, rule),
        None => None,
    }
}

// The number of the first item in an open block of the rule that isn't true.
fn false_in_rule(
    model: &Model,
    plan: &Plan,
    token: &TokenName,
    number: u16,
    rule: &Rule,
) -> Option<u32>
    requires lawful { IsLawful model.now }
    requires orderly { IsOrderly plan.now }
    requires activated { IsActivatedIn plan.now token.now }
    requires has_rule { HasRuleOf model.now token.now number rule.now }
    ensures { MatchOption result
        (IsAllTrue model.now plan.now token.now number)
        (IsFirstFalse model.now plan.now token.now number) }
{
    let at = Standpoint::Rule {
        token,
        rule: number,
    };
    match false_among(model, plan, at, contents(&rule.top), true, 0) {
        Ok(_) => None,
        Err(found) => Some(found),
    }
}
