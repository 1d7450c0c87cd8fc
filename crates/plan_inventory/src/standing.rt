//! What stands in the open blocks of a rule, found in one walk over them.

ghost use Rattle.std.specs.Prelude.{◌≡◌};
ghost use Rattle.model_core.specs.Block.{plain_entries};
ghost use Rattle.model_core.specs.Blocks.{chosen};
ghost use Rattle.model_core.specs.Lawful.{IsLawful};
ghost use Rattle.plan_values.specs.Keys.{IsOrderly};
ghost use Rattle.plan_values.specs.Meanings.{context_of};
ghost use Rattle.plan_values.specs.Openings.{Allows, StandsWith, StandsInside};
ghost use Rattle.plan_values.specs.Walks.{HasRuleOf};
ghost use Rattle.plan_inventory.specs.Marking.{AddsMarks, MarksRule};

use super::marks::Marks;
use eu_name::name::TokenName;
use model_core::model::Model;
use model_core::rule::{Block, Entry, Rule, Side};
use plan_defs::plan::Plan;
use plan_values::open::opened_side;
use plan_values::rules::rule_of;
use plan_values::terms::Standpoint;

// The block on this side of a branch.
fn block_on<'a>(side: Side, then: &'a Block, otherwise: &'a Block) -> &'a Block
    ensures { result.now ≡ chosen side then.now otherwise.now }
{
    match side {
        Side::Then => then,
        Side::Otherwise => otherwise,
    }
}

// What stands in the block.
fn contents(block: &Block) -> &[Entry]
    ensures { plain_entries result.now ≡ block.now }
{
    block.entries.as_slice()
}

// Marks what stands directly among the entries, or in open blocks inside of them.
#[cycle(marking)]
fn mark_among(model: &Model, plan: &Plan, at: Standpoint, entries: &[Entry], marks: &mut Marks)
    requires { IsOrderly plan.now }
    ensures { AddsMarks
        (StandsInside (Allows model.now plan.now (context_of at.entry)) (plain_entries entries.now))
        marks.old marks.new }
{
    for entry in entries {
        mark_with(model, plan, at, entry, marks);
    }
}

// Marks what the entry is, or what stands in an open block of it.
#[cycle(marking)]
fn mark_with(model: &Model, plan: &Plan, at: Standpoint, entry: &Entry, marks: &mut Marks)
    requires { IsOrderly plan.now }
    ensures { AddsMarks
        (StandsWith (Allows model.now plan.now (context_of at.entry)) entry.now)
        marks.old marks.new }
{
    match entry {
        Entry::Slot(slot) => marks.add_slot(*slot),
        Entry::Local(local) => marks.add_local(*local),
        Entry::Item(_) => {}
        Entry::Branch {
            guard,
            then,
            otherwise,
        } => {
            if let Some(side) = opened_side(model, plan, at, *guard) {
                let block = block_on(side, then, otherwise);
                mark_among(model, plan, at, block.entries.as_slice(), marks);
            }
        }
    }
}

// The marks of what stands in the open blocks of the rule.
fn marks_in(model: &Model, plan: &Plan, token: &TokenName, number: u16, rule: &Rule) -> Marks
    requires lawful { IsLawful model.now }
    requires orderly { IsOrderly plan.now }
    requires has_rule { HasRuleOf model.now token.now number rule.now }
    ensures { MarksRule model.now plan.now token.now number result }
{
    let at = Standpoint::Rule {
        token,
        rule: number,
    };
    let mut marks = Marks::new();
    mark_among(model, plan, at, contents(&rule.top), &mut marks);
    marks
}

/// The marks of what stands in the open blocks of the token's rule of this number.
pub fn marks_of(model: &Model, plan: &Plan, token: &TokenName, number: u16) -> Marks
    requires lawful { IsLawful model.now }
    requires orderly { IsOrderly plan.now }
    ensures { MarksRule model.now plan.now token.now number result }
{
    match rule_of(model, token, number) {
        Some(rule) => marks_in(model, plan, token, number, rule),
        None => Marks::new(),
    }
}
