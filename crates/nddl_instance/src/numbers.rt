//! The numbers of the rules of predicates.

ghost use Rattle.std.specs.Prelude.{◌≡◌, [], IfOk, OnOk, map};
ghost use Rattle.nddl_rules.specs.Lists.{with_item_at};
ghost use Rattle.nddl_instance.specs.Numbers.{rule_numbers};
ghost use Rattle.nddl_instance.specs.Putting.{with_rule_numbers};

use eu_name::sequence::Sequence;
use model_core::class::Pred;
use nddl_rules::lists::put_at;
use nddl_terms::RuleTree;
use nddl_terms::lexicon::as_number;
use std::alloc::{AllocError, Global};

// No rules of any of the predicates.
fn no_numbers(alloc: Global, preds: &[Pred]) -> Result<Vec<Sequence<u32>>, AllocError>
    ensures { IfOk result (λ lists. lists.items ≡ map (λ pred. []) preds.now) }
{
    let mut lists = Vec::new(alloc);
    for _ in preds {
        lists.push(Sequence::new(alloc))?;
    }
    Ok(lists)
}

// Puts the number of the rule of this text behind those of its predicate.
fn put_tree(
    number: usize,
    tree: &RuleTree,
    lists: &mut Vec<Sequence<u32>>,
) -> Result<(), AllocError>
    ensures { OnOk result (lists.new.items ≡ with_item_at lists.old.items tree.now.pred number) }
{
    put_at(tree.pred as usize, as_number(number)?, lists)
}

// Puts the numbers of these rules behind those of their predicates.
fn put_all(trees: &[RuleTree], lists: &mut Vec<Sequence<u32>>) -> Result<(), AllocError>
    ensures { OnOk result (lists.new.items ≡ with_rule_numbers 0 0 trees.now lists.old.items) }
{
    for (number, tree) in trees.iter().enumerate() {
        put_tree(number, tree, lists)?;
    }
    Ok(())
}

/// The numbers of the rules of each predicate, which are those of their texts.
#[tactic(auto, using(crate::proofs::Putting::all_put))]
pub fn rule_numbers(
    alloc: Global,
    preds: &[Pred],
    trees: &[RuleTree],
) -> Result<Vec<Sequence<u32>>, AllocError>
    ensures { IfOk result (λ lists. lists.items ≡ rule_numbers trees.now 0 preds.now) }
{
    let mut lists = no_numbers(alloc, preds)?;
    put_all(trees, &mut lists)?;
    Ok(lists)
}
