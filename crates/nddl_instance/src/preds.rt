//! The predicates of a model.

ghost use Rattle.std.specs.Prelude.{◌≡◌, ◌++◌, ◌∷◌, [], IfOk, OnOk};
ghost use Rattle.eu_forest.specs.Members.{list_at};
ghost use Rattle.nddl_instance.specs.Modelled.{modelled_pred, modelled_preds};
ghost use Rattle.nddl_instance.specs.Putting.{preds_with};

use super::numbers::rule_numbers;
use super::variables::attribute_variables;
use eu_name::sequence::Sequence;
use model_core::class::Pred;
use nddl_rules::lists::list_at;
use nddl_terms::lexicon::as_number;
use nddl_terms::{Lexicon, RuleTree};
use std::alloc::{AllocError, Global};

// The predicate of this number with these rules.
fn modelled_pred(
    alloc: Global,
    lexicon: &Lexicon,
    number: usize,
    rules: &[u32],
    pred: &Pred,
) -> Result<Pred, AllocError>
    ensures { IfOk result (λ made. made ≡ modelled_pred lexicon.now number rules.now pred.now) }
{
    let name = pred.name.copy()?;
    let params = attribute_variables(alloc, lexicon.params(as_number(number)?))?;
    let rules = Sequence::from_vec(rules.to_vec(alloc)?);
    Ok(Pred {
        class: pred.class,
        name,
        params,
        kind: pred.kind,
        rules,
    })
}

// Puts the predicate of this number behind the others, of which these are the rules.
fn push_pred(
    alloc: Global,
    lexicon: &Lexicon,
    lists: &[Sequence<u32>],
    number: usize,
    pred: &Pred,
    made: &mut Sequence<Pred>,
) -> Result<(), AllocError>
    ensures { OnOk result (made.new ≡ made.old ++ modelled_pred lexicon.now number (list_at lists.now number) pred.now ∷ []) }
{
    made.push(modelled_pred(alloc, lexicon, number, list_at(lists, number), pred)?)
}

// The predicates, of which these are the rules.
fn preds_with(
    alloc: Global,
    lexicon: &Lexicon,
    lists: &[Sequence<u32>],
    preds: &[Pred],
) -> Result<Sequence<Pred>, AllocError>
    ensures { IfOk result (λ made. made ≡ preds_with lexicon.now lists.now 0 preds.now) }
{
    let mut made = Sequence::new(alloc);
    for (number, pred) in preds.iter().enumerate() {
        push_pred(alloc, lexicon, lists, number, pred, &mut made)?;
    }
    Ok(made)
}

/// The predicates of a table, with what their parameters may be once objects are made, and with the numbers of their rules,
/// of which these are the texts.
#[tactic(auto, using(crate::proofs::Listed::preds_listed))]
pub fn modelled_preds(
    alloc: Global,
    lexicon: &Lexicon,
    preds: &[Pred],
    trees: &[RuleTree],
) -> Result<Sequence<Pred>, AllocError>
    ensures { IfOk result (λ made. made ≡ modelled_preds lexicon.now trees.now 0 preds.now) }
{
    let lists = rule_numbers(alloc, preds, trees)?;
    preds_with(alloc, lexicon, lists.as_slice(), preds)
}
