//! How much the rules of texts have, and which limits they pass.

ghost use Rattle.std.specs.Prelude.{◌≡◌, All, IfOk, OnOk};
ghost use Rattle.nddl_symbols.specs.Finding.{earliest_fault};
ghost use Rattle.nddl_terms.specs.Names.{AreReadInOrder};
ghost use Rattle.nddl_unroll.specs.Weighing.{tree_limits, weighed_tree, weighed_trees};

use super::counting::tree_amounts;
use super::limits::{Weighed, note_limits};
use nddl_symbols::Fault;
use nddl_terms::{Lexicon, RuleTree};
use std::alloc::{AllocError, Global};

// The rule of this text.
fn weighed_tree(lexicon: &Lexicon, tree: &RuleTree) -> Weighed
    requires { AreReadInOrder tree.now.names }
    ensures { result ≡ weighed_tree lexicon.now tree.now }
{
    Weighed {
        pred: tree.pred,
        place: tree.place,
        amounts: tree_amounts(lexicon, tree),
    }
}

/// The rules of these texts, where they are and how much they have. The names of each text stand in order of place.
pub fn weigh(
    alloc: Global,
    lexicon: &Lexicon,
    trees: &[RuleTree],
) -> Result<Vec<Weighed>, AllocError>
    requires { All (λ tree. AreReadInOrder tree.names) trees.now }
    ensures { IfOk result (λ rules. rules.items ≡ weighed_trees lexicon.now trees.now) }
{
    let mut rules = Vec::new(alloc);
    for tree in trees {
        rules.push(weighed_tree(lexicon, tree))?;
    }
    Ok(rules)
}

/// Notes the limits that the rules of these texts pass, which go by predicate. The names of each text stand in order of
/// place.
pub fn note_tree_limits(
    alloc: Global,
    lexicon: &Lexicon,
    trees: &[RuleTree],
    first: &mut Option<Fault>,
) -> Result<(), AllocError>
    requires { All (λ tree. AreReadInOrder tree.names) trees.now }
    ensures { OnOk result (first.new ≡ earliest_fault first.old (tree_limits lexicon.now trees.now)) }
{
    let rules = weigh(alloc, lexicon, trees)?;
    note_limits(rules.as_slice(), first);
    Ok(())
}
