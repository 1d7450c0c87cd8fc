//! The rules of a model.

ghost use Rattle.std.specs.Prelude.{◌≡◌, [], All, IfOk, IsErr, MatchResult, OnOk};
ghost use Rattle.nddl_terms.specs.Names.{AreReadInOrder};
ghost use Rattle.nddl_unroll.specs.Blocks.{unrolled};
ghost use Rattle.nddl_unroll.specs.Rules.{grown_rule, tree_readings, tree_rule, tree_rules};

use super::blocks::unroll_stmts;
use super::places::{no_places, note_stmts};
use model_core::class::Object;
use model_core::rule::{Block, Rule};
use nddl_terms::{Growth, Lexicon, ReadNames, Reading, RuleTree};
use std::alloc::{AllocError, Global};

// The rule that has this.
fn grown_rule(growth: Growth) -> Rule
    ensures { result ≡ grown_rule growth }
{
    let Growth {
        locals,
        slots,
        entries,
        ..
    } = growth;
    Rule {
        top: Block {
            entries: entries.into_vec(),
        },
        slots,
        locals,
    }
}

// The rule that has this, if there was memory for all of it.
fn rule_behind(done: Result<(), AllocError>, growth: Growth) -> Result<Rule, AllocError>
    ensures { MatchResult done (λ _. result ≡ Ok (grown_rule growth)) (λ _. IsErr result) }
{
    match done {
        Ok(()) => Ok(grown_rule(growth)),
        Err(none) => Err(none),
    }
}

// What the rule of this text has behind its statements.
fn fill(
    alloc: Global,
    lexicon: &Lexicon,
    objects: &[Object],
    tree: &RuleTree,
    growth: &mut Growth,
) -> Result<(), AllocError>
    requires { AreReadInOrder tree.now.names }
    ensures { OnOk result (growth.new
        ≡ unrolled (tree_readings lexicon.now objects.now tree.now) [] tree.now.body growth.old) }
{
    let mut places = no_places(alloc);
    note_stmts(tree.body.as_slice(), &mut places)?;
    let reading = Reading {
        lexicon,
        objects,
        names: ReadNames::new(tree.names.as_slice()),
        places: &places,
        pred: tree.pred,
    };
    unroll_stmts(alloc, &reading, &[], tree.body.as_slice(), growth)
}

/// The rule of which this is the text.
pub fn unroll_tree(
    alloc: Global,
    lexicon: &Lexicon,
    objects: &[Object],
    tree: &RuleTree,
) -> Result<Rule, AllocError>
    requires { AreReadInOrder tree.now.names }
    ensures { IfOk result (λ rule. rule ≡ tree_rule lexicon.now objects.now tree.now) }
{
    let mut growth = Growth::new(alloc);
    let done = fill(alloc, lexicon, objects, tree, &mut growth);
    rule_behind(done, growth)
}

/// The rules of which these are the texts, in their order. The names of each text stand in order of place.
pub fn unroll(
    alloc: Global,
    lexicon: &Lexicon,
    objects: &[Object],
    trees: &[RuleTree],
) -> Result<Vec<Rule>, AllocError>
    requires { All (λ tree. AreReadInOrder tree.names) trees.now }
    ensures { IfOk result (λ rules. rules.items ≡ tree_rules lexicon.now objects.now trees.now) }
{
    let mut rules = Vec::new(alloc);
    for tree in trees {
        let rule = unroll_tree(alloc, lexicon, objects, tree)?;
        rules.push(rule)?;
    }
    Ok(rules)
}
