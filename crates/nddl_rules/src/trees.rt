//! Trees.

ghost use Rattle.std.specs.Prelude.{◌≡◌, ◌++◌, ◌∷◌, [], Ok, Err, IfOk, OnOk, MatchResult, map};
ghost use Rattle.std.specs.List.{flat_map};
ghost use Rattle.nddl_ast.specs.Block.{statements_of};
ghost use Rattle.nddl_rules.specs.Reads.{sources_of};
ghost use Rattle.nddl_rules.specs.Sight.{no_sight};
ghost use Rattle.nddl_rules.specs.Tally.{no_tally};
ghost use Rattle.nddl_rules.specs.Blocks.{block_names};
ghost use Rattle.nddl_rules.specs.Written.{noted_preds, preds_above, texts_written};
ghost use Rattle.nddl_rules.specs.Collected.{all_trees, text_head, text_statements, texts_of, tree_at, tree_with, trees_from};

use super::heads::text_head;
use super::stmts::text_stmts;
use super::texts::RuleTexts;
use crate::blocks::push_stmts_names;
use crate::{
    NameSources, Sight, Tally, TextPlace, noted_preds, places_of, preds_above, texts_written,
};
use eu_index::NameIndex;
use eu_name::sequence::Sequence;
use eu_name::text::Text;
use model_core::class::{Class, Pred};
use nddl_ast::copies::both;
use nddl_ast::statement::Stmt;
use nddl_symbols::Place;
use nddl_symbols::place::file_of;
use nddl_terms::{ReadName, RuleTree};
use std::alloc::{AllocError, Global};

/// The trees of all rules, for each predicate that has them.
pub fn all_trees(
    alloc: Global,
    texts: &RuleTexts<'_>,
    classes: &[Class],
    preds: &[Pred],
) -> Result<Vec<RuleTree>, AllocError>
    ensures { IfOk result (λ trees. trees.items ≡ all_trees (texts_of texts.now) classes.now preds.now) }
{
    let noted = noted_preds(alloc, classes, preds)?;
    index_trees(alloc, texts, classes, preds, &noted)
}

// Finds for each predicate what it inherits from and which rules are written for it, by this index of the predicates.
fn index_trees(
    alloc: Global,
    texts: &RuleTexts<'_>,
    classes: &[Class],
    preds: &[Pred],
    noted: &NameIndex,
) -> Result<Vec<RuleTree>, AllocError>
    requires { noted.now ≡ noted_preds classes.now [] 0 preds.now }
    ensures { IfOk result (λ trees. trees.items ≡ all_trees (texts_of texts.now) classes.now preds.now) }
{
    let above = preds_above(alloc, classes, noted, preds)?;
    let written = texts_written(alloc, noted, preds, texts.decls)?;
    list_trees(alloc, texts, preds, above.as_slice(), written.as_slice())
}

// Lists the trees of predicates that are inherited from these, and for which these rules are written.
fn list_trees(
    alloc: Global,
    texts: &RuleTexts<'_>,
    preds: &[Pred],
    above: &[Option<usize>],
    written: &[Sequence<TextPlace>],
) -> Result<Vec<RuleTree>, AllocError>
    ensures { IfOk result (λ trees. trees.items ≡ trees_from (texts_of texts.now) above.now written.now 0 preds.now) }
{
    let mut trees = Sequence::new(alloc);
    let done = push_all_trees(alloc, texts, preds, above, written, &mut trees);
    behind(done, trees)
}

// The trees, where all went well.
fn behind(
    done: Result<(), AllocError>,
    trees: Sequence<RuleTree>,
) -> Result<Vec<RuleTree>, AllocError>
    ensures { MatchResult done (λ _. IfOk result (λ made. made.items ≡ trees)) (λ fault. result ≡ Err fault) }
{
    match done {
        Ok(()) => Ok(trees.into_vec()),
        Err(fault) => Err(fault),
    }
}

// Puts the trees of the predicates at the end.
fn push_all_trees(
    alloc: Global,
    texts: &RuleTexts<'_>,
    preds: &[Pred],
    above: &[Option<usize>],
    written: &[Sequence<TextPlace>],
    trees: &mut Sequence<RuleTree>,
) -> Result<(), AllocError>
    ensures { OnOk result (trees.new
        ≡ trees.old ++ trees_from (texts_of texts.now) above.now written.now 0 preds.now) }
{
    for (number, pred) in preds.iter().enumerate() {
        let places = places_of(alloc, above, written, number)?;
        push_trees(alloc, texts, number, pred, places.as_slice(), trees)?;
    }
    Ok(())
}

// Puts the trees of the rules at these places at the end, for the predicate of this number.
fn push_trees(
    alloc: Global,
    texts: &RuleTexts<'_>,
    number: usize,
    pred: &Pred,
    places: &[TextPlace],
    trees: &mut Sequence<RuleTree>,
) -> Result<(), AllocError>
    ensures { OnOk result (trees.new
        ≡ trees.old ++ flat_map (tree_at (texts_of texts.now) number pred.now) places.now) }
{
    for place in places {
        push_tree(alloc, texts, number, pred, *place, trees)?;
    }
    Ok(())
}

// Puts the tree of the rule at this place at the end, where its file is there.
fn push_tree(
    alloc: Global,
    texts: &RuleTexts<'_>,
    number: usize,
    pred: &Pred,
    place: TextPlace,
    trees: &mut Sequence<RuleTree>,
) -> Result<(), AllocError>
    ensures { OnOk result (trees.new ≡ trees.old ++ tree_at (texts_of texts.now) number pred.now place) }
{
    let head = text_head(texts.decls, place);
    match file_of(texts.files, texts.sites, head) {
        Some(file) => {
            let tree = tree_of(alloc, texts, number, pred, &file.name, place)?;
            trees.push(tree)
        }
        None => Ok(()),
    }
}

// The tree of the rule at this place of a file.
fn tree_of(
    alloc: Global,
    texts: &RuleTexts<'_>,
    number: usize,
    pred: &Pred,
    file: &Text,
    place: TextPlace,
) -> Result<RuleTree, AllocError>
    ensures { IfOk result (λ tree. tree ≡ tree_with (texts_of texts.now).scope number pred.now file.now
        (text_head (texts_of texts.now).program place) (text_statements (texts_of texts.now).program place)) }
{
    let head = text_head(texts.decls, place);
    let body = text_stmts(alloc, texts.decls, place)?;
    tree_with(alloc, texts.scope, number, pred, file, head, body)
}

// The tree of these statements.
fn tree_with(
    alloc: Global,
    scope: &NameIndex,
    number: usize,
    pred: &Pred,
    file: &Text,
    place: Place,
    body: Vec<Stmt>,
) -> Result<RuleTree, AllocError>
    ensures { IfOk result (λ tree. tree ≡ tree_with scope.now number pred.now file.now place (statements_of body.items)) }
{
    let sources = NameSources {
        scope,
        params: pred.params.as_slice(),
    };
    let names = names_in(alloc, &sources, body.as_slice());
    let from = both(pred_number(number), file.copy());
    made(place, body, both(from, names))
}

// The tree of these statements and the other parts.
fn made(
    place: Place,
    body: Vec<Stmt>,
    parts: Result<((u32, Text), Sequence<ReadName>), AllocError>,
) -> Result<RuleTree, AllocError>
    ensures { MatchResult parts
        (λ found. result ≡ Ok (record {
          pred = found.0.0;
          file = found.0.1;
          place = place;
          body = statements_of body.items;
          names = found.1;
        }))
        (λ fault. result ≡ Err fault) }
{
    match parts {
        Ok(((pred, file), names)) => Ok(RuleTree {
            pred,
            file,
            place,
            body,
            names: names.into_vec(),
        }),
        Err(fault) => Err(fault),
    }
}

// The names that are read in the statements of a rule.
fn names_in(
    alloc: Global,
    sources: &NameSources<'_>,
    stmts: &[Stmt],
) -> Result<Sequence<ReadName>, AllocError>
    ensures { IfOk result (λ names. names
        ≡ block_names (sources_of sources.now) no_sight no_tally (statements_of stmts.now)) }
{
    let mut sight = Sight::new(alloc);
    let mut tally = Tally::new();
    let mut names = Sequence::new(alloc);
    push_stmts_names(sources, stmts, &mut sight, &mut tally, &mut names)?;
    Ok(names)
}

// The number of a predicate, of which there are fewer than 2^32, since there is no memory for more.
fn pred_number(number: usize) -> Result<u32, AllocError>
    ensures { IfOk result (λ pred. pred ≡ number) }
{
    match u32::try_from(number) {
        Ok(pred) => Ok(pred),
        Err(_) => Err(AllocError),
    }
}
