//! Predicates, found by class and name.

ghost use Rattle.std.specs.Prelude.{◌≡◌, [], All, Err, IfOk, MatchResult, Ok, OnOk};
ghost use Rattle.nddl_terms.specs.Preds.{AreNotedByClass, class_named, is_pred_named, with_pred_name, with_pred_names};

use super::lexicon::PredShape;
use eu_index::NameIndex;
use eu_name::sequence::Sequence;
use eu_name::text::Text;
use std::alloc::{AllocError, Global};
use std::marker::Model;

/// Predicates by their numbers. Those of the first classes are found by name at one look-up, those of others one after another.
#[derive(Drop)]
pub struct PredShapes {
    items: Sequence<PredShape>,
    named: Vec<NameIndex>,
}

impl Model for PredShapes {
    ghost use Rattle.std.specs.Prelude.{List};
    ghost use Rattle.std.specs.Coded.{coded_list};
    ghost use Rattle.nddl_terms.specs.contracts.lexicon.PredShape as a_pred;
    ghost use Rattle.nddl_terms.specs.declared.lexicon.PredShape.{PredShape};
    ghost use Rattle.nddl_terms.specs.Preds.{AreNotedByClass};

    ghost Value = { List PredShape };

    ghost coded = { coded_list a_pred.the_row.coded };

    ghost view = { λ inside. inside.items };

    ghost invariant = { λ inside. AreNotedByClass inside.named.items inside.items };
}

impl PredShapes {
    /// No predicates, which take no memory.
    pub fn new(alloc: Global) -> PredShapes
        ensures { result ≡ [] }
    {
        PredShapes {
            items: Sequence::new(alloc),
            named: Vec::new(alloc),
        }
    }

    /// These predicates, of which those of so many classes are found at one look-up.
    pub fn of(
        alloc: Global,
        classes: usize,
        items: Sequence<PredShape>,
    ) -> Result<PredShapes, AllocError>
        ensures { IfOk result (λ preds. preds ≡ items) }
    {
        let named = preds_noted(alloc, classes, items.as_slice());
        preds_with(items, named)
    }

    pub fn as_slice(&self) -> &[PredShape]
        ensures { result.now ≡ self.now }
    {
        self.items.as_slice()
    }

    /// The number of the predicate of this name of the class.
    pub fn named(&self, class: u32, name: &Text) -> Option<usize>
        ensures { result ≡ class_named class name.now self.now }
    {
        match self.named.get(class as usize) {
            Some(noted) => noted.find(name),
            None => pred_place(self.items.as_slice(), class, name),
        }
    }
}

// The predicates with what is noted of them, if all went well.
fn preds_with(
    items: Sequence<PredShape>,
    named: Result<Vec<NameIndex>, AllocError>,
) -> Result<PredShapes, AllocError>
    requires { IfOk named (λ found. AreNotedByClass found.items items) }
    ensures { IfOk result (λ preds. preds ≡ items) }
{
    match named {
        Ok(named) => Ok(PredShapes { items, named }),
        Err(fault) => Err(fault),
    }
}

// The numbers of the predicates by their names, for each of so many classes.
#[tactic(auto, using(crate::proofs::Noting::all_noted))]
fn preds_noted(
    alloc: Global,
    classes: usize,
    preds: &[PredShape],
) -> Result<Vec<NameIndex>, AllocError>
    ensures { IfOk result (λ named. AreNotedByClass named.items preds.now) }
{
    let mut named = no_names(alloc, classes)?;
    note_preds(preds, &mut named)?;
    Ok(named)
}

// No names for each of so many classes.
fn no_names(alloc: Global, classes: usize) -> Result<Vec<NameIndex>, AllocError>
    ensures { IfOk result (λ named. All (λ noted. noted ≡ []) named.items) }
{
    let mut named = Vec::new(alloc);
    for _ in 0..classes {
        named.push(NameIndex::new(alloc))?;
    }
    Ok(named)
}

// Notes the predicates.
fn note_preds(preds: &[PredShape], named: &mut Vec<NameIndex>) -> Result<(), AllocError>
    ensures { OnOk result (named.new.items ≡ with_pred_names named.old.items 0 preds.now) }
{
    for (number, pred) in preds.iter().enumerate() {
        note_pred(pred.class as usize, &pred.name, number, named)?;
    }
    Ok(())
}

// Notes the predicate of this name of the class, if there is an index of the class.
#[tactic(auto, using(crate::proofs::Noting::note_here, crate::proofs::Noting::note_past))]
fn note_pred(
    class: usize,
    name: &Text,
    number: usize,
    named: &mut Vec<NameIndex>,
) -> Result<(), AllocError>
    ensures { OnOk result (named.new.items ≡ with_pred_name named.old.items class name.now number) }
{
    if class < named.len() {
        named[class].note(name, number)?;
    }
    Ok(())
}

// Where the predicate of this name of the class stands.
fn pred_place(preds: &[PredShape], class: u32, name: &Text) -> Option<usize>
    ensures { result ≡ class_named class name.now preds.now }
{
    for (number, pred) in preds.iter().enumerate() {
        if pred.class == class && name.as_str() == pred.name.as_str() {
            return Some(number);
        }
    }
    None
}
