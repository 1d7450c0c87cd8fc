//! Rules, made of the words of a row.

use super::parts::{add, bare_pred, base_of, one, variable};
use super::rows::{number, word};
use domain_core::kind::Kind;
use eu_name::name::Part;
use eu_name::sequence::Sequence;
use model_core::class::Pred;
use model_core::item::{Item, Rel, Term};
use model_core::model::Model;
use model_core::rule::{Block, Entry, Guard, Rule, Slot};
use std::alloc::{AllocError, Global};

// That the first local is 3.
fn local_is_three(alloc: Global) -> Result<Entry, AllocError> {
    let terms = vec![in alloc; Term::Local(0), Term::Lit(3)]?;
    Ok(Entry::Item(Item::Constraint(Kind::Eq, Sequence::from_vec(terms))))
}

// The slot `s0`, the local `l0`, `b0` for the relation before a slot, or the constraint on the local.
fn entry_of(alloc: Global, word: &str) -> Result<Entry, AllocError> {
    if let Some(rest) = word.strip_prefix("s") {
        return Ok(Entry::Slot(number(rest)));
    }
    if let Some(rest) = word.strip_prefix("l") {
        return Ok(Entry::Local(number(rest)));
    }
    if let Some(rest) = word.strip_prefix("b") {
        return Ok(Entry::Item(Item::Relation(Rel::Before, number(rest))));
    }
    local_is_three(alloc)
}

fn add_entry(entries: &mut Vec<Entry>, entry: Result<Entry, AllocError>) -> Result<(), AllocError> {
    match entry {
        Ok(entry) => {
            entries.push(entry)?;
            Ok(())
        }
        Err(none) => Err(none),
    }
}

fn add_entries(alloc: Global, words: &str, entries: &mut Vec<Entry>) -> Result<(), AllocError> {
    for word in words.split(' ') {
        add_entry(entries, entry_of(alloc, word))?;
    }
    Ok(())
}

fn block_of(alloc: Global, words: &str) -> Result<Block, AllocError> {
    let mut entries = Vec::new(alloc);
    match add_entries(alloc, words, &mut entries) {
        Ok(()) => Ok(Block { entries }),
        Err(none) => Err(none),
    }
}

// A branch where the token starts at 3.
fn branch(
    then: Result<Block, AllocError>,
    otherwise: Result<Block, AllocError>,
) -> Result<Entry, AllocError> {
    match then {
        Ok(then) => branch_else(then, otherwise),
        Err(none) => Err(none),
    }
}

fn branch_else(then: Block, otherwise: Result<Block, AllocError>) -> Result<Entry, AllocError> {
    match otherwise {
        Ok(otherwise) => Ok(Entry::Branch {
            guard: Guard::Equal(Term::Here(Part::Start), Term::Lit(3)),
            then,
            otherwise,
        }),
        Err(none) => Err(none),
    }
}

// What stands in front of the two blocks, and then the branch.
fn branched(alloc: Global, front: &str, inner: &str) -> Result<Block, AllocError> {
    let (then, otherwise) = inner.split_once(" / ").unwrap_or((inner, "l0"));
    let last = branch(block_of(alloc, then), block_of(alloc, otherwise));
    let mut entries = Vec::new(alloc);
    match add_both(alloc, front, last, &mut entries) {
        Ok(()) => Ok(Block { entries }),
        Err(none) => Err(none),
    }
}

fn add_both(
    alloc: Global,
    front: &str,
    last: Result<Entry, AllocError>,
    entries: &mut Vec<Entry>,
) -> Result<(), AllocError> {
    match add_entries(alloc, front, entries) {
        Ok(()) => add_entry(entries, last),
        Err(none) => Err(none),
    }
}

fn top_of(alloc: Global, words: &str) -> Result<Block, AllocError> {
    match words.split_once(" / ") {
        Some((front, inner)) => branched(alloc, front, inner),
        None => block_of(alloc, words),
    }
}

fn slot_of(alloc: Global, row: &str) -> Result<Slot, AllocError> {
    Ok(Slot {
        pred: number(word(row, 1)),
        object: base_of(alloc, word(row, 2))?,
    })
}

fn rule_of(alloc: Global, row: &str, words: &str) -> Result<Rule, AllocError> {
    Ok(Rule {
        top: top_of(alloc, words)?,
        slots: one(alloc, slot_of(alloc, row))?,
        locals: one(alloc, variable(alloc, "", "int", "0..9"))?,
    })
}

// A predicate of the class 0 with the rule of this number.
fn pred_of_rule(alloc: Global, number: u32) -> Result<Pred, AllocError> {
    let rules = one(alloc, Ok(number))?;
    bare_pred(alloc, 0, "Ruled", rules)
}

/// `rule PRED OBJECT, ENTRIES / THEN / ELSE`: a rule with one slot of the predicate on the object, one local, and these entries,
/// and a predicate that has it as its one rule. What stands behind a `/` may be missing.
pub fn add_rule(alloc: Global, model: &mut Model, row: &str) -> Result<(), AllocError> {
    let (front, words) = row.split_once(", ").unwrap_or((row, ""));
    add(&mut model.preds, pred_of_rule(alloc, 1))?;
    add(&mut model.rules, rule_of(alloc, front, words))
}
