//! What the tokens for which a rule asks stand for.

ghost use Rattle.std.specs.Prelude.{◌≡◌, IfOk, OnOk};
ghost use Rattle.nddl_terms.specs.Readings.{readings_of};
ghost use Rattle.nddl_lower.specs.Arguments.{with_items};
ghost use Rattle.nddl_lower.specs.Slots.{AskedSlot, asked_labelled, asked_behind, asked_own, asked_path, class_base, object_items, pred_slot, wanted_of, with_asked, with_asked_at, with_relation, with_wanted_token};

use domain_core::kind::Kind;
use eu_name::name::Part;
use eu_name::text::Text;
use model_core::item::{Item, Rel, Term};
use model_core::rule::Slot;
use model_core::variable::Base;
use nddl_ast::name::{Name, Path};
use nddl_declarations::domains::numbers_base;
use nddl_terms::growth::term_pair;
use nddl_terms::paths::rest_stand;
use nddl_terms::stands::first_stand;
use nddl_terms::{Growth, Lexicon, Made, Reading, Stand};
use std::alloc::{AllocError, Global};

/// A token that is wanted.
#[derive(Clone, Copy)]
pub struct Wanted {
    /// Its predicate.
    pub pred: Option<u32>,
    /// What its object has to be equal to, if anything.
    pub object: Option<Term>,
}

// A token of the predicate of this name, asked of what stands for this.
fn wanted_of(lexicon: &Lexicon, owner: Stand, name: &Text) -> Result<Wanted, AllocError>
    ensures { IfOk result (λ wanted. wanted ≡ wanted_of lexicon.now owner name.now) }
{
    match owner {
        Stand::Class(class) => {
            let pred = lexicon.pred_named(class, name)?;
            Ok(Wanted { pred, object: None })
        }
        Stand::Value { term, class, .. } => {
            let pred = lexicon.pred_named(class, name)?;
            Ok(Wanted {
                pred,
                object: Some(term),
            })
        }
        _ => Ok(Wanted {
            pred: None,
            object: None,
        }),
    }
}

/// The token for which names ask behind what stands for this.
pub fn asked_names(
    alloc: Global,
    reading: &Reading<'_>,
    begin: Stand,
    names: &[Name],
    growth: &mut Growth,
) -> Result<Wanted, AllocError>
    ensures grown { OnOk result (growth.new
        ≡ (asked_behind (readings_of reading.now) begin names.now growth.old).growth) }
    ensures wanted { IfOk result (λ wanted. wanted
        ≡ (asked_behind (readings_of reading.now) begin names.now growth.old).wanted) }
{
    match names.last() {
        Some(last) => {
            let owner = rest_stand(alloc, reading, begin, &names[..names.len() - 1], growth)?;
            wanted_of(reading.lexicon, owner, &last.text)
        }
        None => Ok(Wanted {
            pred: None,
            object: None,
        }),
    }
}

/// The token for which the path asks.
pub fn asked_path(
    alloc: Global,
    reading: &Reading<'_>,
    turns: &[Made],
    path: &Path,
    growth: &mut Growth,
) -> Result<Wanted, AllocError>
    ensures grown { OnOk result (growth.new
        ≡ (asked_path (readings_of reading.now) turns.now path.now growth.old).growth) }
    ensures wanted { IfOk result (λ wanted. wanted
        ≡ (asked_path (readings_of reading.now) turns.now path.now growth.old).wanted) }
{
    let begin = first_stand(reading, turns, growth, path.first.at);
    asked_names(alloc, reading, begin, path.rest.as_slice(), growth)
}

// The token of a predicate of the class whose rule it is.
fn asked_own(reading: &Reading<'_>, name: &Name) -> Result<Wanted, AllocError>
    ensures { IfOk result (λ wanted. wanted ≡ asked_own (readings_of reading.now) name.now) }
{
    let class = reading.lexicon.pred_class(reading.pred);
    wanted_of(reading.lexicon, Stand::Class(class), &name.text)
}

/// The token for which the path asks where a label is given.
pub fn asked_labelled(
    alloc: Global,
    reading: &Reading<'_>,
    turns: &[Made],
    path: &Path,
    growth: &mut Growth,
) -> Result<Wanted, AllocError>
    ensures grown { OnOk result (growth.new
        ≡ (asked_labelled (readings_of reading.now) turns.now path.now path.now.rest growth.old).growth) }
    ensures wanted { IfOk result (λ wanted. wanted
        ≡ (asked_labelled (readings_of reading.now) turns.now path.now path.now.rest growth.old).wanted) }
{
    match path.rest.as_slice().first() {
        None => asked_own(reading, &path.first),
        Some(_) => asked_path(alloc, reading, turns, path, growth),
    }
}

/// The objects of a class, as what a variable may be.
pub fn class_base(alloc: Global, lexicon: &Lexicon, class: u32) -> Result<Base, AllocError>
    ensures { IfOk result (λ base. base ≡ class_base lexicon.now class) }
{
    numbers_base(alloc, lexicon.objects(class))
}

// A slot for a token of the predicate.
fn pred_slot(alloc: Global, lexicon: &Lexicon, pred: u32) -> Result<Slot, AllocError>
    ensures { IfOk result (λ slot. slot ≡ pred_slot lexicon.now pred) }
{
    let object = class_base(alloc, lexicon, lexicon.pred_class(pred))?;
    Ok(Slot { pred, object })
}

// This stands from here on for the slot for which the text asks there.
fn note_asked_at(at: u32, stand: Stand, growth: &mut Growth) -> Result<(), AllocError>
    ensures { OnOk result (growth.new ≡ with_asked_at at stand growth.old) }
{
    growth.asked.push(Made { at, stand })
}

// The object of the slot equals the term, if there is one.
fn add_object(
    alloc: Global,
    number: u32,
    object: Option<Term>,
    growth: &mut Growth,
) -> Result<(), AllocError>
    ensures { OnOk result (growth.new ≡ with_items (object_items number object) growth.old) }
{
    match object {
        Some(term) => {
            let terms = term_pair(alloc, Term::Slot(number, Part::Object), term)?;
            growth.add_item(Item::Constraint(Kind::Eq, terms))
        }
        None => Ok(()),
    }
}

// The slot for a token of the predicate for which the text asks there, with what its object equals and the relation.
fn add_token(
    alloc: Global,
    lexicon: &Lexicon,
    at: u32,
    relation: Rel,
    pred: u32,
    object: Option<Term>,
    growth: &mut Growth,
) -> Result<(), AllocError>
    ensures { OnOk result (growth.new ≡ with_wanted_token lexicon.now at relation pred object growth.old) }
{
    let slot = pred_slot(alloc, lexicon, pred)?;
    let number = growth.add_slot(slot)?;
    note_asked_at(at, Stand::Slot { number, pred }, growth)?;
    add_object(alloc, number, object, growth)?;
    growth.add_item(Item::Relation(relation, number))
}

/// The slot for the token that is wanted, with its object and its relation, if it has a predicate.
pub fn add_wanted(
    alloc: Global,
    lexicon: &Lexicon,
    at: u32,
    relation: Rel,
    wanted: Wanted,
    growth: &mut Growth,
) -> Result<(), AllocError>
    ensures { OnOk result (growth.new
        ≡ with_asked lexicon.now at relation (record { wanted = wanted; growth = growth.old })) }
{
    match wanted.pred {
        Some(pred) => add_token(alloc, lexicon, at, relation, pred, wanted.object, growth),
        None => Ok(()),
    }
}

/// A relation with the token of a slot.
pub fn add_relation(relation: Rel, stand: Stand, growth: &mut Growth) -> Result<(), AllocError>
    ensures { OnOk result (growth.new ≡ with_relation relation stand growth.old) }
{
    match stand {
        Stand::Slot { number, .. } => growth.add_item(Item::Relation(relation, number)),
        _ => Ok(()),
    }
}
