//! What texts name in a model with an index.

ghost use Rattle.std.specs.Prelude.{◌≡◌, ℕ, IfOk, MatchOption};
ghost use Rattle.eu_name.specs.declared.name.Part.{Part as PartName};
ghost use Rattle.eu_name.specs.declared.name.TokenName.{TokenName};
ghost use Rattle.eu_name.specs.declared.name.VarName.{VarName};
ghost use Rattle.eu_name.specs.declared.name_text.Tail.TheVariants as tails;
ghost use Rattle.model_core.specs.declared.rule.Slot.{Slot};
ghost use Rattle.model_core.specs.Lawful.{IsLawful};
ghost use Rattle.model_core.specs.Names.{LeadsToToken, NamesToken, NamesVariable, NamesGlobal, IsPartWord, token_at};
ghost use Rattle.plan_text.specs.Subjects.{NamesSubject};

use super::indexed::IndexedModel;
use eu_name::name::{Part, Step, TokenName, VarName};
use eu_name::name_text::{NameText, Tail};
use eu_name::sequence::Sequence;
use plan_text::words::is_word;
use std::alloc::AllocError;

// The token to which a name leads: the number of its root, and its predicate.
#[derive(Clone, Copy)]
struct Reached {
    root: u32,
    pred: u32,
}

// The token to which the label and the steps of the name lead.
fn token_reached(model: &IndexedModel<'_>, name: &NameText) -> Option<Reached>
    requires { IsLawful model.now }
    ensures { MatchOption result
        ((token : TokenName) (slot : Slot) → LeadsToToken model.now name.now token slot → ⊥)
        (λ reached. (slot : Slot) × LeadsToToken model.now name.now (token_at reached.root name.now.steps) slot
        × (slot.pred ≡ reached.pred)) }
{
    let root = model.root_labelled(&name.label)?;
    let plain = model.model();
    let first = plain.problem.roots.as_slice()[root as usize].pred;
    let pred = plain.pred_after(first, name.steps.as_slice())?;
    Some(Reached { root, pred })
}

// The steps in memory of their own.
fn copied(steps: &Sequence<Step>) -> Result<Sequence<Step>, AllocError>
    ensures { IfOk result (λ copied. copied ≡ steps.now) }
{
    let steps = Vec::from_slice(steps.allocator(), steps.as_slice())?;
    Ok(Sequence::from_vec(steps))
}

// The token to which the name leads.
fn token_of(reached: Reached, name: &NameText) -> Result<TokenName, AllocError>
    ensures { IfOk result (λ token. token ≡ token_at reached.root name.now.steps) }
{
    Ok(TokenName {
        root: reached.root,
        steps: copied(&name.steps)?,
    })
}

// The global that the label names, where no step follows it.
fn whole_global(model: &IndexedModel<'_>, name: &NameText) -> Option<u32>
    requires lawful { IsLawful model.now }
    ensures { MatchOption result
        ((number : ℕ) → NamesGlobal model.now name.now number → ⊥)
        (λ number. name.now.tail ≡ tails.None → NamesGlobal model.now name.now number) }
{
    if !name.steps.is_empty() {
        return None;
    }
    model.global_named(&name.label)
}

// The token or the global that the name is by itself.
fn whole_subject(model: &IndexedModel<'_>, name: &NameText) -> Result<Option<VarName>, AllocError>
    requires lawful { IsLawful model.now }
    requires whole { name.now.tail ≡ tails.None }
    ensures { IfOk result (λ answer. MatchOption answer
        ((variable : VarName) → NamesSubject model.now name.now variable → ⊥)
        (NamesSubject model.now name.now)) }
{
    if let Some(reached) = token_reached(model, name) {
        return Ok(Some(VarName::Token(token_of(reached, name)?, Part::Start)));
    }
    match whole_global(model, name) {
        Some(number) => Ok(Some(VarName::Global(number))),
        None => Ok(None),
    }
}

// The local of the token to which the name leads.
fn local_variable(
    model: &IndexedModel<'_>,
    name: &NameText,
    rule: u16,
    number: u16,
) -> Result<Option<VarName>, AllocError>
    requires lawful { IsLawful model.now }
    requires tail { name.now.tail ≡ tails.Local rule number }
    ensures { IfOk result (λ answer. MatchOption answer
        ((variable : VarName) → NamesVariable model.now name.now variable → ⊥)
        (NamesVariable model.now name.now)) }
{
    let Some(reached) = token_reached(model, name) else {
        return Ok(None);
    };
    let Some(_) = model.model().local_of(reached.pred, rule, number) else {
        return Ok(None);
    };
    let token = token_of(reached, name)?;
    Ok(Some(VarName::Local {
        token,
        rule,
        number,
    }))
}

// The local of the token, as what a line can be about.
fn local_subject(
    model: &IndexedModel<'_>,
    name: &NameText,
    rule: u16,
    number: u16,
) -> Result<Option<VarName>, AllocError>
    requires lawful { IsLawful model.now }
    requires tail { name.now.tail ≡ tails.Local rule number }
    ensures { IfOk result (λ answer. MatchOption answer
        ((variable : VarName) → NamesSubject model.now name.now variable → ⊥)
        (NamesSubject model.now name.now)) }
{
    local_variable(model, name, rule, number)
}

// The global that the name is by itself.
fn global_variable(model: &IndexedModel<'_>, name: &NameText) -> Option<VarName>
    requires lawful { IsLawful model.now }
    requires whole { name.now.tail ≡ tails.None }
    ensures { MatchOption result
        ((variable : VarName) → NamesVariable model.now name.now variable → ⊥)
        (NamesVariable model.now name.now) }
{
    match whole_global(model, name) {
        Some(number) => Some(VarName::Global(number)),
        None => None,
    }
}

// The part of a token of this predicate that the word names.
fn part_named(model: &IndexedModel<'_>, pred: u32, word: &[u8]) -> Option<Part>
    requires { IsLawful model.now }
    ensures { MatchOption result
        ((part : PartName) → IsPartWord model.now pred part word.now → ⊥)
        (λ part. IsPartWord model.now pred part word.now) }
{
    if is_word(word, b"start") {
        return Some(Part::Start);
    }
    if is_word(word, b"end") {
        return Some(Part::End);
    }
    if is_word(word, b"duration") {
        return Some(Part::Duration);
    }
    if is_word(word, b"object") {
        return Some(Part::Object);
    }
    match model.model().param_named(pred, word) {
        Some(number) => Some(Part::Param(number)),
        None => None,
    }
}

// The part that the word names of the token to which the name leads.
fn part_variable(
    model: &IndexedModel<'_>,
    name: &NameText,
    word: &[u8],
) -> Result<Option<VarName>, AllocError>
    requires lawful { IsLawful model.now }
    requires tail { name.now.tail ≡ tails.Part word.now }
    ensures { IfOk result (λ answer. MatchOption answer
        ((variable : VarName) → NamesVariable model.now name.now variable → ⊥)
        (NamesVariable model.now name.now)) }
{
    let Some(reached) = token_reached(model, name) else {
        return Ok(None);
    };
    let Some(part) = part_named(model, reached.pred, word) else {
        return Ok(None);
    };
    Ok(Some(VarName::Token(token_of(reached, name)?, part)))
}

/// The token that the text names.
pub fn token_named(
    model: &IndexedModel<'_>,
    name: &NameText,
) -> Result<Option<TokenName>, AllocError>
    requires { IsLawful model.now }
    ensures { IfOk result (λ answer. MatchOption answer
        ((token : TokenName) → NamesToken model.now name.now token → ⊥)
        (NamesToken model.now name.now)) }
{
    let Tail::None = &name.tail else {
        return Ok(None);
    };
    let Some(reached) = token_reached(model, name) else {
        return Ok(None);
    };
    Ok(Some(token_of(reached, name)?))
}

/// The variable that the text names.
pub fn variable_named(
    model: &IndexedModel<'_>,
    name: &NameText,
) -> Result<Option<VarName>, AllocError>
    requires { IsLawful model.now }
    ensures { IfOk result (λ answer. MatchOption answer
        ((variable : VarName) → NamesVariable model.now name.now variable → ⊥)
        (NamesVariable model.now name.now)) }
{
    match &name.tail {
        Tail::None => Ok(global_variable(model, name)),
        Tail::Part(word) => part_variable(model, name, word.as_bytes()),
        Tail::Local { rule, number } => local_variable(model, name, *rule, *number),
    }
}

/// The global, token or local that the text names.
pub fn subject_of(model: &IndexedModel<'_>, text: &NameText) -> Result<Option<VarName>, AllocError>
    requires { IsLawful model.now }
    ensures { IfOk result (λ answer. MatchOption answer
        ((name : VarName) → NamesSubject model.now text.now name → ⊥)
        (NamesSubject model.now text.now)) }
{
    match &text.tail {
        Tail::None => whole_subject(model, text),
        Tail::Part(_word) => Ok(None),
        Tail::Local { rule, number } => local_subject(model, text, *rule, *number),
    }
}
