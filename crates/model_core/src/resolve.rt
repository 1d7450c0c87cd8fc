//! What names in a text name in a model.

ghost use Rattle.std.specs.Prelude.{◌≡◌, ◌↔◌, ◌<◌, ◌^◌, length, IfOk, IsTrue, MatchOption};
ghost use Rattle.eu_name.specs.declared.name.Part.{Part};
ghost use Rattle.eu_name.specs.declared.name.TokenName.{TokenName};
ghost use Rattle.eu_name.specs.declared.name.VarName.{VarName};
ghost use Rattle.eu_name.specs.declared.name_text.Tail.TheVariants as tails;
ghost use Rattle.model_core.specs.declared.rule.Slot.{Slot};
ghost use Rattle.model_core.specs.Lawful.{IsLawful};
ghost use Rattle.model_core.specs.Names.{LeadsToToken, NamesToken, NamesVariable, NamesOneToken, NamesOneVariable, NamesWhatThereIs, TokenTextsAreWellFormed, VariableTextsAreWellFormed, TokensHaveOneText, VariablesHaveOneText, IsPartWord, token_at};

use super::model::Model;
use eu_name::name::{Part, Step, TokenName, VarName};
use eu_name::name_text::{NameText, Tail};
use eu_name::sequence::Sequence;
use std::alloc::AllocError;

/// The token to which a name leads: the number of its root, and its predicate.
#[derive(Clone, Copy)]
struct Reached {
    root: u32,
    pred: u32,
}

impl Model {
    /// The token that the text names.
    pub fn resolve_token(&self, name: &NameText) -> Result<Option<TokenName>, AllocError>
        requires { IsLawful self.now }
        ensures { IfOk result (λ answer. MatchOption answer
            ((token : TokenName) → NamesToken self.now name.now token → ⊥)
            (NamesToken self.now name.now)) }
    {
        let Tail::None = &name.tail else {
            return Ok(None);
        };
        let Some(reached) = self.reached(name) else {
            return Ok(None);
        };
        Ok(Some(token_of(reached, name)?))
    }

    /// The variable that the text names.
    pub fn resolve_var(&self, name: &NameText) -> Result<Option<VarName>, AllocError>
        requires { IsLawful self.now }
        ensures { IfOk result (λ answer. MatchOption answer
            ((variable : VarName) → NamesVariable self.now name.now variable → ⊥)
            (NamesVariable self.now name.now)) }
    {
        match &name.tail {
            Tail::None => Ok(self.resolve_global(name)),
            Tail::Part(word) => self.resolve_part(name, word.as_bytes()),
            Tail::Local { rule, number } => self.resolve_local(name, *rule, *number),
        }
    }

    // The token to which the label and the steps of the name lead.
    fn reached(&self, name: &NameText) -> Option<Reached>
        requires { IsLawful self.now }
        ensures { MatchOption result
            ((token : TokenName) (slot : Slot) → LeadsToToken self.now name.now token slot → ⊥)
            (λ reached. (slot : Slot) × LeadsToToken self.now name.now (token_at reached.root name.now.steps) slot
            × (slot.pred ≡ reached.pred)) }
    {
        let root = self.root_labelled(name.label.as_bytes())?;
        let first = self.problem.roots.as_slice()[root as usize].pred;
        let pred = self.pred_after(first, name.steps.as_slice())?;
        Some(Reached { root, pred })
    }

    // The global that the label names, where nothing follows it.
    fn resolve_global(&self, name: &NameText) -> Option<VarName>
        requires few { length self.now.problem.globals < 2 ^ 32 }
        requires whole { name.now.tail ≡ tails.None }
        ensures { MatchOption result
            ((variable : VarName) → NamesVariable self.now name.now variable → ⊥)
            (NamesVariable self.now name.now) }
    {
        if !name.steps.is_empty() {
            return None;
        }
        Some(VarName::Global(self.global_named(name.label.as_bytes())?))
    }

    // The part of a token of this predicate that the word names.
    fn part_named(&self, pred: u32, word: &[u8]) -> Option<Part>
        requires { IsLawful self.now }
        ensures { MatchOption result
            ((part : Part) → IsPartWord self.now pred part word.now → ⊥)
            (λ part. IsPartWord self.now pred part word.now) }
    {
        if is_same_word(word, b"start") {
            return Some(Part::Start);
        }
        if is_same_word(word, b"end") {
            return Some(Part::End);
        }
        if is_same_word(word, b"duration") {
            return Some(Part::Duration);
        }
        if is_same_word(word, b"object") {
            return Some(Part::Object);
        }
        Some(Part::Param(self.param_named(pred, word)?))
    }

    // The part that the word names of the token to which the name leads.
    fn resolve_part(&self, name: &NameText, word: &[u8]) -> Result<Option<VarName>, AllocError>
        requires lawful { IsLawful self.now }
        requires tail { name.now.tail ≡ tails.Part word.now }
        ensures { IfOk result (λ answer. MatchOption answer
            ((variable : VarName) → NamesVariable self.now name.now variable → ⊥)
            (NamesVariable self.now name.now)) }
    {
        let Some(reached) = self.reached(name) else {
            return Ok(None);
        };
        let Some(part) = self.part_named(reached.pred, word) else {
            return Ok(None);
        };
        Ok(Some(VarName::Token(token_of(reached, name)?, part)))
    }

    // The local of the token to which the name leads.
    fn resolve_local(
        &self,
        name: &NameText,
        rule: u16,
        number: u16,
    ) -> Result<Option<VarName>, AllocError>
        requires lawful { IsLawful self.now }
        requires tail { name.now.tail ≡ tails.Local rule number }
        ensures { IfOk result (λ answer. MatchOption answer
            ((variable : VarName) → NamesVariable self.now name.now variable → ⊥)
            (NamesVariable self.now name.now)) }
    {
        let Some(reached) = self.reached(name) else {
            return Ok(None);
        };
        let Some(_) = self.local_of(reached.pred, rule, number) else {
            return Ok(None);
        };
        let token = token_of(reached, name)?;
        Ok(Some(VarName::Local {
            token,
            rule,
            number,
        }))
    }
}

// Whether the two are one word.
fn is_same_word(word: &[u8], other: &[u8]) -> bool
    ensures { IsTrue result ↔ (word.now ≡ other.now) }
{
    word == other
}

// The steps in memory of their own.
fn copied(steps: &Sequence<Step>) -> Result<Sequence<Step>, AllocError>
    ensures { IfOk result (λ copied. copied ≡ steps.now) }
{
    let steps = Vec::from_slice(steps.allocator(), steps.as_slice())?;
    Ok(Sequence::from_vec(steps))
}

// The token to which the name leads.
fn token_of(reached: Reached, name: &NameText) -> Result<TokenName, AllocError>
    ensures { IfOk result (λ token. token ≡ token_at reached.root name.now.steps) }
{
    Ok(TokenName {
        root: reached.root,
        steps: copied(&name.steps)?,
    })
}

/// A law: a text names at most one token of a lawful model, and at most one variable.
pub fn texts_name_one()
    ensures tokens { NamesOneToken }
    ensures variables { NamesOneVariable }
{}

/// A law: what a text names, the model has.
pub fn texts_name_what_there_is()
    ensures { NamesWhatThereIs }
{}

/// A law: what names a token or a variable of a lawful model is well-formed, so it has one spelling, from which it is read back.
pub fn texts_are_well_formed()
    ensures tokens { TokenTextsAreWellFormed }
    ensures variables { VariableTextsAreWellFormed }
{}

/// A law: each token and each variable that a model has is named by one text.
pub fn each_has_one_text()
    ensures tokens { TokensHaveOneText }
    ensures variables { VariablesHaveOneText }
{}
