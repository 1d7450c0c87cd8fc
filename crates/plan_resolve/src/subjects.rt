//! What words name.

ghost use Rattle.std.specs.Prelude.{◌≡◌, ◌++◌, ◌↔◌, ◌<◌, ℕ, List, length, IsTrue, Some, IfOk, IfErr, IfSome, IsSomeAnd, MatchOption, MatchResult, Contains, codes};
ghost use Rattle.eu_name.specs.declared.name.Part.{Part};
ghost use Rattle.eu_name.specs.declared.name.TokenName.{TokenName};
ghost use Rattle.eu_name.specs.declared.name.VarName.{VarName};
ghost use Rattle.eu_name.specs.declared.name.VarName.TheVariants as variables;
ghost use Rattle.model_core.specs.declared.variable.VarDecl.{VarDecl};
ghost use Rattle.model_core.specs.declared.rule.Slot.{Slot};
ghost use Rattle.model_core.specs.Lawful.{IsLawful, IsToken};
ghost use Rattle.model_core.specs.Tokens.{HasToken};
ghost use Rattle.model_core.specs.Variables.{IsGlobal};
ghost use Rattle.plan_text.specs.declared.fault.Wrong.TheVariants as wrongs;
ghost use Rattle.plan_text.specs.declared.subject.NamedGlobal.{NamedGlobal};
ghost use Rattle.plan_text.specs.declared.subject.NamedToken.{NamedToken};
ghost use Rattle.plan_text.specs.declared.subject.NamedLocal.{NamedLocal};
ghost use Rattle.plan_text.specs.Found.{Judges};
ghost use Rattle.plan_text.specs.Subjects.{IsFreshName, IsNoFreshName, IsGlobalOf, IsTokenOf, IsLocalOf, IsLocalOfKind, IsTargetName, IsNoTarget, IsPredicateText, AreTwoNames, IsNoPredicate};
ghost use Rattle.plan_resolve.specs.Naming.{SaysSubject, IsNoName, SaysFresh, IsNoFresh, IsLocalName};

use super::indexed::IndexedModel;
use super::resolving::subject_of;
use eu_name::laws::{names_are_read_back, names_are_told_apart};
use eu_name::name::{TokenName, VarName};
use eu_name::name_text::NameFault;
use eu_name::reading::read_name;
use eu_name::word::is_name;
use indexmap::IndexSet;
use model_core::resolve::texts_name_one;
use model_core::variable::ValueKind;
use plan_text::fault::Wrong;
use plan_text::names::{self, local_kind};
use plan_text::subject::{NamedGlobal, NamedLocal, NamedToken};
use plan_text::value_words::cut_at_point;
use plan_text::words::{behind, is_word};
use std::alloc::{AllocError, Global};

// The global, token or local that the word names.
fn subject(alloc: Global, model: &IndexedModel<'_>, word: &[u8]) -> Result<Option<VarName>, Wrong>
    requires { IsLawful model.now }
    ensures { Judges (SaysSubject model.now) IsNoName word.now result }
{
    names_are_read_back();
    match read_name(alloc, word) {
        Ok(text) => {
            let found = subject_of(model, &text)?;
            Ok(found)
        }
        Err(NameFault::Syntax) => Err(Wrong::Syntax),
        Err(NameFault::Memory) => Err(Wrong::Memory),
    }
}

// Whether the name is one of these.
fn is_known(known: &IndexSet<VarName>, name: &VarName) -> bool
    ensures { IsTrue result ↔ Contains known.now.keys name.now }
{
    names_are_told_apart();
    known.contains(name)
}

// The name, if it is none of these.
fn unless_known(known: &IndexSet<VarName>, found: Option<VarName>) -> Result<Option<VarName>, Wrong>
    ensures new { IfOk result (λ same. (same ≡ found) × IfSome found (λ name. Contains known.now.keys name → ⊥)) }
    ensures twice { IfErr result (λ wrong. (wrong ≡ wrongs.Twice) × IsSomeAnd found (λ name. Contains known.now.keys name)) }
{
    match found {
        Some(name) => {
            if is_known(known, &name) {
                Err(Wrong::Twice)
            } else {
                Ok(Some(name))
            }
        }
        None => Ok(None),
    }
}

// What the word names, if lines have said nothing of it.
fn fresh(
    alloc: Global,
    model: &IndexedModel<'_>,
    known: &IndexSet<VarName>,
    word: &[u8],
) -> Result<Option<VarName>, Wrong>
    requires { IsLawful model.now }
    ensures { Judges (SaysFresh model.now known.now.keys) (IsNoFresh model.now known.now.keys) word.now result }
{
    let found = subject(alloc, model, word)?;
    unless_known(known, found)
}

// The number of a global.
fn as_global(found: Option<VarName>) -> Option<u32>
    ensures { MatchOption result
        ((number : ℕ) → found ≡ Some (variables.Global number) → ⊥)
        (λ number. found ≡ Some (variables.Global number)) }
{
    match found {
        Some(VarName::Global(number)) => Some(number),
        Some(VarName::Token(_token, _part)) => None,
        Some(VarName::Local { .. }) => None,
        None => None,
    }
}

// The token of which a name is.
fn as_token(found: Option<VarName>) -> Option<TokenName>
    ensures { MatchOption result
        ((token : TokenName) (part : Part) → found ≡ Some (variables.Token token part) → ⊥)
        (λ token. (part : Part) × (found ≡ Some (variables.Token token part))) }
{
    match found {
        Some(VarName::Token(token, _part)) => Some(token),
        Some(VarName::Global(_number)) => None,
        Some(VarName::Local { .. }) => None,
        None => None,
    }
}

// The name of a local.
fn as_local(found: Option<VarName>) -> Option<VarName>
    ensures { MatchOption result
        ((name : VarName) → found ≡ Some name → IsLocalName name → ⊥)
        (λ name. (found ≡ Some name) × IsLocalName name) }
{
    match found {
        Some(
            VarName::Local {
                token,
                rule,
                number,
            },
        ) => Some(VarName::Local {
            token,
            rule,
            number,
        }),
        Some(VarName::Global(_number)) => None,
        Some(VarName::Token(_token, _part)) => None,
        None => None,
    }
}

// The kind of a global of the model.
fn global_kind(model: &IndexedModel<'_>, number: u32) -> ValueKind
    requires { (variable : VarDecl) × IsGlobal model.now number variable }
    ensures { (variable : VarDecl) × (IsGlobal model.now number variable × (result ≡ variable.kind)) }
{
    let variable = &model.model().problem.globals.as_slice()[number as usize];
    variable.kind
}

// The number of the predicate of a token of the model.
fn pred_of(model: &IndexedModel<'_>, token: &TokenName) -> u32
    requires { IsToken model.now token.now }
    ensures { (slot : Slot) → HasToken model.now token.now slot → slot.pred ≡ result }
{
    names::pred_of(model.model(), token)
}

// The kind of a local of the model.
fn kind_of_local(model: &IndexedModel<'_>, name: &VarName) -> ValueKind
    requires { (kind : ValueKind) × IsLocalOfKind model.now kind name.now }
    ensures { IsLocalOfKind model.now result name.now }
{
    match name {
        VarName::Local {
            token,
            rule,
            number,
        } => local_kind(model.model(), token, *rule, *number),
        _ => unreachable!(),
    }
}

/// What the word says where the name of a global is due of which no line has said anything.
pub fn judge_global(
    alloc: Global,
    model: &IndexedModel<'_>,
    known: &IndexSet<VarName>,
    word: &[u8],
) -> Result<NamedGlobal, Wrong>
    requires { IsLawful model.now }
    ensures { Judges (λ found. IsFreshName model.now known.now.keys (IsGlobalOf model.now found))
        (IsNoFreshName model.now known.now.keys (λ name. (found : NamedGlobal) × IsGlobalOf model.now found name)) word.now result }
{
    texts_name_one();
    names_are_read_back();
    let found = fresh(alloc, model, known, word)?;
    match as_global(found) {
        Some(number) => Ok(NamedGlobal {
            number,
            kind: global_kind(model, number),
        }),
        None => Err(Wrong::Unknown),
    }
}

/// What the word says where the name of a token is due of which no line has said anything.
pub fn judge_token(
    alloc: Global,
    model: &IndexedModel<'_>,
    known: &IndexSet<VarName>,
    word: &[u8],
) -> Result<NamedToken, Wrong>
    requires { IsLawful model.now }
    ensures { Judges (λ found. IsFreshName model.now known.now.keys (IsTokenOf model.now found))
        (IsNoFreshName model.now known.now.keys (λ name. (found : NamedToken) × IsTokenOf model.now found name)) word.now result }
{
    texts_name_one();
    names_are_read_back();
    let found = fresh(alloc, model, known, word)?;
    match as_token(found) {
        Some(name) => {
            let pred = pred_of(model, &name);
            Ok(NamedToken { name, pred })
        }
        None => Err(Wrong::Unknown),
    }
}

/// What the word says where the name of a local is due of which no line has said anything.
pub fn judge_local(
    alloc: Global,
    model: &IndexedModel<'_>,
    known: &IndexSet<VarName>,
    word: &[u8],
) -> Result<NamedLocal, Wrong>
    requires { IsLawful model.now }
    ensures { Judges (λ found. IsFreshName model.now known.now.keys (IsLocalOf model.now found))
        (IsNoFreshName model.now known.now.keys (λ name. (found : NamedLocal) × IsLocalOf model.now found name)) word.now result }
{
    texts_name_one();
    names_are_read_back();
    let found = fresh(alloc, model, known, word)?;
    match as_local(found) {
        Some(name) => {
            let kind = kind_of_local(model, &name);
            Ok(NamedLocal { name, kind })
        }
        None => Err(Wrong::Unknown),
    }
}

/// What the word says where the token is due that another one is merged into.
pub fn judge_target(
    alloc: Global,
    model: &IndexedModel<'_>,
    word: &[u8],
) -> Result<TokenName, Wrong>
    requires { IsLawful model.now }
    ensures { Judges (IsTargetName model.now) (IsNoTarget model.now) word.now result }
{
    texts_name_one();
    names_are_read_back();
    let found = subject(alloc, model, word)?;
    match as_token(found) {
        Some(name) => Ok(name),
        None => Err(Wrong::Unknown),
    }
}

// Whether the word is the two with a point between them.
fn is_pair(first: &[u8], second: &[u8], word: &[u8]) -> bool
    ensures { IsTrue result ↔ (word.now ≡ first.now ++ (codes "." ++ second.now)) }
{
    match behind(word, first) {
        Some(after) => match behind(after, b".") {
            Some(name) => is_word(name, second),
            None => false,
        },
        None => false,
    }
}

// Whether the word is the class and the name of the predicate.
fn is_predicate(model: &IndexedModel<'_>, number: u32, word: &[u8]) -> bool
    requires lawful { IsLawful model.now }
    requires there { number < length model.now.preds }
    ensures { IsTrue result ↔ IsPredicateText model.now number word.now }
{
    let plain = model.model();
    let pred = &plain.preds.as_slice()[number as usize];
    let class = &plain.classes.as_slice()[pred.class as usize];
    is_pair(class.name.as_bytes(), pred.name.as_bytes(), word)
}

// Whether the word is two names with a point between them.
fn are_two_names(word: &[u8]) -> bool
    ensures { IsTrue result ↔ AreTwoNames word.now }
{
    match cut_at_point(word) {
        Some((class, pred)) => is_name(class) && is_name(pred),
        None => false,
    }
}

/// What the word says where the predicate of this number is due.
pub fn judge_predicate(model: &IndexedModel<'_>, number: u32, word: &[u8]) -> Result<(), Wrong>
    requires lawful { IsLawful model.now }
    requires there { number < length model.now.preds }
    ensures { Judges (λ said. IsPredicateText model.now number) (IsNoPredicate model.now number) word.now result }
{
    if is_predicate(model, number, word) {
        return Ok(());
    }
    if are_two_names(word) {
        Err(Wrong::Unknown)
    } else {
        Err(Wrong::Syntax)
    }
}
