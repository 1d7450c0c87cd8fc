//! What the words behind the first one say: names and values, and the arguments of constraints.

ghost use Rattle.std.specs.Prelude.{◌≡◌, ◌<◌, ◌↔◌, [], All, IsTrue, IfOk, IfErr, length};
ghost use Rattle.eu_name.specs.Spelling.{Spells};
ghost use Rattle.script_lang.specs.Line.{IsArgumentWord, IsValueWord};
ghost use Rattle.script_lang.specs.Words.{words_of};
ghost use Rattle.script_lang.specs.declared.command.LineFault.TheVariants.{Memory};
ghost use Rattle.script_lang.specs.Operands.{Says, Tells, IsValueOf, IsOne, AreTwo, AreArguments, AreConstraint, AreRelation, joined};

use crate::command::{ArgumentText, LineFault};
use crate::kind_words::{constraint_named, relation_named};
use crate::number::{is_decimal, is_number};
use crate::words::{next_word, only_word, two_words};
use domain_core::kind::Kind;
use eu_name::name_text::{NameFault, NameText};
use eu_name::reading::read_name;
use eu_name::sequence::Sequence;
use eu_name::text::Text;
use model_core::item::Rel;
use plan_text::value_words::{is_path_word, is_truth_word};
use std::alloc::{AllocError, Global};

// A text of the word.
fn text_of(alloc: Global, word: &[u8]) -> Result<Text, AllocError>
    requires { All (λ byte. byte < 128) word.now }
    ensures { IfOk result (λ text. text ≡ word.now) }
{
    match std::str::from_utf8(word) {
        Ok(characters) => Text::from_str(alloc, characters),
        Err(_) => unreachable!(),
    }
}

// The same, where a line is read.
fn kept(alloc: Global, word: &[u8]) -> Result<Text, LineFault>
    requires { All (λ byte. byte < 128) word.now }
    ensures text { IfOk result (λ text. text ≡ word.now) }
    ensures fault { IfErr result (λ fault. fault ≡ Memory) }
{
    text_of(alloc, word).map_err(|_| LineFault::Memory)
}

// Whether the word can be a value.
fn is_value_word(word: &[u8]) -> bool
    ensures { IsTrue result ↔ IsValueWord word.now }
{
    is_number(word) || is_decimal(word) || is_truth_word(word) || is_path_word(word)
}

// The value that the word is, as it is written.
fn value_said(alloc: Global, word: &[u8]) -> Result<Text, LineFault>
    ensures { Says (IsValueOf word.now) result }
{
    if !is_value_word(word) {
        return Err(LineFault::Syntax);
    }
    kept(alloc, word)
}

// The name that the word spells.
fn name_said(alloc: Global, word: &[u8]) -> Result<NameText, LineFault>
    ensures { Says (Spells word.now) result }
{
    match read_name(alloc, word) {
        Ok(name) => Ok(name),
        Err(NameFault::Syntax) => Err(LineFault::Syntax),
        Err(NameFault::Memory) => Err(LineFault::Memory),
    }
}

// Both, where there are both. That one isn't there comes before want of memory for the other.
fn both<A: Drop, B: Drop>(
    one: Result<A, LineFault>,
    other: Result<B, LineFault>,
) -> Result<(A, B), LineFault>
    ensures { result ≡ joined one other }
{
    match (one, other) {
        (Ok(one), Ok(other)) => Ok((one, other)),
        (Err(LineFault::Memory), Err(fault)) => Err(fault),
        (Err(fault), _) => Err(fault),
        (Ok(_), Err(fault)) => Err(fault),
    }
}

/// That there is no word.
pub fn no_word(rest: &[u8]) -> Result<(), LineFault>
    ensures { Tells (λ _. words_of rest.now ≡ []) result }
{
    match next_word(rest) {
        Some(_) => Err(LineFault::Syntax),
        None => Ok(()),
    }
}

/// The name that the only word spells.
pub fn one_name(alloc: Global, rest: &[u8]) -> Result<NameText, LineFault>
    ensures { Says (IsOne Spells (words_of rest.now)) result }
{
    match only_word(rest) {
        Some(word) => name_said(alloc, word),
        None => Err(LineFault::Syntax),
    }
}

/// The names that the two words spell.
pub fn two_names(alloc: Global, rest: &[u8]) -> Result<(NameText, NameText), LineFault>
    ensures { Says (AreTwo Spells Spells (words_of rest.now)) result }
{
    match two_words(rest) {
        Some((first, second)) => both(name_said(alloc, first), name_said(alloc, second)),
        None => Err(LineFault::Syntax),
    }
}

/// The name that the first of two words spells, and the value that the second one is.
pub fn name_and_value(alloc: Global, rest: &[u8]) -> Result<(NameText, Text), LineFault>
    ensures { Says (AreTwo Spells IsValueOf (words_of rest.now)) result }
{
    match two_words(rest) {
        Some((name, value)) => both(name_said(alloc, name), value_said(alloc, value)),
        None => Err(LineFault::Syntax),
    }
}

// Whether the word can be an argument. Memory runs out only for a word that is a name.
fn is_argument_word(alloc: Global, word: &[u8]) -> bool
    ensures { IsTrue result ↔ IsArgumentWord word.now }
{
    match read_name(alloc, word) {
        Ok(_name) => true,
        Err(NameFault::Memory) => true,
        Err(NameFault::Syntax) => is_value_word(word),
    }
}

// Whether each word can be an argument.
fn are_argument_words(alloc: Global, words: &[u8]) -> bool
    ensures { IsTrue result ↔ All IsArgumentWord (words_of words.now) }
{
    let mut rest = words;
    while let Some((word, behind)) = next_word(rest) {
        if !is_argument_word(alloc, word) {
            return false;
        }
        rest = behind;
    }
    true
}

// Whether the words can be the arguments of a constraint, which are one or more.
fn can_be_arguments(alloc: Global, words: &[u8]) -> bool
    ensures { IsTrue result ↔ ((0 < length (words_of words.now)) × All IsArgumentWord (words_of words.now)) }
{
    next_word(words).is_some() && are_argument_words(alloc, words)
}

// The words, each in memory of its own.
fn texts_of(alloc: Global, words: &[u8]) -> Result<Sequence<ArgumentText>, AllocError>
    requires { All IsArgumentWord (words_of words.now) }
    ensures { IfOk result (λ texts. texts ≡ words_of words.now) }
{
    let mut texts = Sequence::new(alloc);
    let mut rest = words;
    while let Some((word, behind)) = next_word(rest) {
        texts.push(text_of(alloc, word)?)?;
        rest = behind;
    }
    Ok(texts)
}

// The same, where a line is read.
fn all_kept(alloc: Global, words: &[u8]) -> Result<Sequence<ArgumentText>, LineFault>
    requires { All IsArgumentWord (words_of words.now) }
    ensures texts { IfOk result (λ texts. texts ≡ words_of words.now) }
    ensures fault { IfErr result (λ fault. fault ≡ Memory) }
{
    texts_of(alloc, words).map_err(|_| LineFault::Memory)
}

// The arguments that the words are, as they are written.
fn arguments_said(alloc: Global, words: &[u8]) -> Result<Sequence<ArgumentText>, LineFault>
    ensures { Says (AreArguments (words_of words.now)) result }
{
    if !can_be_arguments(alloc, words) {
        return Err(LineFault::Syntax);
    }
    all_kept(alloc, words)
}

/// The constraint that the first word is, and its arguments, one or more.
pub fn constraint_said(
    alloc: Global,
    rest: &[u8],
) -> Result<(Kind, Sequence<ArgumentText>), LineFault>
    ensures { Says (AreConstraint (words_of rest.now)) result }
{
    let Some((word, behind)) = next_word(rest) else {
        return Err(LineFault::Syntax);
    };
    match constraint_named(word) {
        Some(kind) => arguments_said(alloc, behind).map(|arguments| (kind, arguments)),
        None => Err(LineFault::Syntax),
    }
}

/// The relation that the first word is, and the two names behind it.
pub fn relation_said(alloc: Global, rest: &[u8]) -> Result<(Rel, (NameText, NameText)), LineFault>
    ensures { Says (AreRelation (words_of rest.now)) result }
{
    let Some((word, behind)) = next_word(rest) else {
        return Err(LineFault::Syntax);
    };
    match relation_named(word) {
        Some(relation) => two_names(alloc, behind).map(|names| (relation, names)),
        None => Err(LineFault::Syntax),
    }
}
