//! Reads the words of lines.

ghost use Rattle.std.specs.Prelude.{◌≡◌, ◌<◌, ◌↔◌, ◌++◌, ◌∷◌, [], ℕ, length, IsTrue, OnOk, MatchOption, MatchResult, Contains, Some, Ok, Err, slice_get};
ghost use Rattle.model_core.specs.declared.variable.VarDecl.{VarDecl};
ghost use Rattle.model_core.specs.Lawful.{IsLawful};
ghost use Rattle.model_core.specs.Naming.{names_of};
ghost use Rattle.plan_text.specs.Found.{FindsWords, Judges, Then};
ghost use Rattle.plan_text.specs.Lines.{keyword_text, IsNoKeyword, OneKeyword, IsStrangeName, IsOtherParameter, OnePart, FirstParts, OneParameter, Parameters, IsSurplus, NoneLeft, LastParts, TokenValues};
ghost use Rattle.plan_text.specs.Subjects.{OneGlobal, OneToken, OneLocal, OneTarget, OnePredicate};
ghost use Rattle.plan_text.specs.Values.{OneValue};
ghost use Rattle.plan_core.specs.Reading.{AppendsWords, OneLabel};

use eu_name::name::{TokenName, VarName};
use eu_name::sequence::Sequence;
use eu_name::word::is_name;
use indexmap::IndexSet;
use model_core::variable::{ValueKind, VarDecl};
use plan_resolve::indexed::IndexedModel;
use plan_resolve::subjects::{
    judge_global, judge_local, judge_predicate, judge_target, judge_token,
};
use plan_resolve::values::judge_value;
use plan_text::fault::Wrong;
use plan_text::statement::Keyword;
use plan_text::subject::{NamedGlobal, NamedLocal, NamedToken};
use plan_text::words::{Cursor, is_word, word_behind};
use std::alloc::{AllocError, Global};

/// What the word says at the front of a line.
fn judge_keyword(word: &[u8]) -> Result<Keyword, Wrong>
    ensures { Judges (λ keyword word. word ≡ keyword_text keyword) IsNoKeyword word.now result }
{
    if is_word(word, b"global") {
        return Ok(Keyword::Global);
    }
    if is_word(word, b"fact") {
        return Ok(Keyword::Fact);
    }
    if is_word(word, b"token") {
        return Ok(Keyword::Token);
    }
    if is_word(word, b"merged") {
        return Ok(Keyword::Merged);
    }
    if is_word(word, b"rejected") {
        return Ok(Keyword::Rejected);
    }
    if is_word(word, b"local") {
        return Ok(Keyword::Local);
    }
    if is_word(word, b"end") {
        return Ok(Keyword::End);
    }
    Err(Wrong::Syntax)
}

/// The word with which a line begins.
pub fn one_keyword(cursor: &mut Cursor<'_>) -> Result<Keyword, Wrong>
    ensures { FindsWords (OneKeyword cursor.old.rest.now) result cursor.new.rest.now }
{
    let Some((word, rest)) = word_behind(b"\n", cursor.rest) else {
        return Err(Wrong::Syntax);
    };
    cursor.pass_word(rest, judge_keyword(word))
}

/// A value of the kind.
pub fn one_value(
    cursor: &mut Cursor<'_>,
    model: &IndexedModel<'_>,
    kind: ValueKind,
) -> Result<i32, Wrong>
    requires { IsLawful model.now }
    ensures { FindsWords (OneValue model.now kind cursor.old.rest.now) result cursor.new.rest.now }
{
    let Some((word, rest)) = word_behind(b" ", cursor.rest) else {
        return Err(Wrong::Syntax);
    };
    cursor.pass_word(rest, judge_value(model, kind, word))
}

/// A new name of a global.
pub fn one_global(
    cursor: &mut Cursor<'_>,
    alloc: Global,
    model: &IndexedModel<'_>,
    known: &IndexSet<VarName>,
) -> Result<NamedGlobal, Wrong>
    requires { IsLawful model.now }
    ensures { FindsWords (OneGlobal model.now known.now.keys cursor.old.rest.now) result cursor.new.rest.now }
{
    let Some((word, rest)) = word_behind(b" ", cursor.rest) else {
        return Err(Wrong::Syntax);
    };
    cursor.pass_word(rest, judge_global(alloc, model, known, word))
}

/// A new name of a token.
pub fn one_token(
    cursor: &mut Cursor<'_>,
    alloc: Global,
    model: &IndexedModel<'_>,
    known: &IndexSet<VarName>,
) -> Result<NamedToken, Wrong>
    requires { IsLawful model.now }
    ensures { FindsWords (OneToken model.now known.now.keys cursor.old.rest.now) result cursor.new.rest.now }
{
    let Some((word, rest)) = word_behind(b" ", cursor.rest) else {
        return Err(Wrong::Syntax);
    };
    cursor.pass_word(rest, judge_token(alloc, model, known, word))
}

/// A new name of a local.
pub fn one_local(
    cursor: &mut Cursor<'_>,
    alloc: Global,
    model: &IndexedModel<'_>,
    known: &IndexSet<VarName>,
) -> Result<NamedLocal, Wrong>
    requires { IsLawful model.now }
    ensures { FindsWords (OneLocal model.now known.now.keys cursor.old.rest.now) result cursor.new.rest.now }
{
    let Some((word, rest)) = word_behind(b" ", cursor.rest) else {
        return Err(Wrong::Syntax);
    };
    cursor.pass_word(rest, judge_local(alloc, model, known, word))
}

/// The token that another one is merged into.
pub fn one_target(
    cursor: &mut Cursor<'_>,
    alloc: Global,
    model: &IndexedModel<'_>,
) -> Result<TokenName, Wrong>
    requires { IsLawful model.now }
    ensures { FindsWords (OneTarget model.now cursor.old.rest.now) result cursor.new.rest.now }
{
    let Some((word, rest)) = word_behind(b" ", cursor.rest) else {
        return Err(Wrong::Syntax);
    };
    cursor.pass_word(rest, judge_target(alloc, model, word))
}

/// The predicate of this number.
pub fn one_predicate(
    cursor: &mut Cursor<'_>,
    model: &IndexedModel<'_>,
    number: u32,
) -> Result<(), Wrong>
    requires lawful { IsLawful model.now }
    requires there { number < length model.now.preds }
    ensures { FindsWords (OnePredicate model.now number cursor.old.rest.now) result cursor.new.rest.now }
{
    let Some((word, rest)) = word_behind(b" ", cursor.rest) else {
        return Err(Wrong::Syntax);
    };
    cursor.pass_word(rest, judge_predicate(model, number, word))
}

// The part of a token with its value.
fn one_part(
    cursor: &mut Cursor<'_>,
    model: &IndexedModel<'_>,
    label: &[u8],
    kind: ValueKind,
) -> Result<i32, Wrong>
    requires { IsLawful model.now }
    ensures { FindsWords (OnePart model.now label.now kind cursor.old.rest.now) result cursor.new.rest.now }
{
    cursor.exactly(b" ", label)?;
    one_value(cursor, model, kind)
}

// What a token line has before the parameters.
fn first_parts(cursor: &mut Cursor<'_>, model: &IndexedModel<'_>) -> Result<[i32; 4], Wrong>
    requires { IsLawful model.now }
    ensures { FindsWords (FirstParts model.now cursor.old.rest.now) result cursor.new.rest.now }
{
    let start = one_part(cursor, model, b"start", ValueKind::Int)?;
    let end = one_part(cursor, model, b"end", ValueKind::Int)?;
    let duration = one_part(cursor, model, b"duration", ValueKind::Int)?;
    let object = one_part(cursor, model, b"object", ValueKind::Object)?;
    Ok([start, end, duration, object])
}

// The place of the parameter of this name.
fn parameter_place(params: &[VarDecl], word: &[u8]) -> Option<usize>
    ensures { MatchOption result
        ((place : ℕ) (variable : VarDecl) → slice_get params.now place ≡ Some variable → variable.name ≡ word.now → ⊥)
        (λ place. (variable : VarDecl) × (slice_get params.now place ≡ Some variable) × (variable.name ≡ word.now)) }
{
    for (place, variable) in params.iter().enumerate() {
        if is_word(variable.name.as_bytes(), word) {
            return Some(place);
        }
    }
    None
}

// Whether a parameter has this name.
fn is_parameter(params: &[VarDecl], word: &[u8]) -> bool
    ensures { IsTrue result ↔ Contains (names_of params.now) word.now }
{
    parameter_place(params, word).is_some()
}

// Whether the word is a name, and no parameter's.
fn is_strange(params: &[VarDecl], word: &[u8]) -> bool
    ensures { IsTrue result ↔ IsStrangeName (names_of params.now) word.now }
{
    is_name(word) && !is_parameter(params, word)
}

// What the word says where this parameter is due.
fn judge_label(params: &[VarDecl], expected: &[u8], word: &[u8]) -> Result<(), Wrong>
    ensures { Judges (λ said word. word ≡ expected.now) (IsOtherParameter (names_of params.now) expected.now) word.now result }
{
    if is_word(word, expected) {
        return Ok(());
    }
    if is_strange(params, word) {
        Err(Wrong::Unknown)
    } else {
        Err(Wrong::Syntax)
    }
}

// The name of this parameter.
fn one_label(cursor: &mut Cursor<'_>, params: &[VarDecl], expected: &[u8]) -> Result<(), Wrong>
    ensures { FindsWords (OneLabel (names_of params.now) expected.now cursor.old.rest.now) result cursor.new.rest.now }
{
    let Some((word, rest)) = word_behind(b" ", cursor.rest) else {
        return Err(Wrong::Syntax);
    };
    cursor.pass_word(rest, judge_label(params, expected, word))
}

// The parameter's name with its value.
fn one_parameter(
    cursor: &mut Cursor<'_>,
    model: &IndexedModel<'_>,
    params: &[VarDecl],
    variable: &VarDecl,
) -> Result<i32, Wrong>
    requires { IsLawful model.now }
    ensures { FindsWords (OneParameter model.now (names_of params.now) variable.now cursor.old.rest.now) result cursor.new.rest.now }
{
    one_label(cursor, params, variable.name.as_bytes())?;
    one_value(cursor, model, variable.kind)
}

// Puts the value behind the others.
fn push_value(values: &mut Vec<i32>, value: i32) -> Result<(), AllocError>
    ensures { OnOk result (values.new.items ≡ values.old.items ++ value ∷ []) }
{
    values.push(value)?;
    Ok(())
}

// The parameters, whose values are put behind those that are there.
fn parameters(
    cursor: &mut Cursor<'_>,
    model: &IndexedModel<'_>,
    params: &[VarDecl],
    values: &mut Vec<i32>,
) -> Result<(), Wrong>
    requires { IsLawful model.now }
    ensures { AppendsWords (Parameters model.now (names_of params.now) params.now cursor.old.rest.now) values.old.items values.new.items result cursor.new.rest.now }
{
    for variable in params {
        let value = one_parameter(cursor, model, params, variable)?;
        push_value(values, value)?;
    }
    Ok(())
}

// What is wrong with a word behind the last parameter.
fn surplus(params: &[VarDecl], word: &[u8]) -> Wrong
    ensures { IsSurplus (names_of params.now) result word.now }
{
    if is_strange(params, word) {
        Wrong::Unknown
    } else {
        Wrong::Syntax
    }
}

// No word any more.
fn none_left(cursor: &Cursor<'_>, params: &[VarDecl]) -> Result<(), Wrong>
    ensures { FindsWords (NoneLeft (names_of params.now) cursor.now.rest.now) result cursor.now.rest.now }
{
    match word_behind(b" ", cursor.rest) {
        Some((word, _rest)) => Err(surplus(params, word)),
        None => Ok(()),
    }
}

// The parameters, and nothing behind them.
fn last_parts(
    cursor: &mut Cursor<'_>,
    model: &IndexedModel<'_>,
    params: &[VarDecl],
    values: &mut Vec<i32>,
) -> Result<(), Wrong>
    requires { IsLawful model.now }
    ensures { AppendsWords (LastParts model.now params.now cursor.old.rest.now) values.old.items values.new.items result cursor.new.rest.now }
{
    parameters(cursor, model, params, values)?;
    none_left(cursor, params)
}

// The values, where the last of them were read.
fn all_values(read: Result<(), Wrong>, values: Vec<i32>) -> Result<Sequence<i32>, Wrong>
    ensures { MatchResult read (λ said. result ≡ Ok values.items) (λ wrong. result ≡ Err wrong) }
{
    match read {
        Ok(()) => Ok(Sequence::from_vec(values)),
        Err(wrong) => Err(wrong),
    }
}

// The values of a token of the predicate of this number.
fn token_values(
    cursor: &mut Cursor<'_>,
    alloc: Global,
    model: &IndexedModel<'_>,
    number: u32,
) -> Result<Sequence<i32>, Wrong>
    requires lawful { IsLawful model.now }
    requires there { number < length model.now.preds }
    ensures { FindsWords (TokenValues model.now number cursor.old.rest.now) result cursor.new.rest.now }
{
    let pred = &model.model().preds.as_slice()[number as usize];
    let first = first_parts(cursor, model)?;
    let mut values = Vec::from_slice(alloc, &first)?;
    let read = last_parts(cursor, model, pred.params.as_slice(), &mut values);
    all_values(read, values)
}

/// The predicate of this number, and the values of a token of it.
pub fn active_values(
    cursor: &mut Cursor<'_>,
    alloc: Global,
    model: &IndexedModel<'_>,
    number: u32,
) -> Result<Sequence<i32>, Wrong>
    requires lawful { IsLawful model.now }
    requires there { number < length model.now.preds }
    ensures { FindsWords (Then (OnePredicate model.now number) (λ said. TokenValues model.now number) cursor.old.rest.now) result cursor.new.rest.now }
{
    one_predicate(cursor, model, number)?;
    token_values(cursor, alloc, model, number)
}
