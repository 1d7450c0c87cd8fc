//! Which arguments the words behind a constraint say.

ghost use Rattle.std.specs.Prelude.{◌≡◌, ◌<◌, ℤ, length, IfOk, MatchOption, slice_get, Some};
ghost use Rattle.std.specs.List.{AllZip};
ghost use Rattle.model_core.specs.Lawful.{IsLawful};
ghost use Rattle.script_lang.specs.Naming.{SaysValueIn, StandsFor, FindsArguments};
ghost use Rattle.script_lang.specs.Arguing.{NamesArgument, AnswersArgument, AnswersArguments};

use super::compared::{kind_among, kind_at};
use super::saying::value_said;
use crate::ArgumentText;
use domain_core::kind::Kind;
use eu_name::name_text::NameFault;
use eu_name::reading::read_name;
use eu_name::sequence::Sequence;
use model_core::decision::ConArg;
use model_core::variable::ValueKind;
use plan_resolve::indexed::IndexedModel;
use plan_resolve::resolving::variable_named;
use std::alloc::{AllocError, Global};

// The variable that the word names, or 0 where it names none.
fn variable_said(
    model: &IndexedModel<'_>,
    alloc: Global,
    word: &ArgumentText,
) -> Result<ConArg, AllocError>
    requires { IsLawful model.now }
    ensures { IfOk result (NamesArgument model.now word.now) }
{
    let text = match read_name(alloc, word.as_bytes()) {
        Ok(text) => text,
        Err(NameFault::Syntax) => return Ok(ConArg::Value(0)),
        Err(NameFault::Memory) => return Err(AllocError),
    };
    let found = variable_named(model, &text)?;
    match found {
        Some(name) => Ok(ConArg::Var(name)),
        None => Ok(ConArg::Value(0)),
    }
}

// What each word names.
fn variables_said(
    model: &IndexedModel<'_>,
    words: &Sequence<ArgumentText>,
) -> Result<Sequence<ConArg>, AllocError>
    requires { IsLawful model.now }
    ensures { IfOk result (λ named. AllZip (NamesArgument model.now) words.now named) }
{
    let alloc = words.allocator();
    let mut named = Sequence::new(alloc);
    for word in words.as_slice() {
        named.push(variable_said(model, alloc, word)?)?;
    }
    Ok(named)
}

// The value that the word says in the kind, or 0 where there is no kind.
fn value_said_in(
    model: &IndexedModel<'_>,
    kind: Option<ValueKind>,
    word: &ArgumentText,
) -> Option<i32>
    requires { IsLawful model.now }
    ensures { MatchOption result
        ((value : ℤ) → SaysValueIn model.now kind value word.now → ⊥)
        (λ value. (said : ℤ) × (SaysValueIn model.now kind said word.now × StandsFor value said)) }
{
    match kind {
        Some(kind) => value_said(model, kind, word.as_bytes()),
        None => Some(0),
    }
}

// The argument that the word says, which names this.
fn argument_said(
    model: &IndexedModel<'_>,
    kind: Option<ValueKind>,
    word: &ArgumentText,
    named: &ConArg,
) -> Result<Option<ConArg>, AllocError>
    requires lawful { IsLawful model.now }
    requires named { NamesArgument model.now word.now named.now }
    ensures { IfOk result (AnswersArgument model.now kind word.now) }
{
    match named {
        ConArg::Var(name) => Ok(Some(ConArg::Var(name.copy()?))),
        ConArg::Value(_) => match value_said_in(model, kind, word) {
            Some(value) => Ok(Some(ConArg::Value(value))),
            None => Ok(None),
        },
    }
}

// The argument at the place.
fn standing_at(arguments: &Sequence<ConArg>, place: usize) -> &ConArg
    requires { place < length arguments.now }
    ensures { slice_get arguments.now place ≡ Some result.now }
{
    &arguments.as_slice()[place]
}

// The arguments that the words say, each of which names what stands at its place, where the variables that are compared are
// of this kind.
fn arguments_said(
    model: &IndexedModel<'_>,
    kind: Kind,
    among: Option<ValueKind>,
    words: &Sequence<ArgumentText>,
    named: &Sequence<ConArg>,
) -> Result<Option<Sequence<ConArg>>, AllocError>
    requires lawful { IsLawful model.now }
    requires named { AllZip (NamesArgument model.now) words.now named.now }
    ensures { IfOk result (AnswersArguments model.now kind among words.now) }
{
    let mut given = Sequence::new(words.allocator());
    for (place, word) in words.as_slice().iter().enumerate() {
        let kind = kind_at(kind, among, place);
        let said = argument_said(model, kind, word, standing_at(named, place))?;
        let Some(argument) = said else {
            return Ok(None);
        };
        given.push(argument)?;
    }
    Ok(Some(given))
}

/// The arguments of the constraint that the words say, or some that stand for them: a value outside the range of values is
/// answered by another one outside of it.
pub fn constraint_asked(
    model: &IndexedModel<'_>,
    kind: Kind,
    words: &Sequence<ArgumentText>,
) -> Result<Option<Sequence<ConArg>>, AllocError>
    requires { IsLawful model.now }
    ensures { IfOk result (FindsArguments model.now kind words.now) }
{
    let named = variables_said(model, words)?;
    let among = kind_among(model.model(), kind, named.as_slice());
    arguments_said(model, kind, among, words, &named)
}
