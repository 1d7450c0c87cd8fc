//! Which decision words ask for.

ghost use Rattle.std.specs.Prelude.{◌≡◌, ℤ, IfOk, IsErr, MatchOption, MatchResult, Ok};
ghost use Rattle.std.specs.Option.{option_map};
ghost use Rattle.model_core.specs.declared.decision.Decision.TheVariants as decisions;
ghost use Rattle.model_core.specs.Kinds.{IsVariableOfKind};
ghost use Rattle.model_core.specs.declared.variable.Base.{Base as Declared};
ghost use Rattle.model_core.specs.declared.variable.ValueKind.{ValueKind};
ghost use Rattle.model_core.specs.Lawful.{IsLawful};
ghost use Rattle.model_core.specs.Names.{NamesToken};
ghost use Rattle.model_core.specs.Variables.{HasBase};
ghost use Rattle.eu_name.specs.declared.name.TokenName.{TokenName as Token};
ghost use Rattle.script_lang.specs.declared.command.Command.TheVariants as commands;
ghost use Rattle.script_lang.specs.Naming.{SaysValue, StandsForDecision, FindsDecision, decision_command};

use super::arguments::constraint_asked;
use super::saying::value_said;
use crate::{ArgumentText, DecisionText};
use domain_core::kind::Kind;
use eu_name::name::{TokenName, VarName};
use eu_name::name_text::NameText;
use eu_name::sequence::Sequence;
use model_core::decision::Decision;
use model_core::item::Rel;
use model_core::resolve::texts_name_what_there_is;
use plan_resolve::indexed::IndexedModel;
use plan_resolve::resolving::{token_named, variable_named};
use std::alloc::AllocError;

// The decision that gives the variable the value that the word says.
fn specified(model: &IndexedModel<'_>, name: VarName, word: &[u8]) -> Option<Decision>
    requires lawful { IsLawful model.now }
    requires there { (base : Declared) × HasBase model.now name base }
    ensures { MatchOption result
        ((kind : ValueKind) (value : ℤ) → IsVariableOfKind model.now kind name → SaysValue model.now kind value word.now → ⊥)
        (λ decision. (kind : ValueKind) × ((value : ℤ) × (IsVariableOfKind model.now kind name
        × SaysValue model.now kind value word.now × StandsForDecision decision (decisions.Specify name value)))) }
{
    let kind = model.model().kind_of(&name);
    match value_said(model, kind, word) {
        Some(value) => Some(Decision::Specify(name, value)),
        None => None,
    }
}

// What `specify` asks for.
fn specify_asked(
    model: &IndexedModel<'_>,
    variable: &NameText,
    word: &[u8],
) -> Result<Option<Decision>, AllocError>
    requires { IsLawful model.now }
    ensures { IfOk result (FindsDecision model.now (commands.Specify variable.now word.now)) }
{
    texts_name_what_there_is();
    let found = variable_named(model, variable)?;
    match found {
        Some(name) => Ok(specified(model, name, word)),
        None => Ok(None),
    }
}

// What `activate` asks for.
fn activate_asked(
    model: &IndexedModel<'_>,
    token: &NameText,
) -> Result<Option<Decision>, AllocError>
    requires { IsLawful model.now }
    ensures { IfOk result (FindsDecision model.now (commands.Activate token.now)) }
{
    let found = token_named(model, token)?;
    match found {
        Some(name) => Ok(Some(Decision::Activate(name))),
        None => Ok(None),
    }
}

// What `reject` asks for.
fn reject_asked(model: &IndexedModel<'_>, token: &NameText) -> Result<Option<Decision>, AllocError>
    requires { IsLawful model.now }
    ensures { IfOk result (FindsDecision model.now (commands.Reject token.now)) }
{
    let found = token_named(model, token)?;
    match found {
        Some(name) => Ok(Some(Decision::Reject(name))),
        None => Ok(None),
    }
}

// The first token with the second, if there is one.
fn paired(
    first: TokenName,
    second: Result<Option<TokenName>, AllocError>,
) -> Result<Option<(TokenName, TokenName)>, AllocError>
    ensures { MatchResult second (λ found. result ≡ Ok (option_map (λ token. (first, token)) found)) (λ _. IsErr result) }
{
    match second {
        Ok(Some(token)) => Ok(Some((first, token))),
        Ok(None) => Ok(None),
        Err(none) => Err(none),
    }
}

/// The tokens that the two texts name.
pub fn tokens_named(
    model: &IndexedModel<'_>,
    one: &NameText,
    other: &NameText,
) -> Result<Option<(TokenName, TokenName)>, AllocError>
    requires { IsLawful model.now }
    ensures { IfOk result (λ answer. MatchOption answer
        ((first second : Token) → NamesToken model.now one.now first → NamesToken model.now other.now second → ⊥)
        (λ tokens. NamesToken model.now one.now tokens.0 × NamesToken model.now other.now tokens.1)) }
{
    let found = token_named(model, one)?;
    match found {
        Some(first) => paired(first, token_named(model, other)),
        None => Ok(None),
    }
}

// What `merge` asks for.
fn merge_asked(
    model: &IndexedModel<'_>,
    token: &NameText,
    target: &NameText,
) -> Result<Option<Decision>, AllocError>
    requires { IsLawful model.now }
    ensures { IfOk result (FindsDecision model.now (commands.Merge token.now target.now)) }
{
    let found = tokens_named(model, token, target)?;
    match found {
        Some((token, target)) => Ok(Some(Decision::Merge(token, target))),
        None => Ok(None),
    }
}

// What `order` asks for.
fn order_asked(
    model: &IndexedModel<'_>,
    first: &NameText,
    second: &NameText,
) -> Result<Option<Decision>, AllocError>
    requires { IsLawful model.now }
    ensures { IfOk result (FindsDecision model.now (commands.Order first.now second.now)) }
{
    let found = tokens_named(model, first, second)?;
    match found {
        Some((first, second)) => Ok(Some(Decision::Order(first, second))),
        None => Ok(None),
    }
}

// What `post` asks for.
fn post_asked(
    model: &IndexedModel<'_>,
    kind: Kind,
    arguments: &Sequence<ArgumentText>,
) -> Result<Option<Decision>, AllocError>
    requires { IsLawful model.now }
    ensures { IfOk result (FindsDecision model.now (commands.Post kind arguments.now)) }
{
    let found = constraint_asked(model, kind, arguments)?;
    match found {
        Some(given) => Ok(Some(Decision::Constrain(kind, given))),
        None => Ok(None),
    }
}

// What `relate` asks for.
fn relate_asked(
    model: &IndexedModel<'_>,
    relation: Rel,
    first: &NameText,
    second: &NameText,
) -> Result<Option<Decision>, AllocError>
    requires { IsLawful model.now }
    ensures { IfOk result (FindsDecision model.now (commands.Relate relation first.now second.now)) }
{
    let found = tokens_named(model, first, second)?;
    match found {
        Some((first, second)) => Ok(Some(Decision::Relate(relation, first, second))),
        None => Ok(None),
    }
}

/// The decision for which the words ask; that of a value outside the range of values stands for it.
pub fn decision_asked(
    model: &IndexedModel<'_>,
    asked: &DecisionText,
) -> Result<Option<Decision>, AllocError>
    requires { IsLawful model.now }
    ensures { IfOk result (FindsDecision model.now (decision_command asked.now)) }
{
    match asked {
        DecisionText::Specify { variable, value } => {
            specify_asked(model, variable, value.as_bytes())
        }
        DecisionText::Activate { token } => activate_asked(model, token),
        DecisionText::Merge { token, target } => merge_asked(model, token, target),
        DecisionText::Reject { token } => reject_asked(model, token),
        DecisionText::Order { first, second } => order_asked(model, first, second),
        DecisionText::Constrain { kind, arguments } => post_asked(model, *kind, arguments),
        DecisionText::Relate {
            relation,
            first,
            second,
        } => relate_asked(model, *relation, first, second),
    }
}
