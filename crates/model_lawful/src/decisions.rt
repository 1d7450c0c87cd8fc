//! The decisions of the text.

ghost use Rattle.std.specs.Prelude.{◌↔◌, All, IsTrue, MatchOption, ℕ};
ghost use Rattle.eu_name.specs.declared.name.Part.TheVariants as parts;
ghost use Rattle.eu_name.specs.declared.name.VarName.TheVariants as variables;
ghost use Rattle.model_core.specs.Lawful.{IsLawfulArgument, IsLawfulDecision, IsToken};
ghost use Rattle.model_core.specs.Tokens.{HasPred};
ghost use Rattle.model_lawful.specs.Parts.{HasPart, HasRuleLocal, HasVariable};

use domain_core::number::is_value;
use eu_name::name::{Part, TokenName, VarName};
use model_core::decision::{ConArg, Decision};
use model_core::model::{Model, Placed};
use model_typing::finding::{global_at, param_at, root_at};

// The predicate of the token.
fn pred_of(model: &Model, token: &TokenName) -> Option<u32>
    ensures { MatchOption result
        ((pred : ℕ) → HasPred model.now token.now pred → ⊥)
        (HasPred model.now token.now) }
{
    match root_at(model, token.root) {
        Some(root) => model.pred_after(root.pred, token.steps.as_slice()),
        None => None,
    }
}

// Whether the model has the token.
fn is_token(model: &Model, token: &TokenName) -> bool
    ensures { IsTrue result ↔ IsToken model.now token.now }
{
    match pred_of(model, token) {
        Some(_) => true,
        None => false,
    }
}

// Whether the predicate has the parameter.
fn has_param(model: &Model, pred: u32, number: u16) -> bool
    ensures { IsTrue result ↔ HasPart model.now pred (parts.Param number) }
{
    match param_at(model, pred, number) {
        Some(_) => true,
        None => false,
    }
}

// Whether tokens of the predicate have the part.
fn has_part(model: &Model, pred: u32, part: Part) -> bool
    ensures { IsTrue result ↔ HasPart model.now pred part }
{
    match part {
        Part::Start => true,
        Part::End => true,
        Part::Duration => true,
        Part::Object => true,
        Part::Param(number) => has_param(model, pred, number),
    }
}

// Whether the model has the global.
fn has_global(model: &Model, number: u32) -> bool
    ensures { IsTrue result ↔ HasVariable model.now (variables.Global number) }
{
    match global_at(model, number) {
        Some(_) => true,
        None => false,
    }
}

// Whether the model has the token with the part.
fn has_token_part(model: &Model, token: &TokenName, part: Part) -> bool
    ensures { IsTrue result ↔ HasVariable model.now (variables.Token token.now part) }
{
    match pred_of(model, token) {
        Some(pred) => has_part(model, pred, part),
        None => false,
    }
}

// Whether a rule of the predicate has the local.
fn has_rule_local(model: &Model, pred: u32, rule: u16, number: u16) -> bool
    ensures { IsTrue result ↔ HasRuleLocal model.now pred rule number }
{
    match model.local_of(pred, rule, number) {
        Some(_) => true,
        None => false,
    }
}

// Whether the model has the token with the local.
fn has_token_local(model: &Model, token: &TokenName, rule: u16, number: u16) -> bool
    ensures { IsTrue result ↔ HasVariable model.now (variables.Local token.now rule number) }
{
    match pred_of(model, token) {
        Some(pred) => has_rule_local(model, pred, rule, number),
        None => false,
    }
}

// Whether the model has the variable.
fn is_variable(model: &Model, variable: &VarName) -> bool
    ensures { IsTrue result ↔ HasVariable model.now variable.now }
{
    match variable {
        VarName::Global(number) => has_global(model, *number),
        VarName::Token(token, part) => has_token_part(model, token, *part),
        VarName::Local {
            token,
            rule,
            number,
        } => has_token_local(model, token, *rule, *number),
    }
}

// Whether the model has the variable that the argument is, or it is a value.
fn is_lawful_argument(model: &Model, argument: &ConArg) -> bool
    ensures { IsTrue result ↔ IsLawfulArgument model.now argument.now }
{
    match argument {
        ConArg::Var(variable) => is_variable(model, variable),
        ConArg::Value(value) => is_value(*value),
    }
}

// Whether all of the arguments are lawful.
fn are_lawful_arguments(model: &Model, arguments: &[ConArg]) -> bool
    ensures { IsTrue result ↔ All (IsLawfulArgument model.now) arguments.now }
{
    arguments
        .iter()
        .all(|argument| is_lawful_argument(model, argument))
}

// Whether the decision names tokens and variables that the model has, and values.
fn is_lawful_decision(model: &Model, decision: &Decision) -> bool
    ensures { IsTrue result ↔ IsLawfulDecision model.now decision.now }
{
    match decision {
        Decision::Specify(variable, value) => is_variable(model, variable) && is_value(*value),
        Decision::Activate(token) => is_token(model, token),
        Decision::Merge(token, target) => is_token(model, token) && is_token(model, target),
        Decision::Reject(token) => is_token(model, token),
        Decision::Order(first, second) => is_token(model, first) && is_token(model, second),
        Decision::Constrain(_, arguments) => are_lawful_arguments(model, arguments.as_slice()),
        Decision::Relate(_, first, second) => is_token(model, first) && is_token(model, second),
    }
}

/// Whether the decisions are all lawful.
pub fn are_lawful_decisions(model: &Model, decisions: &[Placed]) -> bool
    ensures { IsTrue result ↔ All (λ placed. IsLawfulDecision model.now placed.decision) decisions.now }
{
    decisions
        .iter()
        .all(|placed| is_lawful_decision(model, &placed.decision))
}
