//! Whether variables are declared with values.

ghost use Rattle.std.specs.Prelude.{◌≡◌, Some, MatchBool, MatchOption, slice_get};
ghost use Rattle.eu_name.specs.declared.name.VarName.TheVariants as variables;
ghost use Rattle.model_core.specs.declared.variable.VarDecl.{VarDecl};
ghost use Rattle.model_core.specs.Variables.{IsGlobal};
ghost use Rattle.plan_defs.specs.Refusals.{IsDeclared};

use super::bases::{base_has, is_part_declared};
use crate::rules::rule_of;
use crate::tokens::pred_of;
use eu_name::name::{Part, TokenName, VarName};
use model_core::model::Model;
use model_core::rule::Rule;
use model_core::variable::VarDecl;

// The local of this number of the rule.
fn local_in(rule: &Rule, number: u16) -> Option<&VarDecl>
    ensures { MatchOption result
        ((variable : VarDecl) → slice_get rule.now.locals number ≡ Some variable → ⊥)
        (λ variable. slice_get rule.now.locals number ≡ Some variable.now) }
{
    rule.locals.as_slice().get(usize::from(number))
}

/// Whether the local of this number of the token's rule is declared with the value.
pub fn is_local_declared(
    model: &Model,
    token: &TokenName,
    rule: u16,
    number: u16,
    value: i32,
) -> bool
    ensures { MatchBool result
        (IsDeclared model.now (variables.Local token.now rule number) value)
        (IsDeclared model.now (variables.Local token.now rule number) value → ⊥) }
{
    match rule_of(model, token, rule) {
        Some(found) => match local_in(found, number) {
            Some(variable) => base_has(&variable.base, value),
            None => false,
        },
        None => false,
    }
}

// The global of this number.
fn global_at(model: &Model, number: u32) -> Option<&VarDecl>
    ensures { MatchOption result
        ((variable : VarDecl) → IsGlobal model.now number variable → ⊥)
        (λ variable. IsGlobal model.now number variable.now) }
{
    model.problem.globals.as_slice().get(number as usize)
}

// Whether the global of this number is declared with the value.
fn is_global_declared(model: &Model, number: u32, value: i32) -> bool
    ensures { MatchBool result
        (IsDeclared model.now (variables.Global number) value)
        (IsDeclared model.now (variables.Global number) value → ⊥) }
{
    match global_at(model, number) {
        Some(variable) => base_has(&variable.base, value),
        None => false,
    }
}

// Whether this part of the token is declared with the value.
fn is_declared_part(model: &Model, token: &TokenName, part: Part, value: i32) -> bool
    ensures { MatchBool result
        (IsDeclared model.now (variables.Token token.now part) value)
        (IsDeclared model.now (variables.Token token.now part) value → ⊥) }
{
    match pred_of(model, token) {
        Some(pred) => is_part_declared(model, token, pred, part, value),
        None => false,
    }
}

/// Whether the model has the variable and declares it with the value.
pub fn is_declared(model: &Model, name: &VarName, value: i32) -> bool
    ensures { MatchBool result
        (IsDeclared model.now name.now value)
        (IsDeclared model.now name.now value → ⊥) }
{
    match name {
        VarName::Global(number) => is_global_declared(model, *number, value),
        VarName::Token(token, part) => is_declared_part(model, token, *part, value),
        VarName::Local {
            token,
            rule,
            number,
        } => is_local_declared(model, token, *rule, *number, value),
    }
}
