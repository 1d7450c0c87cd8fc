//! What the model has of the tokens and locals that a plan names.

ghost use Rattle.std.specs.Prelude.{◌≡◌};
ghost use Rattle.eu_name.specs.declared.name.VarName.TheVariants as variables;
ghost use Rattle.model_core.specs.declared.rule.Slot.{Slot};
ghost use Rattle.model_core.specs.declared.variable.Base.{Base};
ghost use Rattle.model_core.specs.Lawful.{IsToken};
ghost use Rattle.model_core.specs.Tokens.{HasToken};
ghost use Rattle.model_core.specs.Variables.{HasBase};
ghost use Rattle.plan_text.specs.Subjects.{IsLocalOfKind};

use eu_name::name::TokenName;
use model_core::model::Model;
use model_core::variable::ValueKind;

/// The number of the predicate of a token that the model has.
pub fn pred_of(model: &Model, token: &TokenName) -> u32
    requires { IsToken model.now token.now }
    ensures { (slot : Slot) → HasToken model.now token.now slot → slot.pred ≡ result }
{
    let root = &model.problem.roots.as_slice()[token.root as usize];
    match model.pred_after(root.pred, token.steps.as_slice()) {
        Some(pred) => pred,
        None => unreachable!(),
    }
}

/// The kind of a local that the model has.
pub fn local_kind(model: &Model, token: &TokenName, rule: u16, number: u16) -> ValueKind
    requires { (base : Base) × HasBase model.now (variables.Local token.now rule number) base }
    ensures { IsLocalOfKind model.now result (variables.Local token.now rule number) }
{
    match model.local_of(pred_of(model, token), rule, number) {
        Some(variable) => variable.kind,
        None => unreachable!(),
    }
}
