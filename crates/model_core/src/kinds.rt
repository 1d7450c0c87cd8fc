//! Of which kind variables are.

ghost use Rattle.std.specs.Prelude.{◌≡◌};
ghost use Rattle.eu_name.specs.declared.name.VarName.TheVariants.{Local};
ghost use Rattle.model_core.specs.declared.variable.Base.{Base};
ghost use Rattle.model_core.specs.declared.variable.ValueKind.{ValueKind};
ghost use Rattle.model_core.specs.declared.variable.VarDecl.{VarDecl};
ghost use Rattle.model_core.specs.Kinds.{IsPartOfKind, IsVariableOfKind};
ghost use Rattle.model_core.specs.Variables.{HasBase, HasParameter, IsGlobal};

use super::model::Model;
use super::variable::ValueKind;
use eu_name::name::{Part, TokenName, VarName};

impl Model {
    /// The kind of a variable that the model has.
    pub fn kind_of(&self, name: &VarName) -> ValueKind
        requires { (base : Base) × HasBase self.now name.now base }
        ensures { IsVariableOfKind self.now result name.now }
    {
        match name {
            VarName::Global(number) => global_kind(self, *number),
            VarName::Token(token, part) => part_kind(self, self.pred_of(token), *part),
            VarName::Local {
                token,
                rule,
                number,
            } => local_kind(self, token, *rule, *number),
        }
    }
}

// The kind of a global that the model has.
fn global_kind(model: &Model, number: u32) -> ValueKind
    requires { (variable : VarDecl) × IsGlobal model.now number variable }
    ensures { (variable : VarDecl) × (IsGlobal model.now number variable × (result ≡ variable.kind)) }
{
    let variable = &model.problem.globals.as_slice()[number as usize];
    variable.kind
}

// The kind of a parameter that the predicate has.
fn param_kind(model: &Model, pred: u32, number: u16) -> ValueKind
    requires { (variable : VarDecl) × HasParameter model.now pred number variable }
    ensures { (variable : VarDecl) × HasParameter model.now pred number variable × (result ≡ variable.kind) }
{
    let found = &model.preds.as_slice()[pred as usize];
    let variable = &found.params.as_slice()[usize::from(number)];
    variable.kind
}

// The kind of a part that tokens of the predicate have.
fn part_kind(model: &Model, pred: u32, part: Part) -> ValueKind
    requires { (kind : ValueKind) × IsPartOfKind model.now pred kind part }
    ensures { IsPartOfKind model.now pred result part }
{
    match part {
        Part::Start => ValueKind::Int,
        Part::End => ValueKind::Int,
        Part::Duration => ValueKind::Int,
        Part::Object => ValueKind::Object,
        Part::Param(number) => param_kind(model, pred, number),
    }
}

// The kind of a local that the model has.
fn local_kind(model: &Model, token: &TokenName, rule: u16, number: u16) -> ValueKind
    requires { (base : Base) × HasBase model.now (Local token.now rule number) base }
    ensures { IsVariableOfKind model.now result (Local token.now rule number) }
{
    match model.local_of(model.pred_of(token), rule, number) {
        Some(variable) => variable.kind,
        None => unreachable!(),
    }
}
