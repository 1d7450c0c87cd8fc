//! What stands in a model by its number.

ghost use Rattle.std.specs.Prelude.{◌≡◌, Some, MatchOption, slice_get};
ghost use Rattle.model_core.specs.declared.class.Class.{Class};
ghost use Rattle.model_core.specs.declared.class.Enum.{Enum};
ghost use Rattle.model_core.specs.declared.class.Pred.{Pred};
ghost use Rattle.model_core.specs.declared.model.Root.{Root};
ghost use Rattle.model_core.specs.declared.rule.Slot.{Slot};
ghost use Rattle.model_core.specs.declared.variable.VarDecl.{VarDecl};
ghost use Rattle.model_core.specs.Tokens.{IsRoot};
ghost use Rattle.model_core.specs.Variables.{HasParameter, IsGlobal};

use model_core::class::{Class, Enum, Pred};
use model_core::model::{Model, Root};
use model_core::rule::{Rule, Slot};
use model_core::variable::VarDecl;

/// The enum of this number.
pub fn enum_at(model: &Model, number: u32) -> Option<&Enum>
    ensures { MatchOption result
        ((found : Enum) → slice_get model.now.enums number ≡ Some found → ⊥)
        (λ found. slice_get model.now.enums number ≡ Some found.now) }
{
    model.enums.as_slice().get(number as usize)
}

/// The class of this number.
pub fn class_at(model: &Model, number: u32) -> Option<&Class>
    ensures { MatchOption result
        ((class : Class) → slice_get model.now.classes number ≡ Some class → ⊥)
        (λ class. slice_get model.now.classes number ≡ Some class.now) }
{
    model.classes.as_slice().get(number as usize)
}

/// The predicate of this number.
pub fn pred_at(model: &Model, number: u32) -> Option<&Pred>
    ensures { MatchOption result
        ((pred : Pred) → slice_get model.now.preds number ≡ Some pred → ⊥)
        (λ pred. slice_get model.now.preds number ≡ Some pred.now) }
{
    model.preds.as_slice().get(number as usize)
}

/// The parameter of this number of the predicate.
pub fn param_at(model: &Model, pred: u32, number: u16) -> Option<&VarDecl>
    ensures { MatchOption result
        ((variable : VarDecl) → HasParameter model.now pred number variable → ⊥)
        (λ variable. HasParameter model.now pred number variable.now) }
{
    match pred_at(model, pred) {
        Some(found) => found.params.as_slice().get(usize::from(number)),
        None => None,
    }
}

/// The global of this number.
pub fn global_at(model: &Model, number: u32) -> Option<&VarDecl>
    ensures { MatchOption result
        ((variable : VarDecl) → IsGlobal model.now number variable → ⊥)
        (λ variable. IsGlobal model.now number variable.now) }
{
    model.problem.globals.as_slice().get(number as usize)
}

/// The root of this number.
pub fn root_at(model: &Model, number: u32) -> Option<&Root>
    ensures { MatchOption result
        ((root : Root) → IsRoot model.now number root → ⊥)
        (λ root. IsRoot model.now number root.now) }
{
    model.problem.roots.as_slice().get(number as usize)
}

/// The slot of this number of the rule.
pub fn slot_at(rule: &Rule, number: u32) -> Option<&Slot>
    ensures { MatchOption result
        ((slot : Slot) → slice_get rule.now.slots number ≡ Some slot → ⊥)
        (λ slot. slice_get rule.now.slots number ≡ Some slot.now) }
{
    rule.slots.as_slice().get(number as usize)
}

/// The local of this number of the rule.
pub fn local_at(rule: &Rule, number: u32) -> Option<&VarDecl>
    ensures { MatchOption result
        ((variable : VarDecl) → slice_get rule.now.locals number ≡ Some variable → ⊥)
        (λ variable. slice_get rule.now.locals number ≡ Some variable.now) }
{
    rule.locals.as_slice().get(number as usize)
}
