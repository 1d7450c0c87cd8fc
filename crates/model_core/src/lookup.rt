//! What stands where in a model: roots, rules, parameters and locals, and the predicates that steps lead to.

ghost use Rattle.std.specs.Prelude.{◌≡◌, ◌↔◌, ◌<◌, ◌^◌, ℕ, length, Some, IsTrue, MatchOption, option_copied, slice_get};
ghost use Rattle.model_core.specs.declared.model.Root.{Root};
ghost use Rattle.model_core.specs.declared.rule.Rule.{Rule};
ghost use Rattle.model_core.specs.declared.rule.Slot.{Slot};
ghost use Rattle.model_core.specs.declared.variable.VarDecl.{VarDecl};
ghost use Rattle.model_core.specs.Lawful.{IsLawful};
ghost use Rattle.model_core.specs.Lookup.{LeadsOn};
ghost use Rattle.model_core.specs.Tokens.{HasRule, LeadsToSlot, IsRoot};
ghost use Rattle.model_core.specs.Variables.{HasParameter};

use super::model::{Model, Root};
use super::rule::Rule;
use super::variable::{VarDecl, first_named};
use eu_name::name::Step;

impl Model {
    /// The number of the root with this label.
    pub fn root_labelled(&self, label: &[u8]) -> Option<u32>
        requires { length self.now.problem.roots < 2 ^ 32 }
        ensures { MatchOption result
            ((number : ℕ) (root : Root) → IsRoot self.now number root → root.label ≡ label.now → ⊥)
            (λ number. (root : Root) × IsRoot self.now number root × (root.label ≡ label.now)) }
    {
        for (number, root) in self.problem.roots.as_slice().iter().enumerate() {
            if is_labelled(root, label) {
                return Some(number as u32);
            }
        }
        None
    }

    /// The rule of this number in the list of the predicate.
    pub fn rule_of(&self, pred: u32, number: u16) -> Option<&Rule>
        ensures { MatchOption result
            ((rule : Rule) → HasRule self.now pred number rule → ⊥)
            (λ rule. HasRule self.now pred number rule.now) }
    {
        let pred = item_at(self.preds.as_slice(), pred as usize)?;
        let place = item_at(pred.rules.as_slice(), usize::from(number))?;
        item_at(self.rules.as_slice(), *place as usize)
    }

    /// The number of the predicate's parameter of this name.
    pub fn param_named(&self, pred: u32, word: &[u8]) -> Option<u16>
        requires { IsLawful self.now }
        ensures { MatchOption result
            ((number : ℕ) (variable : VarDecl) → HasParameter self.now pred number variable → variable.name ≡ word.now → ⊥)
            (λ number. (variable : VarDecl) × HasParameter self.now pred number variable × (variable.name ≡ word.now)) }
    {
        let pred = item_at(self.preds.as_slice(), pred as usize)?;
        let number = first_named(pred.params.as_slice(), word)?;
        Some(number as u16)
    }

    /// The local of this number of the rule of this number in the list of the predicate.
    pub fn local_of(&self, pred: u32, rule: u16, number: u16) -> Option<&VarDecl>
        ensures { MatchOption result
            ((found : Rule) (variable : VarDecl) → HasRule self.now pred rule found
            → slice_get found.locals number ≡ Some variable → ⊥)
            (λ variable. (found : Rule) × HasRule self.now pred rule found
            × (slice_get found.locals number ≡ Some variable.now)) }
    {
        let rule = self.rule_of(pred, rule)?;
        item_at(rule.locals.as_slice(), usize::from(number))
    }

    // The predicate of the token to which the step leads from one of this predicate.
    fn next_pred(&self, pred: u32, step: Step) -> Option<u32>
        ensures { MatchOption result
            ((slot : Slot) → LeadsToSlot self.now pred step slot → ⊥)
            (λ next. (slot : Slot) × LeadsToSlot self.now pred step slot × (slot.pred ≡ next)) }
    {
        let rule = self.rule_of(pred, step.rule)?;
        let slot = item_at(rule.slots.as_slice(), usize::from(step.slot))?;
        Some(slot.pred)
    }

    /// The predicate of the token to which the steps lead from one of this predicate.
    pub fn pred_after(&self, first: u32, steps: &[Step]) -> Option<u32>
        ensures { MatchOption result
            ((reached : ℕ) → LeadsOn self.now first steps.now reached → ⊥)
            (LeadsOn self.now first steps.now) }
    {
        let mut pred = first;
        for step in steps {
            pred = self.next_pred(pred, *step)?;
        }
        Some(pred)
    }
}

// Whether the root has this label.
fn is_labelled(root: &Root, label: &[u8]) -> bool
    ensures { IsTrue result ↔ (root.now.label ≡ label.now) }
{
    root.label.as_bytes() == label
}

// The item at this place.
fn item_at<T>(items: &[T], place: usize) -> Option<&T>
    ensures { option_copied result ≡ slice_get items.now place }
{
    items.get(place)
}
