//! Rules by which a search finds what to decide next.

use super::flaw::Flaw;
use model_core::decision::Decision;
use model_core::model::Model;
use model_core::view::View;
use std::alloc::AllocError;

/// Which flaw of a least state comes first, and what can be decided of it in which order. Whatever a rule looks for, a state in
/// which it finds nothing has no flaw, each of its choices may be taken, and between them they leave no valid plan out.
pub trait FlawRule {
    ghost use Rattle.std.specs.Prelude.{◌≡◌, ◌≤◌, ℕ, List, Contains, Option, Some, None, IfOk, MatchBool, MatchOption, slice_get};
    ghost use Rattle.model_core.specs.declared.decision.Decision.{Decision};
    ghost use Rattle.model_core.specs.declared.model.Model.{Model};
    ghost use Rattle.model_core.specs.State.{State};
    ghost use Rattle.plan_defs.specs.declared.plan.Plan.{Plan};
    ghost use Rattle.plan_defs.specs.Refusals.{IsAdmissible};
    ghost use Rattle.plan_defs.specs.Flaws.{HasFlaw};
    ghost use Rattle.law_search.specs.SearchLaws.{IsPlanFor, AgreesWithSome};
    ghost use Rattle.flaw_core.specs.declared.flaw.Flaw.{Flaw};
    ghost use Rattle.flaw_core.specs.Rules.{IsLeastFor, LeavesOut, IsCoveredBy};

    /// The flaw is the first one of the state, or the state has none for this rule.
    ghost is_first: { Self → Model → List Decision → State → Option Flaw → Type 0 };

    /// These are the decisions that can be taken of the flaw, in order, where no more tokens than the bound may be active.
    ghost are_choices: { Self → Model → List Decision → State → ℕ → Flaw → List Decision → Type 0 };

    /// The first flaw of the view, or None where there is none. It takes no memory.
    fn first_flaw<V: View>(&self, model: &Model, view: &V, bound: u32) -> Option<Flaw>
        requires model { V.model view.now ≡ model.now }
        requires least { IsLeastFor model.now (V.decisions view.now) (V.state view.now) }
        requires bound { bound ≤ 512 }
        ensures first { is_first self.now model.now (V.decisions view.now) (V.state view.now) result }
        ensures choices { MatchOption result (Unit {0}) (λ flaw. (choices : List Decision)
            × are_choices self.now model.now (V.decisions view.now) (V.state view.now) bound flaw choices) };

    /// The choice of this number for the first flaw of the view, from 0, or None from the number of choices on.
    fn choice<V: View>(
        &self,
        model: &Model,
        view: &V,
        flaw: &Flaw,
        number: u32,
        bound: u32,
    ) -> Result<Option<Decision>, AllocError>
        requires model { V.model view.now ≡ model.now }
        requires least { IsLeastFor model.now (V.decisions view.now) (V.state view.now) }
        requires bound { bound ≤ 512 }
        requires first { is_first self.now model.now (V.decisions view.now) (V.state view.now) (Some flaw.now) }
        ensures { IfOk result (λ choice. (choices : List Decision)
            → are_choices self.now model.now (V.decisions view.now) (V.state view.now) bound flaw.now choices
            → choice ≡ slice_get choices number) };

    /// Whether the flaw is a token that isn't activated, as so many tokens are active already.
    fn left_out<V: View>(&self, view: &V, flaw: &Flaw, bound: u32) -> bool
        requires least { IsLeastFor (V.model view.now) (V.decisions view.now) (V.state view.now) }
        ensures { MatchBool result
            (LeavesOut (V.model view.now) (V.decisions view.now) bound flaw.now)
            (LeavesOut (V.model view.now) (V.decisions view.now) bound flaw.now → ⊥) };

    /// Where the rule finds nothing there is no flaw.
    ghost clears: { (it : Self) (model : Model) (decisions : List Decision) (state : State)
        → IsLeastFor model decisions state → is_first it model decisions state None → HasFlaw model decisions state → ⊥ };

    /// Each choice of the first flaw is admissible.
    ghost admits: { (it : Self) (model : Model) (decisions : List Decision) (state : State) (bound : ℕ) (flaw : Flaw)
        (choices : List Decision) (choice : Decision)
        → bound ≤ 512 → IsLeastFor model decisions state → is_first it model decisions state (Some flaw)
        → are_choices it model decisions state bound flaw choices → Contains choices choice
        → IsAdmissible model decisions choice };

    /// The choices cover: a valid plan that agrees with the decisions can be changed into one that agrees with a choice too.
    ghost covers: { (it : Self) (model : Model) (decisions : List Decision) (state : State) (bound : ℕ) (flaw : Flaw)
        (choices : List Decision) (plan : Plan)
        → IsLeastFor model decisions state → is_first it model decisions state (Some flaw)
        → are_choices it model decisions state bound flaw choices → IsPlanFor model decisions plan
        → IsCoveredBy model decisions bound flaw plan → AgreesWithSome model decisions choices plan };
}
