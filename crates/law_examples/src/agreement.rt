//! Which plans agree with a list of decisions, for each kind of decision.

ghost use Rattle.std.specs.Prelude.{[], ◌∷◌, pos};
ghost use Rattle.model_core.specs.declared.class.ObjectKind.TheVariants.{Plain};
ghost use Rattle.model_core.specs.declared.decision.ConArg.TheVariants.{Value};
ghost use Rattle.model_core.specs.declared.decision.Decision.TheVariants.{Activate, Merge, Reject, Order};
ghost use Rattle.model_core.specs.declared.item.Rel.TheVariants as rel;
ghost use Rattle.plan_defs.specs.Broken.{AgreesWith};
ghost use Rattle.law_examples.specs.Cases.{two_facts, battery, quantity_is};
ghost use Rattle.law_examples.specs.Globals.{free_x};
ghost use Rattle.law_examples.specs.Plans.{values_alone, facts_with, taking_out};
ghost use Rattle.law_examples.specs.Posted.{the_x, leq, relate_them};
ghost use Rattle.law_examples.specs.Refused.{two_goals};
ghost use Rattle.law_examples.specs.Swaps.{g, gg, old};
ghost use Rattle.law_examples.specs.Worlds.{x_is};

/// A plan agrees with a list if each decision of it is true in the plan.
pub fn plans_agree_with_what_they_say()
    // Where nothing is decided each plan agrees.
    ensures nothing { AgreesWith free_x (values_alone (pos 0 ∷ [])) [] }
    // A variable has the value that is specified.
    ensures value { AgreesWith free_x (values_alone (pos 0 ∷ [])) (x_is 0 ∷ []) }
    ensures other_value { AgreesWith free_x (values_alone (pos 0 ∷ [])) (x_is 1 ∷ []) → ⊥ }
    // A merged token has its target's values.
    ensures value_of_target { AgreesWith two_goals old (quantity_is 1 ∷ []) }
    ensures none_of_target { AgreesWith two_goals old (quantity_is 2 ∷ []) → ⊥ }
    // What is activated takes place, and neither as another token nor as a fact.
    ensures activated { AgreesWith two_goals old (Activate gg ∷ []) }
    ensures as_other { AgreesWith two_goals old (Activate g ∷ []) → ⊥ }
    ensures as_fact { AgreesWith (two_facts Plain) (facts_with 5) (Activate g ∷ []) → ⊥ }
    // What is merged is merged into this target.
    ensures merged { AgreesWith two_goals old (Merge g gg ∷ []) }
    ensures merged_back { AgreesWith two_goals old (Merge gg g ∷ []) → ⊥ }
    // What is rejected doesn't take place.
    ensures rejected { AgreesWith battery (taking_out 5) (Reject gg ∷ []) }
    ensures not_rejected { AgreesWith battery (taking_out 5) (Reject g ∷ []) → ⊥ }
    // Of two tokens in order the first ends when the second starts, or before.
    ensures ordered { AgreesWith (two_facts Plain) (facts_with 5) (Order g gg ∷ []) }
    ensures overlapping { AgreesWith (two_facts Plain) (facts_with 4) (Order g gg ∷ []) → ⊥ }
    ensures turned { AgreesWith (two_facts Plain) (facts_with 5) (Order gg g ∷ []) → ⊥ }
    // A constraint holds of the values of its variables, each of which has one.
    ensures constrained { AgreesWith free_x (values_alone (pos 0 ∷ [])) (leq the_x (Value (pos 1)) ∷ []) }
    ensures other_constraint { AgreesWith free_x (values_alone (pos 0 ∷ [])) (leq (Value (pos 1)) the_x ∷ []) → ⊥ }
    ensures without_value { AgreesWith free_x (values_alone []) (leq the_x (Value (pos 1)) ∷ []) → ⊥ }
    // A relation holds between two tokens that have values, their own or those of a target, even if it says nothing of them.
    ensures related { AgreesWith (two_facts Plain) (facts_with 5) (relate_them rel.Before ∷ []) }
    ensures unrelated { AgreesWith (two_facts Plain) (facts_with 4) (relate_them rel.Before ∷ []) → ⊥ }
    ensures any { AgreesWith two_goals old (relate_them rel.Any ∷ []) }
    ensures any_of_rejected { AgreesWith battery (taking_out 5) (relate_them rel.Any ∷ []) → ⊥ }
    // One decision that isn't true is enough.
    ensures both { AgreesWith two_goals old (Merge g gg ∷ Activate gg ∷ []) }
    ensures only_one { AgreesWith two_goals old (Merge g gg ∷ Activate g ∷ []) → ⊥ }
{}
