//! A plan in which two tokens change places.

ghost use Rattle.std.specs.Prelude.{◌≡◌, [], ◌∷◌, pos};
ghost use Rattle.eu_name.specs.declared.name.Part.TheVariants.{Start};
ghost use Rattle.eu_name.specs.declared.name.VarName.TheVariants as variables;
ghost use Rattle.model_core.specs.declared.decision.ConArg.TheVariants.{Var, Value};
ghost use Rattle.model_core.specs.declared.decision.Decision.TheVariants.{Specify, Activate, Merge, Relate};
ghost use Rattle.model_core.specs.declared.item.Rel.TheVariants.{Before};
ghost use Rattle.model_core.specs.Tokens.{slot_token};
ghost use Rattle.plan_defs.specs.declared.plan.Line.TheVariants as lines;
ghost use Rattle.plan_defs.specs.Broken.{AgreesWith};
ghost use Rattle.plan_defs.specs.Plans.{IsPlanOf};
ghost use Rattle.plan_defs.specs.Valid.{IsValid};
ghost use Rattle.law_examples.specs.Posted.{leq};
ghost use Rattle.law_examples.specs.Refused.{two_goals};
ghost use Rattle.law_search.specs.SwapLaws.{MayChangePlaces, count_of_tokens};
ghost use Rattle.law_search.specs.Swapping.{IsSwap};
ghost use Rattle.law_search.specs.Under.{IsLineUnder, NamesUnder};
ghost use Rattle.law_examples.specs.Swaps.{g, gg, old, new, IsOnlyChoice};

/// Of two goals of one predicate, `g` and `gg`, the old plan merges `g` into `gg`. Nothing is active when it is decided what
/// becomes of `g`, so a search activates `g`, and the plan is found only with the two in each other's places.
pub fn a_swap_covers_the_plan()
    // The old plan is one of the model.
    ensures old_is_plan { IsPlanOf two_goals old }
    // It is valid.
    ensures old_is_valid { IsValid two_goals old }
    // At first all that can be decided of `g` is to activate it: it can't be merged into a token that isn't active, and a
    // goal isn't rejected.
    ensures only_choice { IsOnlyChoice g (Activate g) }
    // The old plan doesn't agree with that: there `g` is `gg`.
    ensures lost { AgreesWith two_goals old (Activate g ∷ []) → ⊥ }
    // The two tokens may change places.
    ensures may_swap { MayChangePlaces two_goals [] old g gg }
    // In the new plan they have.
    ensures swapped { IsSwap g gg old new }
    // The new plan is one of the model.
    ensures new_is_plan { IsPlanOf two_goals new }
    // It is valid.
    ensures new_is_valid { IsValid two_goals new }
    // As many tokens take place in it.
    ensures as_many { count_of_tokens new ≡ count_of_tokens old }
    // It agrees with the activation of `g`.
    ensures covered { AgreesWith two_goals new (Activate g ∷ []) }
{}

/// The locals of a token stand under it, and the tokens of its slots with all that they have. It doesn't itself, nor do its parts.
pub fn locals_and_slots_stand_under_a_token()
    // A decision may name a local of `g`, or a slot of it, as what is merged and as the target.
    ensures local { NamesUnder g (Specify (variables.Local g 0 0) (pos 0)) }
    ensures slot_part { NamesUnder g (Specify (variables.Token (slot_token g 0 0) Start) (pos 0)) }
    ensures slot { NamesUnder g (Merge (slot_token g 0 0) gg) }
    ensures target { NamesUnder g (Merge gg (slot_token g 0 0)) }
    ensures argument { NamesUnder g (leq (Value (pos 0)) (Var (variables.Local g 0 0))) }
    ensures related_slot { NamesUnder g (Relate Before gg (slot_token g 0 0)) }
    // It may name `g`, a part of `g`, or a slot of `gg`.
    ensures itself { NamesUnder g (Activate g) → ⊥ }
    ensures part { NamesUnder g (Specify (variables.Token g Start) (pos 0)) → ⊥ }
    ensures other_slot { NamesUnder g (Activate (slot_token gg 0 0)) → ⊥ }
    ensures part_as_argument { NamesUnder g (leq (Value (pos 0)) (Var (variables.Token g Start))) → ⊥ }
    ensures related { NamesUnder g (Relate Before g gg) → ⊥ }
    // Lines go by their own names, and not by those of targets.
    ensures local_line { IsLineUnder g (lines.Local (variables.Local g 0 0) (pos 0)) }
    ensures slot_line { IsLineUnder g (lines.Merged (slot_token g 0 0) gg) }
    ensures own_line { IsLineUnder g (lines.Merged g gg) → ⊥ }
    ensures target_line { IsLineUnder g (lines.Merged gg (slot_token g 0 0)) → ⊥ }
{}
