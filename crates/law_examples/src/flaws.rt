//! What a state leaves open, and what can be decided of it. The states needn't be the least ones.

ghost use Rattle.std.specs.Prelude.{[], ◌∷◌};
ghost use Rattle.eu_name.specs.declared.name.Part.TheVariants.{Start, End, Param};
ghost use Rattle.eu_name.specs.declared.name.VarName.TheVariants.{Global, Token};
ghost use Rattle.model_core.specs.declared.class.ObjectKind.TheVariants.{Plain, Timeline};
ghost use Rattle.model_core.specs.declared.decision.Decision.TheVariants.{Activate, Merge, Reject, Order};
ghost use Rattle.model_core.specs.declared.model.RootKind.TheVariants.{Rejectable, Fact};
ghost use Rattle.plan_defs.specs.Flaws.{Undecided, Undetermined, Unordered, Untimed, IsFlaw, HasFlaw};
ghost use Rattle.law_search.specs.Choices.{IsFirstFlaw, IsLeftOut};
ghost use Rattle.law_examples.specs.Cases.{short, moment, lone_goal, two_facts, goal_and_fact, activated, ordered};
ghost use Rattle.law_examples.specs.Flaws.{loose_pair, starting, start_is, HasChoices};
ghost use Rattle.law_examples.specs.Globals.{free_x, with_x, up_to};
ghost use Rattle.law_examples.specs.Refused.{one_token, two_tokens, reject_it, alone, two_goals, mixed};
ghost use Rattle.law_examples.specs.Scenes.{exactly, scene_state};
ghost use Rattle.law_examples.specs.Swaps.{g, gg};
ghost use Rattle.law_examples.specs.Worlds.{x_is};

/// What a state leaves open, for each sort of flaw.
pub fn flaws_are_what_is_left_open()
    // A goal is open until it is decided what becomes of it. A fact never is.
    ensures undecided { IsFlaw lone_goal [] one_token (Undecided g) }
    ensures decided { IsFlaw lone_goal activated one_token (Undecided g) → ⊥ }
    ensures fact { IsFlaw (alone Fact) [] one_token (Undecided g) → ⊥ }
    // A variable is open that has more than one value, unless its token is rejected.
    ensures several { IsFlaw free_x [] (with_x (up_to 2)) (Undetermined (Global 0)) }
    ensures single { IsFlaw free_x [] (with_x (up_to 0)) (Undetermined (Global 0)) → ⊥ }
    ensures of_open_token { IsFlaw (alone Rejectable) [] (scene_state [] (short (up_to 1) ∷ [])) (Undetermined (Token g (Param 0))) }
    ensures of_rejected_token { IsFlaw (alone Rejectable) (reject_it ∷ []) (scene_state [] (short (up_to 1) ∷ [])) (Undetermined (Token g (Param 0))) → ⊥ }
    // Two facts on one timeline have no order if either may end after the other starts, and it isn't decided which is first.
    ensures unordered { IsFlaw (two_facts Timeline) [] loose_pair (Unordered g gg) }
    ensures ordered { IsFlaw (two_facts Timeline) ordered loose_pair (Unordered g gg) → ⊥ }
    ensures in_turn { IsFlaw (two_facts Timeline) [] (scene_state [] (moment 0 5 0 ∷ moment 5 3 0 ∷ [])) (Unordered g gg) → ⊥ }
    ensures on_no_timeline { IsFlaw (two_facts Plain) [] loose_pair (Unordered g gg) → ⊥ }
    ensures turned { IsFlaw (two_facts Timeline) [] loose_pair (Unordered gg g) → ⊥ }
    // A start is open that has more than one value. An end never is.
    ensures untimed { IsFlaw lone_goal activated (starting (up_to 2)) (Untimed (Token g Start)) }
    ensures timed { IsFlaw lone_goal activated (starting (exactly 1)) (Untimed (Token g Start)) → ⊥ }
    ensures end { IsFlaw lone_goal activated (starting (up_to 2)) (Untimed (Token g End)) → ⊥ }
    // Nothing is open any more once the goal is activated that has one value for each part.
    ensures none { HasFlaw lone_goal activated one_token → ⊥ }
    ensures some { HasFlaw lone_goal [] one_token }
    // What becomes of a token comes first, and then its parameters.
    ensures first { IsFirstFlaw lone_goal [] (scene_state [] (short (up_to 1) ∷ [])) (Undecided g) }
    ensures later { IsFirstFlaw lone_goal [] (scene_state [] (short (up_to 1) ∷ [])) (Undetermined (Token g (Param 0))) → ⊥ }
{}

/// The decisions on each sort of flaw, in their order.
pub fn flaws_have_their_choices()
    // A goal is activated. A rejectable is rejected too.
    ensures of_goal { HasChoices lone_goal [] one_token 512 (Undecided g) (Activate g ∷ []) }
    ensures of_rejectable { HasChoices (alone Rejectable) [] one_token 512 (Undecided g) (Activate g ∷ Reject g ∷ []) }
    // It is merged into what is active, as a fact is and another goal isn't, if both are of one predicate.
    ensures beside_fact { HasChoices goal_and_fact [] two_tokens 512 (Undecided g) (Merge g gg ∷ Activate g ∷ []) }
    ensures beside_other_predicate { HasChoices mixed [] two_tokens 512 (Undecided g) (Activate g ∷ []) }
    ensures beside_goal { HasChoices two_goals [] two_tokens 512 (Undecided g) (Activate g ∷ []) }
    // Where as many tokens are active as the bound allows the activation is left out.
    ensures at_bound { HasChoices goal_and_fact [] two_tokens 1 (Undecided g) (Merge g gg ∷ []) }
    ensures left_out { IsLeftOut goal_and_fact [] two_tokens 1 (Undecided g) }
    ensures not_left_out { IsLeftOut goal_and_fact [] two_tokens 2 (Undecided g) → ⊥ }
    // A variable has each of its values.
    ensures of_variable { HasChoices free_x [] (with_x (up_to 2)) 512 (Undetermined (Global 0)) (x_is 0 ∷ x_is 1 ∷ x_is 2 ∷ []) }
    // Either of two tokens comes first.
    ensures of_pair { HasChoices (two_facts Timeline) [] loose_pair 512 (Unordered g gg) (Order g gg ∷ Order gg g ∷ []) }
    // A token has each of its starts.
    ensures of_start { HasChoices lone_goal activated (starting (up_to 2)) 512 (Untimed (Token g Start)) (start_is 0 ∷ start_is 1 ∷ start_is 2 ∷ []) }
{}
