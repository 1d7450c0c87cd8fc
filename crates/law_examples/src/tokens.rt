//! Tokens of one predicate on two objects of one kind.

ghost use Rattle.std.specs.Prelude.{[], ◌∷◌, pos};
ghost use Rattle.model_core.specs.declared.class.ObjectKind.TheVariants.{Plain, Timeline};
ghost use Rattle.model_core.specs.declared.decision.ConArg.TheVariants.{Value};
ghost use Rattle.model_core.specs.declared.item.Rel.TheVariants.{Before};
ghost use Rattle.model_core.specs.declared.model.RootKind.TheVariants.{Fact, Rejectable};
ghost use Rattle.plan_defs.specs.Closure.{IsClosed};
ghost use Rattle.law_examples.specs.Cases.{short, early, late, using, lone_goal, ruled, two_facts, tool};
ghost use Rattle.law_examples.specs.Cases.{battery, drained, activated, rejected, activate_it};
ghost use Rattle.law_examples.specs.Cases.{moment, either, limited, localised, goal_and_fact, merged, ordered};
ghost use Rattle.law_examples.specs.Globals.{empty_state, up_to};
ghost use Rattle.law_examples.specs.Posted.{the_quantity, leq, relate_them};
ghost use Rattle.law_examples.specs.Refused.{alone, two_goals};
ghost use Rattle.law_examples.specs.Scenes.{exactly, scene_state, top_block, then_block, otherwise_block, local_state};

/// A state has each token that is asked for: here a goal.
pub fn a_state_has_all_tokens()
    ensures with { IsClosed lone_goal [] (scene_state [] (short (exactly 1) ∷ [])) }
    ensures without { IsClosed lone_goal [] empty_state → ⊥ }
{}

/// The rule of a token is open once the token is activated, and not before.
pub fn rules_open_with_their_token()
    ensures inactive { IsClosed ruled [] (scene_state [] (short (up_to 1) ∷ [])) }
    ensures active { IsClosed ruled activated (scene_state [] (short (up_to 1) ∷ [])) → ⊥ }
{}

/// A guard opens its block once nothing else can be chosen. As long as both can be, neither block is open, and so
/// `else` isn't either.
pub fn guards_open_once_decided()
    ensures undecided { IsClosed ruled activated (scene_state (top_block ∷ []) (short (up_to 1) ∷ [])) }
    ensures closed { IsClosed ruled activated (scene_state (top_block ∷ []) (short (exactly 1) ∷ [])) → ⊥ }
    ensures opened { IsClosed ruled activated (scene_state (top_block ∷ then_block ∷ []) (short (exactly 1) ∷ [])) }
{}

/// Once the guard can't be true any more the block behind `else` is open.
pub fn else_opens_once_decided()
    ensures closed { IsClosed ruled activated (scene_state (top_block ∷ []) (short (exactly 2) ∷ [])) → ⊥ }
    ensures other { IsClosed ruled activated (scene_state (top_block ∷ then_block ∷ []) (short (exactly 2) ∷ [])) → ⊥ }
    ensures opened { IsClosed ruled activated (scene_state (top_block ∷ otherwise_block ∷ []) (short (exactly 2) ∷ [])) }
{}

/// An open rule has its locals, each within its base.
pub fn locals_come_with_their_rule()
    ensures with { IsClosed localised activated (local_state (moment 0 1 1) (up_to 2)) }
    ensures without { IsClosed localised activated (scene_state (top_block ∷ []) (moment 0 1 1 ∷ [])) → ⊥ }
    ensures outside { IsClosed localised activated (local_state (moment 0 1 1) (up_to 3)) → ⊥ }
{}

/// What is said of a rejectable counts only while the rejectable is taken, and what is said of a fact always does.
pub fn rejectables_count_once_taken()
    ensures open { IsClosed (limited Rejectable) [] (scene_state [] (moment 0 1 2 ∷ [])) }
    ensures taken { IsClosed (limited Rejectable) activated (scene_state [] (moment 0 1 2 ∷ [])) → ⊥ }
    ensures kept { IsClosed (limited Rejectable) activated (scene_state [] (moment 0 1 1 ∷ [])) }
    ensures fact { IsClosed (limited Fact) [] (scene_state [] (moment 0 1 2 ∷ [])) → ⊥ }
{}

/// So it is with a posted constraint.
pub fn posted_constraints_count_once_taken()
    ensures untaken { IsClosed (alone Rejectable) (leq the_quantity (Value (pos 1)) ∷ []) (scene_state [] (moment 0 1 2 ∷ [])) }
    ensures taken { IsClosed (alone Rejectable) (activate_it ∷ leq the_quantity (Value (pos 1)) ∷ []) (scene_state [] (moment 0 1 2 ∷ [])) → ⊥ }
    ensures kept { IsClosed (alone Rejectable) (activate_it ∷ leq the_quantity (Value (pos 1)) ∷ []) (scene_state [] (moment 0 1 1 ∷ [])) }
{}

/// A merged token has the times of its target, and its parameters too.
pub fn merged_tokens_are_alike()
    ensures alike { IsClosed goal_and_fact merged (scene_state [] (moment 0 5 2 ∷ moment 0 5 2 ∷ [])) }
    ensures later { IsClosed goal_and_fact merged (scene_state [] (moment 1 5 2 ∷ moment 0 5 2 ∷ [])) → ⊥ }
    ensures shorter { IsClosed goal_and_fact merged (scene_state [] (moment 0 4 2 ∷ moment 0 5 2 ∷ [])) → ⊥ }
    ensures more { IsClosed goal_and_fact merged (scene_state [] (moment 0 5 3 ∷ moment 0 5 2 ∷ [])) → ⊥ }
    ensures apart { IsClosed goal_and_fact [] (scene_state [] (moment 0 5 3 ∷ moment 0 5 2 ∷ [])) }
{}

/// Of two tokens in order the first ends before the second starts, or just then.
pub fn ordered_tokens_follow()
    ensures before { IsClosed (two_facts Plain) ordered (scene_state [] (moment 0 5 0 ∷ moment 5 3 0 ∷ [])) }
    ensures overlapping { IsClosed (two_facts Plain) ordered (scene_state [] (moment 0 5 0 ∷ moment 4 3 0 ∷ [])) → ⊥ }
    ensures after { IsClosed (two_facts Plain) ordered (scene_state [] (moment 5 3 0 ∷ moment 0 5 0 ∷ [])) → ⊥ }
    ensures unordered { IsClosed (two_facts Plain) [] (scene_state [] (moment 5 3 0 ∷ moment 0 5 0 ∷ [])) }
{}

/// A posted relation holds between its tokens, which needn't be active.
pub fn posted_relations_hold()
    ensures before { IsClosed two_goals (relate_them Before ∷ []) (scene_state [] (moment 0 5 0 ∷ moment 5 3 0 ∷ [])) }
    ensures overlapping { IsClosed two_goals (relate_them Before ∷ []) (scene_state [] (moment 0 5 0 ∷ moment 4 3 0 ∷ [])) → ⊥ }
    ensures unrelated { IsClosed two_goals [] (scene_state [] (moment 0 5 0 ∷ moment 4 3 0 ∷ [])) }
{}

/// Tokens on one timeline don't overlap: what lasts from 0 to 5 can't end before 4, so the other token would have
/// to end before 0.
pub fn timelines_force_an_order()
    ensures plain { IsClosed (two_facts Plain) [] (scene_state [] (early ∷ late ∷ [])) }
    ensures timeline { IsClosed (two_facts Timeline) [] (scene_state [] (early ∷ late ∷ [])) → ⊥ }
{}

/// What surely is used isn't more than the capacity.
pub fn reusables_have_a_capacity()
    ensures enough { IsClosed (tool 2) [] (scene_state [] (using ∷ [])) }
    ensures too_little { IsClosed (tool 1) [] (scene_state [] (using ∷ [])) → ⊥ }
{}

/// What may be on another object neither uses this one nor overlaps what is on it.
pub fn objects_count_once_decided()
    ensures sure_use { IsClosed (tool 1) [] (scene_state [] (using ∷ [])) → ⊥ }
    ensures open_use { IsClosed (tool 1) [] (scene_state [] (either using ∷ [])) }
    ensures sure_overlap { IsClosed (two_facts Timeline) [] (scene_state [] (early ∷ late ∷ [])) → ⊥ }
    ensures open_overlap { IsClosed (two_facts Timeline) [] (scene_state [] (either early ∷ late ∷ [])) }
{}

/// The level of a reservoir counts once no further token can come: 6 of 5 are taken, which is too much as soon as
/// it is decided what becomes of the second token.
pub fn reservoirs_count_once_all_is_decided()
    ensures undecided { IsClosed battery [] drained }
    ensures decided { IsClosed battery rejected drained → ⊥ }
{}
