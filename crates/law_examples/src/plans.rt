//! For each clause of a valid plan a small plan that is valid, and a like one that breaks this clause and no other.

ghost use Rattle.std.specs.Prelude.{[], ◌∷◌, pos, true};
ghost use Rattle.model_core.specs.declared.class.ObjectKind.TheVariants.{Plain, Timeline};
ghost use Rattle.model_core.specs.declared.model.RootKind.TheVariants.{Rejectable};
ghost use Rattle.plan_defs.specs.declared.plan.Clause.TheVariants.{V1, V2, V3, V4, V5, V6, V7, V8, V9, V10};
ghost use Rattle.plan_defs.specs.declared.plan.Place.TheVariants.{Global, Root, Line, Local, Problem, Pair, Instant};
ghost use Rattle.law_examples.specs.Cases.{lone_goal, localised, two_facts, tool, battery, limited};
ghost use Rattle.law_examples.specs.Globals.{free_x, low_x};
ghost use Rattle.law_examples.specs.Plans.{IsValidPlan, BreaksOnly, values_alone, lines_alone, values_of, short_values, takes_place};
ghost use Rattle.law_examples.specs.Plans.{goal_with, merged_into_itself, facts_with, use_of, taking_out};
ghost use Rattle.law_examples.specs.Plans.{goal_and_local, localised_rejectable, rejected_alone, rejected_and_local};
ghost use Rattle.law_examples.specs.Refused.{two_goals};
ghost use Rattle.law_examples.specs.Swaps.{old};

/// Each clause of a valid plan can be broken alone: of two plans that differ in one thing the one is valid, and the other
/// breaks just this clause.
pub fn each_clause_is_broken_alone()
    // A global has a value of its base, 0 to 2.
    ensures inside { IsValidPlan free_x (values_alone (pos 2 ∷ [])) }
    ensures outside { BreaksOnly free_x (values_alone (pos 3 ∷ [])) V1 (Global 0) }
    ensures without_value { BreaksOnly free_x (values_alone []) V1 (Global 0) }
    // A goal takes place, and not as a fact. It is neither left out nor rejected.
    ensures as_goal { IsValidPlan lone_goal (goal_with short_values) }
    ensures as_fact { BreaksOnly lone_goal (lines_alone (takes_place true short_values ∷ [])) V2 (Root 0) }
    ensures left_out { BreaksOnly lone_goal (lines_alone []) V2 (Root 0) }
    ensures rejected { BreaksOnly lone_goal rejected_alone V2 (Root 0) }
    // A token from 0 that lasts for 1 ends at 1, and within the horizon, which ends at 10.
    ensures too_long { BreaksOnly lone_goal (goal_with (values_of 0 2 1 1)) V3 (Line 0) }
    ensures too_late { BreaksOnly lone_goal (goal_with (values_of 10 11 1 1)) V3 (Line 0) }
    // A token is merged into another one.
    ensures into_other { IsValidPlan two_goals old }
    ensures into_itself { BreaksOnly two_goals merged_into_itself V4 (Line 0) }
    // The rule of a token asks for its local, 0 to 2.
    ensures with_local { IsValidPlan localised (goal_and_local 0) }
    ensures without_local { BreaksOnly localised (goal_with short_values) V5 (Local 0 0 0) }
    ensures local_outside { BreaksOnly localised (goal_and_local 3) V5 (Local 0 0 0) }
    // The rule of a rejected token asks for nothing.
    ensures nothing_asked { IsValidPlan localised_rejectable rejected_alone }
    ensures unasked_local { BreaksOnly localised_rejectable rejected_and_local V6 (Line 1) }
    // The problem says that x is at most 1.
    ensures low { IsValidPlan low_x (values_alone (pos 1 ∷ [])) }
    ensures high { BreaksOnly low_x (values_alone (pos 2 ∷ [])) V7 (Problem 0) }
    // It says of a rejectable that its quantity is at most 1, which counts where the rejectable takes place.
    ensures few { IsValidPlan (limited Rejectable) (goal_with short_values) }
    ensures many { BreaksOnly (limited Rejectable) (goal_with (values_of 0 1 1 2)) V7 (Problem 0) }
    ensures not_counted { IsValidPlan (limited Rejectable) rejected_alone }
    // On a timeline what lasts from 0 to 5 is followed from 5 on, and not from 4 on; elsewhere it may be.
    ensures in_turn { IsValidPlan (two_facts Timeline) (facts_with 5) }
    ensures overlapping { BreaksOnly (two_facts Timeline) (facts_with 4) V8 (Pair 0 1) }
    ensures on_no_timeline { IsValidPlan (two_facts Plain) (facts_with 4) }
    // Of a tool of capacity 2 no more than 2 is used.
    ensures within { IsValidPlan (tool 2) (use_of 2) }
    ensures beyond { BreaksOnly (tool 2) (use_of 3) V9 (Instant 0 (pos 0)) }
    // From a battery that holds 5 no more than 5 is taken.
    ensures not_below { IsValidPlan battery (taking_out 5) }
    ensures below { BreaksOnly battery (taking_out 6) V10 (Instant 0 (pos 0)) }
{}
