//! The problems of the examples are lawful.

ghost use Rattle.std.specs.Prelude.{[]};
ghost use Rattle.model_core.specs.Lawful.{IsLawful};
ghost use Rattle.model_core.specs.declared.class.ObjectKind.TheVariants.{Plain, Timeline};
ghost use Rattle.model_core.specs.declared.model.RootKind.TheVariants.{Goal, Rejectable, Fact};
ghost use Rattle.law_examples.specs.Cases.{lone_goal, ruled, localised, two_facts, tool, battery, goal_and_fact};
ghost use Rattle.law_examples.specs.Cases.{limited};
ghost use Rattle.law_examples.specs.Globals.{problem_of, free_x, low_x};
ghost use Rattle.law_examples.specs.Plans.{localised_rejectable};
ghost use Rattle.law_examples.specs.Posted.{typed};
ghost use Rattle.law_examples.specs.Refused.{alone, two_goals, mixed, many_roots};
ghost use Rattle.law_examples.specs.Searched.{halved};
ghost use Rattle.law_examples.specs.Worlds.{no_choice, one_choice, fielded, free_two, low_two};

/// Those without tokens.
pub fn problems_of_variables_are_lawful()
    ensures empty { IsLawful (problem_of [] []) }
    ensures free { IsLawful free_x }
    ensures low { IsLawful low_x }
    ensures free_two { IsLawful free_two }
    ensures low_two { IsLawful low_two }
    ensures typed { IsLawful typed }
    ensures void { IsLawful no_choice }
    ensures given { IsLawful one_choice }
    ensures field { IsLawful fielded }
    ensures odd { IsLawful (halved 3) }
    ensures even { IsLawful (halved 6) }
{}

/// Those with tokens.
pub fn problems_of_tokens_are_lawful()
    ensures lone_goal { IsLawful lone_goal }
    ensures ruled { IsLawful ruled }
    ensures localised { IsLawful localised }
    ensures localised_rejectable { IsLawful localised_rejectable }
    ensures plain_facts { IsLawful (two_facts Plain) }
    ensures timeline_facts { IsLawful (two_facts Timeline) }
    ensures small_tool { IsLawful (tool 1) }
    ensures tool { IsLawful (tool 2) }
    ensures battery { IsLawful battery }
    ensures goal_and_fact { IsLawful goal_and_fact }
    ensures limited { IsLawful (limited Rejectable) }
    ensures limited_fact { IsLawful (limited Fact) }
    ensures fact { IsLawful (alone Fact) }
    ensures rejectable { IsLawful (alone Rejectable) }
    ensures two_goals { IsLawful two_goals }
    ensures mixed { IsLawful mixed }
    ensures many { IsLawful (many_roots 512) }
{}
