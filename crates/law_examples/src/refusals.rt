//! For each reason of a refusal a decision that has it first, and a like one that has none.

ghost use Rattle.std.specs.Prelude.{[], ◌∷◌, pos};
ghost use Rattle.eu_name.specs.declared.name.VarName.TheVariants.{Global};
ghost use Rattle.model_core.specs.declared.class.ObjectKind.TheVariants.{Plain};
ghost use Rattle.model_core.specs.declared.decision.ConArg.TheVariants.{Value};
ghost use Rattle.model_core.specs.declared.decision.Decision.TheVariants.{Specify, Activate};
ghost use Rattle.model_core.specs.declared.item.Rel.TheVariants.{Before, Meets};
ghost use Rattle.model_core.specs.declared.model.RootKind.TheVariants.{Goal, Rejectable, Fact};
ghost use Rattle.model_core.specs.Tokens.{root_token};
ghost use Rattle.plan_defs.specs.Refusals.{IsRefused, IsAdmissible, IsFirstRefusal};
ghost use Rattle.model_core.specs.declared.refusal.Refusal.TheVariants.{Unknown, WrongType, Decided, NotInDomain, NotActive, NotSamePredicate, NotRejectable, SameToken, ActiveFull};
ghost use Rattle.law_examples.specs.Cases.{two_facts, goal_and_fact, battery, limited, activated, activate_it, quantity_is};
ghost use Rattle.law_examples.specs.Globals.{with_two, up_to};
ghost use Rattle.law_examples.specs.Posted.{the_x, the_y, the_third, the_quantity, leq, eq, leq_alone, relate_them, relate_it, typed, the_b, typed_state};
ghost use Rattle.law_examples.specs.Refused.{IsUnhindered, one_token, two_tokens, many_tokens, alone, two_goals, mixed, many_roots, merge_them, order_them, order_it, reject_it};
ghost use Rattle.law_examples.specs.Worlds.{free_two, x_is, y_is};

/// A third variable is unknown, whatever it is to be, and so it is as an argument, even where there are too few.
pub fn what_is_not_there_is_unknown()
    ensures unknown { IsRefused free_two [] (Specify (Global 2) (pos 3)) Unknown }
    ensures known { IsAdmissible free_two [] (x_is 2) }
    ensures argument { IsRefused free_two [] (leq the_x the_third) Unknown }
    ensures lone_argument { IsRefused free_two [] (leq_alone the_third) Unknown }
    ensures known_arguments { IsAdmissible free_two [] (leq the_x the_y) }
{}

/// A constraint has as many arguments as it takes. One of those that are compared is a variable, and all are of one kind, which
/// is one of numbers where they are ordered.
pub fn constraints_take_their_arguments()
    ensures too_few { IsRefused free_two [] (leq_alone the_x) WrongType }
    ensures no_variable { IsRefused free_two [] (eq (Value (pos 1)) (Value (pos 2))) WrongType }
    ensures with_variable { IsAdmissible free_two [] (eq the_x (Value (pos 2))) }
    ensures two_kinds { IsFirstRefusal typed [] typed_state (eq the_x the_b) WrongType }
    ensures ordered_truths { IsFirstRefusal typed [] typed_state (leq the_b (Value (pos 1))) WrongType }
    ensures equal_truths { IsUnhindered typed [] typed_state (eq the_b (Value (pos 1))) }
{}

/// What has a value is decided, even where the other value is none that it may have, and so is a fact.
pub fn what_has_a_value_is_decided()
    ensures decided { IsRefused free_two (x_is 0 ∷ []) (x_is 3) Decided }
    ensures other { IsAdmissible free_two (x_is 0 ∷ []) (y_is 1) }
    ensures fact { IsFirstRefusal (alone Fact) [] one_token activate_it Decided }
    ensures goal { IsUnhindered (alone Goal) [] one_token activate_it }
    ensures rejected_fact { IsFirstRefusal (alone Fact) [] one_token reject_it Decided }
{}

/// A constraint is posted once, and so is a relation. With its arguments turned a constraint is another one, and two tokens may
/// be in several relations.
pub fn postings_stand_once()
    ensures again { IsFirstRefusal free_two (leq the_x the_y ∷ []) (with_two (up_to 2) (up_to 2)) (leq the_x the_y) Decided }
    ensures turned { IsUnhindered free_two (leq the_x the_y ∷ []) (with_two (up_to 2) (up_to 2)) (leq the_y the_x) }
    ensures related_again { IsFirstRefusal two_goals (relate_them Before ∷ []) two_tokens (relate_them Before) Decided }
    ensures other_relation { IsUnhindered two_goals (relate_them Before ∷ []) two_tokens (relate_them Meets) }
{}

/// A value has to be one that the variable is declared with, whether it may have it in the state or not. In a constraint it is
/// any value of the kind.
pub fn values_are_of_the_base()
    ensures outside { IsRefused free_two [] (x_is 3) NotInDomain }
    ensures inside { IsAdmissible free_two [] (x_is 2) }
    ensures of_rejectable { IsFirstRefusal (limited Rejectable) [] one_token (quantity_is 1000001) NotInDomain }
    ensures no_value { IsRefused free_two [] (leq the_x (Value (pos 1000001))) NotInDomain }
    ensures greatest_value { IsAdmissible free_two [] (leq the_x (Value (pos 1000000))) }
{}

/// A rejectable has to be taken before its variables have values or are in a constraint, and before it is in a relation. The
/// target of a merge has to be active, and both tokens of an order, but those of a relation needn't.
pub fn tokens_are_active_first()
    ensures untaken { IsFirstRefusal (limited Rejectable) [] one_token (quantity_is 1) NotActive }
    ensures taken { IsUnhindered (limited Rejectable) activated one_token (quantity_is 1) }
    ensures constrained_untaken { IsFirstRefusal (limited Rejectable) [] one_token (leq the_quantity (Value (pos 1))) NotActive }
    ensures constrained_taken { IsUnhindered (limited Rejectable) activated one_token (leq the_quantity (Value (pos 1))) }
    ensures related_untaken { IsFirstRefusal battery [] two_tokens (relate_them Before) NotActive }
    ensures related_goals { IsUnhindered two_goals [] two_tokens (relate_them Before) }
    ensures target { IsFirstRefusal two_goals [] two_tokens merge_them NotActive }
    ensures active_target { IsUnhindered goal_and_fact [] two_tokens merge_them }
    ensures ordered_goal { IsFirstRefusal goal_and_fact [] two_tokens order_them NotActive }
    ensures ordered_before_itself { IsFirstRefusal (alone Goal) [] one_token order_it NotActive }
    ensures ordered_facts { IsUnhindered (two_facts Plain) [] two_tokens order_them }
{}

/// A token is merged into one of its predicate.
pub fn merges_are_of_one_predicate()
    ensures mixed { IsFirstRefusal mixed [] two_tokens merge_them NotSamePredicate }
    ensures same { IsUnhindered goal_and_fact [] two_tokens merge_them }
{}

/// Only rejectables are rejected.
pub fn goals_are_not_rejected()
    ensures goal { IsFirstRefusal (alone Goal) [] one_token reject_it NotRejectable }
    ensures rejectable { IsUnhindered (alone Rejectable) [] one_token reject_it }
{}

/// No token is ordered before itself, or related to itself.
pub fn orders_are_of_two_tokens()
    ensures same { IsFirstRefusal (two_facts Plain) [] two_tokens order_it SameToken }
    ensures other { IsUnhindered (two_facts Plain) [] two_tokens order_them }
    ensures related_to_itself { IsFirstRefusal two_goals [] two_tokens (relate_it Before) SameToken }
    ensures related { IsUnhindered two_goals [] two_tokens (relate_them Before) }
{}

/// Where 512 tokens are active no further one is activated.
pub fn active_tokens_are_few()
    ensures full { IsFirstRefusal (many_roots 512) [] (many_tokens 512) (Activate (root_token 512)) ActiveFull }
    ensures first { IsUnhindered (alone Goal) [] one_token activate_it }
{}
