//! Variables of a problem. Each state that isn't closed is closed where one thing is left out or other: the
//! variable, its base, the decision, the constraint, or the object that has the field.

ghost use Rattle.std.specs.Prelude.{[], ◌∷◌, pos};
ghost use Rattle.eu_name.specs.declared.name.VarName.TheVariants.{Global};
ghost use Rattle.model_core.specs.declared.decision.Decision.TheVariants.{Specify};
ghost use Rattle.plan_defs.specs.Closure.{IsClosed, IsCollapsed, IsLeast};
ghost use Rattle.law_examples.specs.Globals.{problem_of, free_x, low_x, empty_state, with_x, with_two, up_to};
ghost use Rattle.law_examples.specs.Posted.{the_x, the_y, leq};
ghost use Rattle.law_examples.specs.Scenes.{the_object, both_objects};
ghost use Rattle.law_examples.specs.Worlds.{no_choice, one_choice, fielded, free_two, between, x_is};

/// A state has each variable of the problem.
pub fn a_state_has_all_variables()
    ensures without { IsClosed (problem_of [] []) [] empty_state }
    ensures with { IsClosed free_x [] empty_state → ⊥ }
{}

/// No variable leaves the domain that it is declared with.
pub fn variables_stay_in_their_bases()
    ensures inside { IsClosed free_x [] (with_x (up_to 2)) }
    ensures outside { IsClosed free_x [] (with_x (up_to 3)) → ⊥ }
{}

/// A specified variable has its value alone.
pub fn decisions_are_granted()
    ensures granted { IsClosed free_x (Specify (Global 0) (pos 0) ∷ []) (with_x (up_to 0)) }
    ensures denied { IsClosed free_x (Specify (Global 0) (pos 0) ∷ []) (with_x (up_to 2)) → ⊥ }
{}

/// What is claimed is consistent.
pub fn claims_are_consistent()
    ensures consistent { IsClosed low_x [] (with_x (up_to 1)) }
    ensures inconsistent { IsClosed low_x [] (with_x (up_to 2)) → ⊥ }
{}

/// So is what a decision posts: where x is 1, and is to be at most y, y can't be 0.
pub fn posted_constraints_narrow()
    ensures narrowed { IsLeast free_two (x_is 1 ∷ leq the_x the_y ∷ []) (with_two (between 1 1) (between 1 2)) }
    ensures wide { IsClosed free_two (x_is 1 ∷ leq the_x the_y ∷ []) (with_two (between 1 1) (up_to 2)) → ⊥ }
    ensures unposted { IsClosed free_two (x_is 1 ∷ []) (with_two (between 1 1) (up_to 2)) }
{}

/// Where a variable may be nothing from the start no state is closed.
pub fn void_bases_collapse()
    ensures void { IsCollapsed no_choice [] }
    ensures given { IsClosed one_choice [] (with_x the_object) }
{}

/// A field has the values that the objects have in it which may still be chosen: 1 of the first, and 2 of the second.
pub fn fields_follow_their_objects()
    ensures both { IsClosed fielded [] (with_two both_objects (between 1 2)) }
    ensures beyond { IsClosed fielded [] (with_two both_objects (between 1 3)) → ⊥ }
    ensures unreached { IsClosed fielded [] (with_two both_objects (between 1 1)) → ⊥ }
    ensures first { IsClosed fielded [] (with_two the_object (between 1 1)) }
    ensures other { IsClosed fielded [] (with_two the_object (between 2 2)) → ⊥ }
{}
