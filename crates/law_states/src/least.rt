//! Laws: what is in the least state of a settled list, and what lies below it.

ghost use Rattle.law_states.specs.LeastStates.{PropagatedStatesHaveUppers, LeastStatesAreAbove};
ghost use Rattle.law_states.specs.LeastStates.{LeastStatesAreWellFounded, PlansOfLeastStatesAreValid};

/// Two propagated states lie below a third: it has what both have, and each variable may be what it
/// may be in either.
pub fn propagated_states_have_uppers()
    ensures { PropagatedStatesHaveUppers }
{}

/// The least state of a settled list lies above every propagated state, has what the list names, and
/// nothing that isn't supported in it.
pub fn least_states_are_well_founded()
    ensures above { LeastStatesAreAbove }
    ensures founded { LeastStatesAreWellFounded }
{}

/// The plan of a least state without a flaw is valid and agrees with the list.
pub fn plans_of_least_states_are_valid()
    ensures { PlansOfLeastStatesAreValid }
{}
