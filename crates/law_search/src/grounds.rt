//! Laws of what least states and settled lists have.

ghost use Rattle.law_search.specs.Grounds.{LeastTokensStandUnderActive, LeastVariablesAreOfActive, SettledListsAreGrounded};

/// The tokens and the variables of the least state of a settled list stand under tokens that the list activates.
pub fn least_states_stand_under_active()
    ensures tokens { LeastTokensStandUnderActive }
    ensures variables { LeastVariablesAreOfActive }
{}

/// What a settled list names is there by the list.
pub fn settled_lists_are_grounded()
    ensures { SettledListsAreGrounded }
{}
