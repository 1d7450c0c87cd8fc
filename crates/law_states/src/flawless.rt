//! Laws of the plan of a state without a flaw.

ghost use Rattle.law_states.specs.Soundness.{StatesHaveOnePlan, FlawlessPlansAgree, FlawlessStatesAreComplete, FlawlessStatesAreOwn, FlawlessPlansAreValid};

/// A state has one plan at most.
pub fn a_state_has_one_plan()
    ensures { StatesHaveOnePlan }
{}

/// The plan of a well-founded state without a flaw agrees with the decisions.
pub fn flawless_plans_agree()
    ensures { FlawlessPlansAgree }
{}

/// No further token can come in such a state.
pub fn flawless_states_are_complete()
    ensures { FlawlessStatesAreComplete }
{}

/// Such a state is the own state of its plan.
pub fn flawless_states_are_own()
    ensures { FlawlessStatesAreOwn }
{}

/// Where resources fit in such a state, its plan is valid.
pub fn flawless_plans_are_valid()
    ensures { FlawlessPlansAreValid }
{}
