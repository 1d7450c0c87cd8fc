//! Laws of plans and of the states that they are by themselves.

ghost use Rattle.law_states.specs.OwnStates.{PlansHaveOutlines, ValidPlansHaveStates, ValidPlansHaveClosedStates};

/// The tokens of a plan and the blocks that are open by its values can be listed in order: whether
/// a block is open can be told from the values of the plan alone.
pub fn plans_have_outlines()
    ensures { PlansHaveOutlines }
{}

/// Each valid plan of a lawful model has a state of its own, and where it agrees with decisions, this
/// state is closed for them.
pub fn valid_plans_have_states()
    ensures states { ValidPlansHaveStates }
    ensures closed { ValidPlansHaveClosedStates }
{}
