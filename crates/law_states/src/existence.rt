//! Laws: what can't be missing of lists of decisions. The logic decides nothing that no code decides, so each says that the
//! contrary isn't so.

ghost use Rattle.law_states.specs.Undeniable.{ListsCollapseOrHaveLeast, DecisionsAreAdmissibleOrRefused, ListsSettle, ListsHaveConflicts, FlawlessStatesHavePlans};

/// A settled list leaves nothing, or it has a least state.
pub fn lists_collapse_or_have_a_least_state()
    ensures { ListsCollapseOrHaveLeast }
{}

/// After a list that has a least state a decision is admissible, or it is refused for a first reason.
pub fn decisions_are_admissible_or_refused()
    ensures { DecisionsAreAdmissibleOrRefused }
{}

/// Something is left of each list when it is settled, and each list has a conflict.
pub fn lists_settle()
    ensures settle { ListsSettle }
    ensures conflicts { ListsHaveConflicts }
{}

/// A state without a flaw has a plan.
pub fn flawless_states_have_plans()
    ensures { FlawlessStatesHavePlans }
{}
