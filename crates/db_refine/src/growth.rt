//! Laws of the growth.

ghost use Rattle.db_refine.specs.GrowthLaws.{ContentsAreStates, NothingIsAboveAll, GrowingStaysAbove, LongerListsStayBelow};
ghost use Rattle.db_refine.specs.GrowthLaws.{LongerListsOweAsMuch, VoidLeavesNothing, PropagationStaysAbove, WhatIsAskedIsOwed};
ghost use Rattle.db_refine.specs.GrowthLaws.{GrownHasAll, WholeIsPropagated, ReusablesFitAbove, ReservoirsFitAbove, ResourcesDecide};

/// What is in a content can be put in order, and then is a state.
pub fn contents_are_states()
    ensures { ContentsAreStates }
{}

/// What comes to a content as it asks for it leaves the content above every propagated state. One that is empty is
/// above all.
pub fn growing_stays_above()
    ensures begins { NothingIsAboveAll }
    ensures grows { GrowingStaysAbove }
{}

/// A longer list of decisions has no more propagated states than each front of it, and what is owed for the front stays
/// owed.
pub fn longer_lists_leave_less()
    ensures below { LongerListsStayBelow }
    ensures owed { LongerListsOweAsMuch }
{}

/// No propagated state is about a variable that has a void base.
pub fn void_leaves_nothing()
    ensures { VoidLeavesNothing }
{}

/// Propagating a network of claims that are owed loses no propagated state, and where it leaves nothing there is none.
pub fn propagation_stays_above()
    ensures { PropagationStaysAbove }
{}

/// What a content that is above every propagated state asks for is there, or consistent, in each of them.
pub fn what_is_asked_is_owed()
    ensures { WhatIsAskedIsOwed }
{}

/// What is supported in a content that has grown is in it.
pub fn grown_has_all()
    ensures { GrownHasAll }
{}

/// A whole content is a propagated state.
pub fn whole_is_propagated()
    ensures { WholeIsPropagated }
{}

/// Resources that fit in a lower state fit in the higher one.
pub fn resources_fit_above()
    ensures reusables { ReusablesFitAbove }
    ensures reservoirs { ReservoirsFitAbove }
{}

/// Of the propagated state that is above all others, the resources decide whether it is the least closed one or there
/// is none.
pub fn resources_decide()
    ensures { ResourcesDecide }
{}
