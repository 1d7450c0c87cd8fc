//! Laws of the definitions.

ghost use Rattle.plan_defs.specs.Closure.{IsPropagatedState, IsClosed};
ghost use Rattle.plan_defs.specs.Laws.{LeastIsOne, LeastIsNotCollapsed, BelowIsReflexive, BelowIsTransitive, BelowIsAntisymmetric, WhatIsAskedStays, OrdersStay, StatesBelowHaveWhatIsAsked, ClaimsOfOrderBoundBoth, StepsAddUp, NarrowingIsAStep, FrontsStayPropagated, SharesAreSums, ChangesAreSums, SettlingIsIdempotent, FrontsHaveLeastStates, HistoriesAreSettled, FirstRefusalIsOne};
ghost use Rattle.plan_defs.specs.PlanLaws.{FirstBrokenIsOne, ValidPlansBreakNone, ValidPlansAreClosed};

/// Decisions leave one least state at most, and none where they collapse.
pub fn least_is_one()
    ensures one { LeastIsOne }
    ensures not_collapsed { LeastIsNotCollapsed }
{}

/// To lie below is an order on the states of a model.
pub fn below_is_an_order()
    ensures reflexive { BelowIsReflexive }
    ensures transitive { BelowIsTransitive }
    ensures antisymmetric { BelowIsAntisymmetric }
{}

/// What each step keeps of the propagated, or of the closed states below is kept by any list of steps.
pub fn steps_add_up()
    ensures propagated { StepsAddUp IsPropagatedState }
    ensures closed { StepsAddUp IsClosed }
{}

/// To give a variable a smaller domain is a step where all propagated, or all closed states below have their domain in
/// it.
pub fn narrowing_is_a_step()
    ensures propagated { NarrowingIsAStep IsPropagatedState }
    ensures closed { NarrowingIsAStep IsClosed }
{}

/// What a propagated, or a closed state below has where one variable is claimed to be at most another.
pub fn claims_of_order_bound_both()
    ensures propagated { ClaimsOfOrderBoundBoth IsPropagatedState }
    ensures closed { ClaimsOfOrderBoundBoth IsClosed }
{}

/// What a state asks for is asked for in all states below it: the same tokens, open blocks and claims, and the same orders on timelines.
pub fn what_is_asked_stays()
    ensures asked { WhatIsAskedStays }
    ensures orders { OrdersStay }
{}

/// Each propagated, or closed state below a state has what that state asks for.
pub fn states_below_have_what_is_asked()
    ensures propagated { StatesBelowHaveWhatIsAsked IsPropagatedState }
    ensures closed { StatesBelowHaveWhatIsAsked IsClosed }
{}

/// A state that is propagated for a list of decisions is so for each front of the list.
pub fn fronts_stay_propagated()
    ensures { FrontsStayPropagated }
{}

/// What is left of a list is left of itself, each front of it has a least state, and the lists of histories are settled.
pub fn settled_lists_stay()
    ensures idempotent { SettlingIsIdempotent }
    ensures fronts { FrontsHaveLeastStates }
    ensures histories { HistoriesAreSettled }
{}

/// There is one first reason against a decision at most.
pub fn first_refusal_is_one()
    ensures { FirstRefusalIsOne }
{}

/// The capacity of a reusable suffices for shares exactly where it suffices for the sum of what is surely used.
pub fn shares_are_sums()
    ensures { SharesAreSums }
{}

/// The level of a reservoir can stay within its limits exactly where it does by the sums of the greatest and of the least
/// changes that the tokens can make to it.
pub fn changes_are_sums()
    ensures { ChangesAreSums }
{}

/// A plan breaks one clause first at most, and at one place.
pub fn a_plan_breaks_one_clause_first()
    ensures { FirstBrokenIsOne }
{}

/// A valid plan breaks no clause.
pub fn valid_plans_break_none()
    ensures { ValidPlansBreakNone }
{}

/// Where a valid plan agrees with decisions, its own state is closed for them, and has all its values.
pub fn valid_plans_are_closed()
    ensures { ValidPlansAreClosed }
{}
