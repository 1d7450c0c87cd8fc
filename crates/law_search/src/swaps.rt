//! Laws of plans in which two tokens change places.

ghost use Rattle.law_search.specs.SwapLaws.{SwappedTokensStandApart, SwapsAreThere, SwapsGoWell};
ghost use Rattle.law_search.specs.SwapLaws.{UndecidedTokensMayChangePlaces, NoLineIsUnder, NoDecisionNamesUnder, SwapsKeepValues};

/// What a plan says of two tokens that may change places.
pub fn swapped_tokens_stand_apart()
    ensures { SwappedTokensStandApart }
{}

/// There is a plan in which they have changed places.
pub fn swaps_are_there()
    ensures { SwapsAreThere }
{}

/// It is valid, has as many tokens, and agrees with the decisions and with the activation of the token that was merged.
pub fn swaps_go_well()
    ensures { SwapsGoWell }
{}

/// A token of which a settled list decides nothing, and an inactive one that it is in a plan, may change places.
pub fn undecided_tokens_may_change_places()
    ensures { UndecidedTokensMayChangePlaces }
{}

/// The plan has no line under the token that was merged, and the decisions name nothing under the other one.
pub fn nothing_stands_in_the_way()
    ensures lines { NoLineIsUnder }
    ensures decisions { NoDecisionNamesUnder }
{}

/// Both plans give each variable the same values, and no name has two lines.
pub fn swaps_keep_values()
    ensures { SwapsKeepValues }
{}
