//! Laws of the progress.

ghost use Rattle.db_refine.specs.ProgressLaws.{RootsAreSupported, RulesAreSupported, BranchesAreSupported, SlotsAreSupported};
ghost use Rattle.db_refine.specs.ProgressLaws.{GlobalsAreJustified, LongerListsJustify, TokensComeJustified, BlocksComeJustified};
ghost use Rattle.db_refine.specs.ProgressLaws.{PostingIsJustified, SpecifyingIsJustified, SpecifyingGrants, PropagationIsJustified};
ghost use Rattle.db_refine.specs.ProgressLaws.{NothingIsMissedAtFirst, TokensComeComplete, BlocksComeComplete, PostingMissesNothing};
ghost use Rattle.db_refine.specs.ProgressLaws.{FallingMissesNothing, UnfoldingMissesNothing, LookingMissesNothing};
ghost use Rattle.db_refine.specs.ProgressLaws.{StaleNumbersMissNothing, DecidingMissesNothing, WhatIsNamedIsThere};
ghost use Rattle.db_refine.specs.ProgressLaws.{WhatMissesNothingIsWhole, WholeIsTop};

/// Roots are supported, and so is what an activated token and an open block ask for, if they are.
pub fn what_is_asked_for_is_supported()
    ensures roots { RootsAreSupported }
    ensures rules { RulesAreSupported }
    ensures branches { BranchesAreSupported }
    ensures slots { SlotsAreSupported }
{}

/// The globals by themselves are justified before any decision, and what is justified stays so for a longer list.
pub fn lists_justify()
    ensures globals { GlobalsAreJustified }
    ensures longer { LongerListsJustify }
{}

/// A content stays justified where a token or a block comes that is supported in it.
pub fn what_is_supported_may_come()
    ensures tokens { TokensComeJustified }
    ensures blocks { BlocksComeJustified }
{}

/// It stays so where what is claimed is posted, what is specified is granted, and the network is propagated.
pub fn what_is_claimed_may_be_asked()
    ensures posting { PostingIsJustified }
    ensures specifying { SpecifyingIsJustified }
    ensures granting { SpecifyingGrants }
    ensures propagation { PropagationIsJustified }
{}

/// What misses nothing at first, and still does where tokens and blocks come, constraints are posted and domains fall.
pub fn steps_miss_nothing()
    ensures first { NothingIsMissedAtFirst }
    ensures tokens { TokensComeComplete }
    ensures blocks { BlocksComeComplete }
    ensures posting { PostingMissesNothing }
    ensures falling { FallingMissesNothing }
{}

/// A block is unfolded, a variable is looked at, and a decision is taken up, where what they ask for is there.
pub fn what_is_followed_misses_nothing()
    ensures unfolding { UnfoldingMissesNothing }
    ensures looking { LookingMissesNothing }
    ensures stale { StaleNumbersMissNothing }
    ensures deciding { DecidingMissesNothing }
{}

/// What stands in an unfolded block names only what is there.
pub fn what_is_named_is_there()
    ensures { WhatIsNamedIsThere }
{}

/// Where nothing is due any more the content is whole, and so a propagated state that is above all others.
pub fn what_misses_nothing_is_whole()
    ensures whole { WhatMissesNothingIsWhole }
    ensures top { WholeIsTop }
{}
