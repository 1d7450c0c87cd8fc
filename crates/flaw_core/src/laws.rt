//! Laws of the search by a rule.

ghost use Rattle.flaw_core.specs.StepLaws.{PlainSearchesAreSearches};

/// By the rule of the stated order, the search is the stated one.
pub fn plain_searches_are_searches()
    ensures { PlainSearchesAreSearches }
{}
