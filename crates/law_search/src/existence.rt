//! Laws: what can't be missing of a search. The logic decides nothing that no code decides, so each says that the contrary isn't so.

ghost use Rattle.law_search.specs.Outcomes.{StatesHaveAFirstFlawOrNone, FlawsHaveChoices, SearchesHaveOutcomes};

/// A state has no flaw, or one that comes first, and each flaw has its choices.
pub fn flaws_have_choices()
    ensures first { StatesHaveAFirstFlawOrNone }
    ensures choices { FlawsHaveChoices }
{}

/// The search from a settled list has an outcome.
pub fn searches_have_outcomes()
    ensures { SearchesHaveOutcomes }
{}
