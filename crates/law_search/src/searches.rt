//! Laws of flaws, choices and the search.

ghost use Rattle.law_search.specs.SearchLaws.{ChoicesAreAdmissible, ChoicesCover, FoundListsAreFlawless, ExhaustedIsAProof, SearchHasOneOutcome};

/// Each choice of a first flaw is admissible, and between them they leave no valid plan out.
pub fn choices_cover()
    ensures admissible { ChoicesAreAdmissible }
    ensures cover { ChoicesCover }
{}

/// A list that the search finds has a least state without a flaw, and where it fails there is no valid plan.
pub fn exhausted_is_a_proof()
    ensures found { FoundListsAreFlawless }
    ensures exhausted { ExhaustedIsAProof }
{}

/// The search from a settled list has one outcome.
pub fn searches_have_one_outcome()
    ensures { SearchHasOneOutcome }
{}
