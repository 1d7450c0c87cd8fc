//! A search, visit for visit.

ghost use Rattle.std.specs.Prelude.{[], ◌∷◌, ◌≡◌};
ghost use Rattle.law_search.specs.Search.{SearchOutcome, Finds, Fails, Stops};
ghost use Rattle.law_examples.specs.Searched.{ended, ComesOut};
ghost use Rattle.law_examples.specs.Worlds.{x_is};

/// Twice x is 3 for no x. A search visits the empty list and then each of the values 0 to 3, so it has five visits, each of
/// which takes a unit.
pub fn five_visits_exhaust_a_problem()
    // With five units it is exhausted.
    ensures exhausted { ComesOut 3 5 (ended Fails 0) }
    // It ends in no other way.
    ensures only_outcome { (outcome : SearchOutcome) → ComesOut 3 5 outcome → outcome ≡ ended Fails 0 }
    // With four it stops before the last value.
    ensures stopped { ComesOut 3 4 (ended Stops 0) }
    ensures unknown { ComesOut 3 4 (ended Fails 0) → ⊥ }
    // Of six one is left.
    ensures left_over { ComesOut 3 6 (ended Fails 1) }
    ensures not_taken { ComesOut 3 6 (ended Fails 0) → ⊥ }
{}

/// Twice x is 6 for 3. A search visits the empty list and the values 0 to 3, the last of which it finds, and no further one.
pub fn five_visits_find_a_value()
    ensures found { ComesOut 6 5 (ended (Finds (x_is 3 ∷ [])) 0) }
    ensures only_outcome { (outcome : SearchOutcome) → ComesOut 6 5 outcome → outcome ≡ ended (Finds (x_is 3 ∷ [])) 0 }
    ensures stopped { ComesOut 6 4 (ended Stops 0) }
    ensures not_exhausted { ComesOut 6 5 (ended Fails 0) → ⊥ }
{}
