//! Lists of decisions: what settling keeps, how a history goes on, and what a conflict is.

ghost use Rattle.std.specs.Prelude.{[], ◌∷◌};
ghost use Rattle.plan_defs.specs.History.{IsHistory, TakesOut};
ghost use Rattle.plan_defs.specs.Settling.{Settles, IsConflict};
ghost use Rattle.law_examples.specs.Cases.{limited, activate_it, quantity_is};
ghost use Rattle.law_examples.specs.Worlds.{free_two, low_two, x_is, y_is};
ghost use Rattle.model_core.specs.declared.model.RootKind.TheVariants.{Rejectable};

/// Settling drops a decision that isn't admissible after those kept, here a second value for x, and no other.
pub fn settling_drops_what_is_not_admissible()
    ensures dropped { Settles free_two (x_is 0 ∷ x_is 1 ∷ []) (x_is 0 ∷ []) }
    ensures not_kept { Settles free_two (x_is 0 ∷ x_is 1 ∷ []) (x_is 0 ∷ x_is 1 ∷ []) → ⊥ }
    ensures not_first { Settles free_two (x_is 0 ∷ x_is 1 ∷ []) (x_is 1 ∷ []) → ⊥ }
    ensures kept { Settles free_two (x_is 0 ∷ y_is 1 ∷ []) (x_is 0 ∷ y_is 1 ∷ []) }
    ensures not_dropped { Settles free_two (x_is 0 ∷ y_is 1 ∷ []) (x_is 0 ∷ []) → ⊥ }
{}

/// A history goes on by one decision, or by a reset, which takes one out.
pub fn histories_go_on_step_by_step()
    ensures reset { IsHistory free_two ((y_is 1 ∷ []) ∷ (x_is 0 ∷ y_is 1 ∷ []) ∷ (x_is 0 ∷ []) ∷ [] ∷ []) }
    ensures two_at_once { IsHistory free_two ((x_is 0 ∷ y_is 1 ∷ []) ∷ [] ∷ []) → ⊥ }
    ensures begun { IsHistory free_two ((x_is 0 ∷ []) ∷ []) → ⊥ }
{}

/// A reset settles the rest: where a rejectable isn't taken any more, the value of its parameter goes too.
pub fn resets_settle_the_rest()
    ensures dropped { TakesOut (limited Rejectable) (activate_it ∷ quantity_is 1 ∷ []) [] }
    ensures not_kept { Settles (limited Rejectable) (quantity_is 1 ∷ []) (quantity_is 1 ∷ []) → ⊥ }
{}

/// A conflict leaves out what has no part in it: y, where x is decided to be more than it may.
pub fn conflicts_leave_out_what_has_no_part()
    ensures part { IsConflict low_two (y_is 0 ∷ x_is 2 ∷ []) (x_is 2 ∷ []) }
    ensures whole { IsConflict low_two (y_is 0 ∷ x_is 2 ∷ []) (y_is 0 ∷ x_is 2 ∷ []) → ⊥ }
    ensures nothing { IsConflict low_two (y_is 0 ∷ x_is 2 ∷ []) [] → ⊥ }
{}
