//! Laws: what can't be missing of plans and their texts. The logic decides nothing that no code decides, so each says that the
//! contrary isn't so.

ghost use Rattle.plan_verdicts.specs.Verdicts.{PlansHaveVerdicts, TextsAreReadOrFaulty, TextsAreChecked};

/// A plan is valid, or there are a clause that it breaks first and a place with the least names for that.
pub fn plans_have_verdicts()
    ensures { PlansHaveVerdicts }
{}

/// A text is that of a plan of the model, or it has a first fault.
pub fn texts_are_read_or_faulty()
    ensures { TextsAreReadOrFaulty }
{}

/// Of a text that isn't too long a line is printed.
pub fn texts_are_checked()
    ensures { TextsAreChecked }
{}
