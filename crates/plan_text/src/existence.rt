//! Laws: values and plans have texts.

ghost use Rattle.plan_text.specs.Existence.{ValuesHaveTexts, PlansHaveTexts};

/// Each value of a kind has a text, and so has each plan of a lawful model, however many lines it has.
pub fn plans_have_texts()
    ensures values { ValuesHaveTexts }
    ensures plans { PlansHaveTexts }
{}
