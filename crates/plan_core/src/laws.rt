//! Laws of plan texts.

ghost use Rattle.plan_core.specs.Laws.{IsReadOnce, IsPlanReadBack, PlanHasOneText};

use eu_name::laws::names_are_read_back;
use model_core::resolve::texts_name_one;

/// A law: a text is read in one way, as one plan or with one fault.
pub fn texts_are_read_once()
    ensures { IsReadOnce }
{
    names_are_read_back();
    texts_name_one();
}

/// A law: what is read of the text that is written of a plan is the plan, and a plan has one text. So a written text is read
/// and written again as it is.
pub fn plans_are_read_back()
    ensures read { IsPlanReadBack }
    ensures written { PlanHasOneText }
{
    names_are_read_back();
    texts_name_one();
}
