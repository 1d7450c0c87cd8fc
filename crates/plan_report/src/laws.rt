//! Laws of what is printed.

ghost use Rattle.plan_report.specs.Laws.{BrokenPlacesHaveNames, TextsAreCheckedOnce};

use plan_core::laws::texts_are_read_once;

/// A law: where a plan of a model breaks a clause, what is named there is there.
pub fn broken_places_have_names()
    ensures { BrokenPlacesHaveNames }
{}

/// A law: of a text one line is printed, and it is that of a valid plan or isn't.
pub fn texts_are_checked_once()
    ensures { TextsAreCheckedOnce }
{
    texts_are_read_once();
}
