//! That the language reads each text in one way.

ghost use Rattle.nddl_parser.specs.Laws.{TextsHaveOneReading};
ghost use Rattle.nddl_parser.specs.Language.{ReadsAs};

/// A text is read as one list of declarations, or has one first fault, and never both or two.
pub fn each_text_is_read_in_one_way()
    ensures { TextsHaveOneReading ReadsAs }
{}
