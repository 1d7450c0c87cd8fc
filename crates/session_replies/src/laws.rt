//! Laws of the lines of decisions.

ghost use Rattle.session_replies.specs.Reading.{DecisionLinesAreReadBack};

/// A law: the line of a decision of a lawful model, if it isn't too long, is a command that asks for this decision.
pub fn decision_lines_are_read_back()
    ensures { DecisionLinesAreReadBack }
{}
