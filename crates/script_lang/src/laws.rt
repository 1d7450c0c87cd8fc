//! Laws of the lines of a script, for whoever reads lines by their contract.

ghost use Rattle.script_lang.specs.Laws.{WordsAskOnce, LinesAskOnce, LinesHaveOneAnswer, FrontDecides};

/// A law: a line has one answer, and only its first 4,097 bytes matter.
pub fn lines_have_one_answer()
    ensures words { WordsAskOnce }
    ensures commands { LinesAskOnce }
    ensures answers { LinesHaveOneAnswer }
    ensures front { FrontDecides }
{}
