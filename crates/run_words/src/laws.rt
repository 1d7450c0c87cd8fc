//! Laws of command lines.

ghost use Rattle.run_words.specs.Laws.{WordsAskOnce};

/// The words ask for one request at most.
pub fn words_ask_once()
    ensures { WordsAskOnce }
{}
