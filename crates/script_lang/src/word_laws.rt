//! Laws of the words of a line.

ghost use Rattle.std.specs.Prelude.{◌≡◌, []};
ghost use Rattle.script_lang.specs.WordLaws.{RunsAreWords, SeparatorsSplit};
ghost use Rattle.script_lang.specs.Words.{words_of};

/// A law: the words of a line are its longest runs without a blank.
pub fn words_are_runs()
    ensures none { words_of [] ≡ [] }
    ensures run { RunsAreWords }
    ensures blank { SeparatorsSplit }
{}
