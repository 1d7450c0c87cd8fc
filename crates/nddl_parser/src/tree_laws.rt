//! That no text is two trees, and that the promise of `parse` allows one answer.

ghost use Rattle.nddl_parser.specs.Derives.{HasOneParse, HasOneTree};

/// No lexemes derive two trees.
pub fn lexemes_have_one_tree()
    ensures { HasOneTree }
{}

/// A text has one tree, or one fault at one place, and never two or both.
pub fn each_text_has_one_outcome()
    ensures { HasOneParse }
{}
