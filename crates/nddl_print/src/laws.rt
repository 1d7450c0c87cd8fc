//! That printing and reading undo each other.

ghost use Rattle.nddl_print.specs.Laws.{PrintsAreLasting, PrintsAreReadAsNoOther, PrintsAreReadBack, SameTreesAreSpelledAlike};

/// The spelling of a tree that some text without a fault has is read again: its lexemes are the words of the tree, and
/// their tree is the same up to places.
pub fn prints_are_read_back()
    ensures { PrintsAreReadBack }
{}

/// Nothing else is read from it: no fault, and no tree that isn't the same.
pub fn prints_are_read_as_no_other()
    ensures { PrintsAreReadAsNoOther }
{}

/// Trees that are the same up to places have one spelling.
pub fn same_trees_are_spelled_alike()
    ensures { SameTreesAreSpelledAlike }
{}

/// What is printed, read and printed again is the same text.
pub fn prints_are_lasting()
    ensures { PrintsAreLasting }
{}
