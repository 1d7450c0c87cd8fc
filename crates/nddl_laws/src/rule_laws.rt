//! Laws of what is answered.

ghost use Rattle.nddl_laws.specs.Ordered.{AreTreesInOrder};
ghost use Rattle.nddl_laws.specs.RuleOutcomes.{HaveOneAnswer};

/// A law: of no files with a table there are two lists of rule trees, or two first faults of rules, or both.
pub fn rules_have_one_answer()
    ensures { HaveOneAnswer }
{}

/// A law: the names in the rule trees of files that a shelf gives stand in order of place, as those who look them up ask for.
pub fn names_are_read_in_order()
    ensures { AreTreesInOrder }
{}
