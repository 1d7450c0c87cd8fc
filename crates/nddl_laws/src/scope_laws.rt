//! Laws of the names in rules: those who look for faults and those who make the trees see the same.

ghost use Rattle.nddl_laws.specs.Lookups.{ReadFineBodies, ReadFineRules, ReadRulesAlike};
ghost use Rattle.nddl_laws.specs.Scoping.{ReadNamesAlike};

/// A law: where the same is seen, a name is read as the thing that it denotes: names hide one another in the same order, as
/// variables of `foreach`, locals, labels, parts of the token and names of the files.
pub fn names_are_read_as_they_denote()
    ensures { ReadNamesAlike }
{}

/// A law: the tree of a rule has just the names that are looked up in it, and where one is looked up the same is seen.
pub fn rules_are_read_as_they_are_checked()
    ensures { ReadRulesAlike }
{}

/// A law: in a rule with which nothing is wrong each name that is looked up is read, as the thing that it denotes.
pub fn names_of_fine_rules_are_read()
    ensures { ReadFineRules }
{}

/// A law: so is each in the constraints of a predicate's body.
pub fn names_of_fine_bodies_are_read()
    ensures { ReadFineBodies }
{}
