//! Laws of what is read in the trees of rules.

ghost use Rattle.nddl_rule_laws.specs.Meanings.{LimitsAreTold, TreesAreCounted, TreesAreMeant};

/// A law: all that is read in the trees of faultless files means something.
pub fn trees_are_meant()
    ensures { TreesAreMeant }
{}

/// A law: what is counted of each tree of faultless files is what its rule has, and how many turns it takes.
pub fn trees_are_counted()
    ensures { TreesAreCounted }
{}

/// A law: the limits that are told of the rules of faultless files are those that they pass.
pub fn limits_are_told()
    ensures { LimitsAreTold }
{}
