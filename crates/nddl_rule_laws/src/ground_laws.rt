//! Laws of what the trees of rules stand on.

ghost use Rattle.nddl_rule_laws.specs.Grounds.{TreesHaveGrounds};

/// A law: where nothing is wrong with the types and rules of files, each of their trees stands on a ground, with the
/// parameters of the predicate for which it is made, also where the rule is an ancestor's. Nothing is wrong with its text
/// there, and each name that is looked up in it is read, as the thing that it denotes.
pub fn trees_have_grounds()
    ensures { TreesHaveGrounds }
{}
