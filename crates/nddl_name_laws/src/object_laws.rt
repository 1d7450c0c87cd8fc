//! Laws of what names of the files stand for, once objects are made.

ghost use Rattle.nddl_name_laws.specs.Named.{LabelsDenoteTokens, NamesStandForObjects, TreesAreMeantWhereWhole};

/// A law: each name that is declared as an object stands for one, of the class with which it is declared, if nothing is wrong
/// with types and objects.
pub fn names_stand_for_objects()
    ensures { NamesStandForObjects }
{}

/// A law: each label of a posted token denotes a token, of a class that there is, if nothing is wrong with the text of the
/// problem either.
pub fn labels_denote_tokens()
    ensures { LabelsDenoteTokens }
{}

/// A law: all that is read in each tree of files means something, if nothing is wrong with types, rules, objects and the text of
/// the problem, and each object has something in each of its fields.
pub fn trees_are_meant_where_whole()
    ensures { TreesAreMeantWhereWhole }
{}
