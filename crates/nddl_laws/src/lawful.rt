//! Laws of what is lawful of a table, so that later stages needn't look again.

ghost use Rattle.nddl_laws.specs.Lawful.{HasDistinctNames, HasNoCircles, HasParentClasses};

/// A law: no two names of the table's scope have the same spelling.
pub fn names_are_distinct()
    ensures { HasDistinctNames }
{}

/// A law: no class extends one that is under it, so none is its own ancestor.
pub fn classes_have_no_circles()
    ensures { HasNoCircles }
{}

/// A law: what a class extends is one of the table's classes.
pub fn parents_are_classes()
    ensures { HasParentClasses }
{}
