//! Laws of the enums, the classes and the predicates of a table.

ghost use Rattle.nddl_laws.specs.Declared.{LeavesNothingOut};
ghost use Rattle.nddl_laws.specs.Placed.{FaultsHaveFiles};
ghost use Rattle.nddl_laws.specs.Tables.{TablesAreLawful, HasDistinctPreds, HasLawfulClasses, HasLawfulEnums, HasLawfulPreds};

/// A law: each enum of a table has a name, and from 1 to 4,096 members that are names.
pub fn enums_are_lawful()
    ensures { HasLawfulEnums }
{}

/// A law: each class of a table has first the fields of the class that it extends, and then its own; their names differ,
/// and each is of a kind that is there, with values of this kind.
pub fn classes_are_lawful()
    ensures { HasLawfulClasses }
{}

/// A law: each predicate of a table has at most 32 parameters, of kinds that are there and with values of these kinds;
/// their names differ and are no parts that each token has, and its own name is that of no field of its class.
pub fn predicates_are_lawful()
    ensures { HasLawfulPreds }
{}

/// A law: no two predicates of one class have the same name.
pub fn predicates_are_distinct()
    ensures { HasDistinctPreds }
{}

/// A law: each enum that is declared is one of the table's; each class is, whether it has a body or not, with a field for
/// each that is declared in it; and each predicate is, with all of its parameters.
pub fn nothing_is_left_out()
    ensures { LeavesNothingOut }
{}

/// A law: a table is lawful as far as it goes. A model that has a table and nothing beside it, no rules, no objects and
/// nothing that is asked for, is lawful if its horizon is.
pub fn tables_are_lawful()
    ensures { TablesAreLawful }
{}

/// A law: what is wrong first with files stands in one of them, so it is told where there is memory.
pub fn faults_have_files()
    ensures { FaultsHaveFiles }
{}
