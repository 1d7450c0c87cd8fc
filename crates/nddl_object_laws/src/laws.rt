//! Laws of what running the constructors of a program comes to.

ghost use Rattle.nddl_object_laws.specs.Told.{AreThereInTurn, NumbersArePlaces, NumbersCount, RunAsStated, TellTheEarliest};

/// A law: running the constructors of a program comes to what is made by its texts alone, and to the earliest of all that
/// is wrong with it. What is made is one object for each `new` that is carried out, has a class, isn't too deep and isn't
/// one too many, in the order of the `new`s, each with the fields that the constructors of its line set. What is wrong is a
/// list over the same `new`s, with the first that passes each of the two limits.
pub fn constructors_run_as_stated()
    ensures { RunAsStated }
{}

/// A law: the fault that is told is the earliest of one list: of all that is wrong with the text, with the settings and with
/// making the objects.
pub fn the_earliest_fault_is_told()
    ensures { TellTheEarliest }
{}

/// A law: the objects that are there where all declarations have had their turn are those that are made.
pub fn objects_are_there_in_turn()
    ensures { AreThereInTurn }
{}

/// A law: the number of a `new` is how many of those that are carried out before it make an object.
pub fn numbers_count_objects()
    ensures { NumbersCount }
{}

/// A law: the object that a `new` makes stands among all at its number.
pub fn numbers_are_places()
    ensures { NumbersArePlaces }
{}
