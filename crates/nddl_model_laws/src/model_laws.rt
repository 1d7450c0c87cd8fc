//! Laws of what is lawful of a compiled model, so that the test of it never fails for want of these.

ghost use Rattle.nddl_model_laws.specs.Counted.{KeepsLimits};
ghost use Rattle.nddl_model_laws.specs.Joined.{RestMakesLawful};
ghost use Rattle.nddl_model_laws.specs.Named.{ModelsHaveDistinctNames, HasGlobalNames, HasLabels, HasNoBuiltinNames, HasPlacedObjects};
ghost use Rattle.nddl_model_laws.specs.Tabled.{ModelsHaveDistinctPreds, ModelsHaveLawfulClasses, ModelsHaveLawfulEnums, ModelsHaveLawfulPreds};
ghost use Rattle.nddl_model_laws.specs.Valued.{HasValuedObjects};

/// A law: of files with which nothing is wrong each enum of the model has a name, and from 1 to 4,096 members that are names.
pub fn model_enums_are_lawful()
    ensures { ModelsHaveLawfulEnums }
{}

/// A law: so each class has first the fields of the class that it extends, and then its own; their names differ, and what each
/// may be is of its kind, now that all objects are made.
pub fn model_classes_are_lawful()
    ensures { ModelsHaveLawfulClasses }
{}

/// A law: so each predicate is lawful whose rules are: its class is there, and what its parameters may be is of their kinds.
pub fn model_predicates_are_lawful()
    ensures { ModelsHaveLawfulPreds }
{}

/// A law: so two predicates of one class have different names.
pub fn model_predicates_are_distinct()
    ensures { ModelsHaveDistinctPreds }
{}

/// A law: so enums, classes and predicates are fewer than 2^32, objects and roots 4,096 at most, and facts 512.
pub fn models_keep_limits()
    ensures { KeepsLimits }
{}

/// A law: so each global has a name, or stands for a field and is called `!` and its number.
pub fn globals_have_names()
    ensures { HasGlobalNames }
{}

/// A law: so the label of each root is a name.
pub fn labels_are_names()
    ensures { HasLabels }
{}

/// A law: so each object is called by names with points between them, and is of a class that is there, with a value for each
/// of its fields.
pub fn objects_have_classes()
    ensures { HasPlacedObjects }
{}

/// A law: so each object has one value for each field of its class, of the field's kind.
pub fn objects_have_values_of_their_kinds()
    ensures { HasValuedObjects }
{}

/// A law: so no global, root, object, enum or member has a name that the language gives to a class of its own.
pub fn names_are_not_built_in()
    ensures { HasNoBuiltinNames }
{}

/// A law: so no two names in the scope of the file are alike, if globals are 4,096 at most and the names of objects differ.
pub fn model_names_are_distinct()
    ensures { ModelsHaveDistinctNames }
{}

/// A law: so the model is lawful if its rules are lawful for the predicates that list them, and the rest of it is.
pub fn what_is_left_makes_models_lawful()
    ensures { RestMakesLawful }
{}
