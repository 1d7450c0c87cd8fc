//! Laws of what objects are set to, where nothing is wrong with files, and of what their model has.

ghost use Rattle.nddl_whole_laws.specs.Left.{FittingFieldsMakeRulesLawful, LeftMakesLawful};
ghost use Rattle.nddl_whole_laws.specs.Things.{GlobalsAreLawful, ModelsHaveThings, RootsAreLawful};
ghost use Rattle.nddl_whole_laws.specs.Whole.{FilesAreFaultless, HorizonsAreRight, ObjectsAreSet, ObjectsAreWhole, ResourcesKeepBounds};

/// A law: of files with which nothing is wrong each object is set to something in each field of its class.
pub fn objects_are_set()
    ensures { ObjectsAreSet }
{}

/// A law: so each has something in each of its fields, in one of objects one of the field's class.
pub fn objects_are_whole()
    ensures { ObjectsAreWhole }
{}

/// A law: so the files are faultless with these objects: all that is read in the trees of their rules means something, and what
/// is counted of them is what their rules have.
pub fn files_are_faultless()
    ensures { FilesAreFaultless }
{}

/// A law: so no capacity in their model is negative, and each level begins within its limits.
pub fn resources_keep_bounds()
    ensures { ResourcesKeepBounds }
{}

/// A law: so its horizon begins at 0 or later and isn't a single instant, and a search may visit 1 to 1,000,000 lists.
pub fn horizons_are_right()
    ensures { HorizonsAreRight }
{}

/// A law: their model has what they name, of its kind: what their names stand for, the objects of classes with what these have in
/// their fields, and the parts of tokens.
pub fn models_have_what_files_name()
    ensures { ModelsHaveThings }
{}

/// A law: and each of its roots is lawful.
pub fn roots_are_lawful()
    ensures { RootsAreLawful }
{}

/// A law: and each of its globals.
pub fn globals_are_lawful()
    ensures { GlobalsAreLawful }
{}

/// A law: so its rules are lawful, if their locals are and what is read from a field is of the field's kind.
pub fn fitting_fields_make_rules_lawful()
    ensures { FittingFieldsMakeRulesLawful }
{}

/// A law: so the model is lawful, if this is so of its rules, and what is left is.
pub fn less_is_left_to_show()
    ensures { LeftMakesLawful }
{}
