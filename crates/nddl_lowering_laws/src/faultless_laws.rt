//! Laws of the rules of faultless files.

ghost use Rattle.nddl_lowering_laws.specs.Faultless.{FaultlessRulesAreLawful, RulesNameWhatIsSeen, TreesAreScoped};
ghost use Rattle.nddl_lowering_laws.specs.Fitting.{ArgumentsFit};

/// A law: the names in the trees of faultless files are read as they are seen, their calls are fine, and their locals and slots
/// are declared at different places.
pub fn trees_are_scoped()
    ensures { TreesAreScoped }
{}

/// A law: so items and guards of their rules name what is seen from their block, constraints have as many arguments as their
/// kinds take, and relations are with slots of the rule.
pub fn rules_name_what_is_seen()
    ensures { RulesNameWhatIsSeen }
{}

/// A law: in a model that has what the files name, the constraints of their rules have arguments of kinds that they take, but
/// for what is read from fields, and the two sides of a guard are of one kind.
pub fn arguments_fit()
    ensures { ArgumentsFit }
{}

/// A law: if no limit is told of the rules of faultless files, and fields fit in them, each predicate of a model that has these
/// rules, the predicates of the files and what they name lists lawful rules, which are few.
pub fn faultless_rules_are_lawful()
    ensures { FaultlessRulesAreLawful }
{}
