//! Laws of the rules of a model that comes from texts.

ghost use Rattle.nddl_lowering_laws.specs.Few.{BlocksAreSmall, RulesAreFew, RulesAreListed};
ghost use Rattle.nddl_lowering_laws.specs.Nested.{RulesAreShallow};
ghost use Rattle.nddl_lowering_laws.specs.Slots.{SlotsAreLawful, SlotsAreOfPreds};
ghost use Rattle.nddl_lowering_laws.specs.Standing.{LocalsStandOnce, SlotsStandOnce};
ghost use Rattle.nddl_lowering_laws.specs.Whole.{NumbersAreThere, RulesAreLawful};

/// A law: each slot of a rule stands in one block of it, and there once, whatever its text.
pub fn slots_stand_once()
    ensures { SlotsStandOnce }
{}

/// A law: and so does each local.
pub fn locals_stand_once()
    ensures { LocalsStandOnce }
{}

/// A law: what stands in a rule by its number is one of the rule's slots and locals.
pub fn numbers_are_there()
    ensures { NumbersAreThere }
{}

/// A law: in the rules of files that a shelf gives no block lies 16 deep or deeper.
pub fn rules_are_shallow()
    ensures { RulesAreShallow }
{}

/// A law: the numbers that a predicate of a model lists are those of its rules, which come from the texts for it.
pub fn rules_are_listed()
    ensures { RulesAreListed }
{}

/// A law: where no limit is told of the rules of files, those of each predicate are at most 1,024, and have together at most
/// 128 slots, 128 locals, 1,024 items and 1,024 guards.
pub fn rules_are_few()
    ensures { RulesAreFew }
{}

/// A law: and no entry of a block has a place of 2^16 or more.
pub fn blocks_are_small()
    ensures { BlocksAreSmall }
{}

/// A law: each slot asks for a token of a predicate of the files, on any object of its class.
pub fn slots_are_of_predicates()
    ensures { SlotsAreOfPreds }
{}

/// A law: so it is lawful in a model that has these predicates, with lawful objects of their classes.
pub fn slots_are_lawful()
    ensures { SlotsAreLawful }
{}

/// A law: if no limit is told, each predicate of a model with the rules and the predicates of files lists few rules, which are
/// lawful if their locals, items and guards are.
pub fn rules_are_lawful()
    ensures { RulesAreLawful }
{}
