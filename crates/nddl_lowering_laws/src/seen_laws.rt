//! Laws of what the items and guards of rules name.

ghost use Rattle.nddl_lowering_laws.specs.Fine.{BlocksHaveFineCalls, BodiesHaveFineCalls, ReadNamesAreFound};
ghost use Rattle.nddl_lowering_laws.specs.Seen.{ItemsHaveArities, PlacesAreApart, RelationsHaveSlots, TermsAreSeen};

/// A law: items and guards of a rule name no slot or local but those that are seen from their block, if the names of its text are
/// read as they are seen, its declarations stand at different places, its calls are fine, and all that is read means something.
pub fn terms_are_seen()
    ensures { TermsAreSeen }
{}

/// A law: and its constraints have as many arguments as their kinds take.
pub fn items_have_arities()
    ensures { ItemsHaveArities }
{}

/// A law: and its relations are with slots of the rule.
pub fn relations_have_slots()
    ensures { RelationsHaveSlots }
{}

/// A law: in the rules of files that a shelf gives no two locals or slots are declared at one place.
pub fn places_are_apart()
    ensures { PlacesAreApart }
{}

/// A law: in a block with which nothing is wrong each relation has one argument and each constraint as many as it may have, and
/// what gets a label is a relation.
pub fn blocks_have_fine_calls()
    ensures { BlocksHaveFineCalls }
{}

/// A law: and in the body of a predicate, which has no relations.
pub fn bodies_have_fine_calls()
    ensures { BodiesHaveFineCalls }
{}

/// A law: where each name that is looked up in a rule is read, and they are read in order, each is found at its place as what
/// it means there.
pub fn read_names_are_found()
    ensures { ReadNamesAreFound }
{}
