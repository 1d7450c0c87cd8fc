//! Laws of what is answered.

ghost use Rattle.nddl_laws.specs.TypeOutcomes.{HasOneAnswer, KnowsOnce};

/// A law: what is known of the names of a program is one thing.
pub fn a_program_is_known_in_one_way()
    ensures { KnowsOnce }
{}

/// A law: of no files there are two tables, or two first faults, or both.
pub fn files_have_one_answer()
    ensures { HasOneAnswer }
{}
