//! What is told of items and of what stands in them.

use super::lines::Lines;
use super::variables::tell_part;
use domain_core::kind::Kind;
use eu_name::name::Part;
use model_core::item::{Item, Rel, Term};

// A part of the token that the letter and the number name.
fn tell_part_of(letter: &str, number: u32, part: Part, lines: &mut Lines) {
    lines.numbered(letter, number);
    lines.say(".");
    tell_part(part, lines);
}

/// A term: a value, a part of the rule's token, or by a letter and a number a slot, a local, a global or a root.
pub fn tell_term(term: Term, lines: &mut Lines) {
    match term {
        Term::Lit(value) => lines.value(value),
        Term::Here(part) => tell_part(part, lines),
        Term::Slot(number, part) => tell_part_of("s", number, part, lines),
        Term::Local(number) => lines.numbered("l", number),
        Term::Global(number) => lines.numbered("g", number),
        Term::Root(number, part) => tell_part_of("r", number, part, lines),
    }
}

fn constraint_word(kind: Kind) -> &'static str {
    match kind {
        Kind::Eq => "eq",
        Kind::Neq => "neq",
        Kind::Lt => "lt",
        Kind::Leq => "leq",
        Kind::AddEq => "addEq",
        Kind::MulEq => "mulEq",
        Kind::TestEq => "testEQ",
        Kind::TestLeq => "testLEQ",
        Kind::AllDiff => "allDiff",
        Kind::Field(_) => "field",
    }
}

/// The word of a relation.
pub fn relation_word(relation: Rel) -> &'static str {
    match relation {
        Rel::Any => "any",
        Rel::Before => "before",
        Rel::After => "after",
        Rel::Meets => "meets",
        Rel::MetBy => "met_by",
        Rel::Equals => "equals",
        Rel::Contains => "contains",
        Rel::ContainedBy => "contained_by",
        Rel::Starts => "starts",
        Rel::Ends => "ends",
        Rel::Parallels => "parallels",
        Rel::ParalleledBy => "paralleled_by",
        Rel::StartsDuring => "starts_during",
        Rel::ContainsStart => "contains_start",
        Rel::EndsDuring => "ends_during",
        Rel::ContainsEnd => "contains_end",
    }
}

/// The word of a constraint, and for a field its number.
pub fn tell_kind(kind: Kind, lines: &mut Lines) {
    match kind {
        Kind::Field(number) => lines.numbered("field ", number),
        _ => lines.say(constraint_word(kind)),
    }
}

fn tell_constraint(kind: Kind, terms: &[Term], lines: &mut Lines) {
    tell_kind(kind, lines);
    for term in terms {
        lines.say(" ");
        tell_term(*term, lines);
    }
}

fn tell_relation(relation: Rel, slot: u32, lines: &mut Lines) {
    lines.say(relation_word(relation));
    lines.numbered(" s", slot);
}

/// A line with a constraint and its arguments, or a relation and its slot.
pub fn tell_item(item: &Item, lines: &mut Lines) {
    match item {
        Item::Constraint(kind, terms) => tell_constraint(*kind, terms.as_slice(), lines),
        Item::Relation(relation, slot) => tell_relation(*relation, *slot, lines),
    }
    lines.end_line();
}
