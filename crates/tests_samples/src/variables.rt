//! What is told of variables and what they may be.

use super::lines::Lines;
use domain_core::domain::Dom;
use eu_name::name::Part;
use model_core::variable::{Base, ValueKind, VarDecl};

fn tell_kind(kind: ValueKind, lines: &mut Lines) {
    match kind {
        ValueKind::Int => lines.say("int"),
        ValueKind::Float => lines.say("float"),
        ValueKind::Bool => lines.say("bool"),
        ValueKind::Enum(number) => lines.numbered("enum ", number),
        ValueKind::Object => lines.say("object"),
    }
}

// What stands before the member at this place of a set.
fn gap(place: u32) -> &'static str {
    if place == 0 { "{" } else { " " }
}

fn tell_members(domain: &Dom, lines: &mut Lines) {
    for place in 0..domain.count() {
        if let Some(member) = domain.nth(place) {
            lines.valued(gap(place), member);
        }
    }
    lines.say("}");
}

fn tell_range(domain: &Dom, lines: &mut Lines) {
    lines.valued("[", domain.lo());
    lines.valued(" ", domain.hi());
    lines.say("]");
}

/// A range by its ends, `[0 9]`, and a set by its members, `{1 3}`.
pub fn tell_domain(domain: &Dom, lines: &mut Lines) {
    lines.say(" ");
    if domain.is_range() {
        tell_range(domain, lines);
    } else {
        tell_members(domain, lines);
    }
}

pub fn tell_base(base: &Base, lines: &mut Lines) {
    match base {
        Base::Given(domain) => tell_domain(domain, lines),
        Base::Void => lines.say(" void"),
    }
}

/// The kind of a variable, and what it may be.
pub fn tell_type(variable: &VarDecl, lines: &mut Lines) {
    tell_kind(variable.kind, lines);
    tell_base(&variable.base, lines);
}

/// Fields or parameters, each behind a comma.
pub fn tell_variables(variables: &[VarDecl], lines: &mut Lines) {
    for variable in variables {
        lines.say(", ");
        lines.say(variable.name.as_str());
        lines.say(" ");
        tell_type(variable, lines);
    }
}

/// A part of a token: a parameter by its number, `p0`.
pub fn tell_part(part: Part, lines: &mut Lines) {
    match part {
        Part::Start => lines.say("start"),
        Part::End => lines.say("end"),
        Part::Duration => lines.say("duration"),
        Part::Object => lines.say("object"),
        Part::Param(number) => lines.numbered("p", number as u32),
    }
}
