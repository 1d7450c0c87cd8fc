//! What is told of rules: what each has, and then what stands in its blocks, the inner ones indented.

use super::items::{tell_item, tell_term};
use super::lines::{Lines, Told, tell_all};
use super::variables::{tell_base, tell_type};
use model_core::item::{Item, Term};
use model_core::rule::{Entry, Guard, Rule, Slot};
use model_core::variable::VarDecl;

fn indent(depth: u32, lines: &mut Lines) {
    for _ in 0..depth {
        lines.say("  ");
    }
}

// A line of a word and a number.
fn tell_numbered(depth: u32, word: &str, number: u32, lines: &mut Lines) {
    indent(depth, lines);
    lines.numbered(word, number);
    lines.end_line();
}

// An item with its number among those of the rule.
fn tell_next_item(depth: u32, item: &Item, next: &mut u32, lines: &mut Lines) {
    indent(depth, lines);
    lines.numbered("", *next);
    lines.say(": ");
    *next = next.saturating_add(1);
    tell_item(item, lines);
}

fn tell_sides(left: Term, sign: &str, right: Term, lines: &mut Lines) {
    tell_term(left, lines);
    lines.say(sign);
    tell_term(right, lines);
    lines.end_line();
}

fn tell_guard(depth: u32, guard: Guard, lines: &mut Lines) {
    indent(depth, lines);
    lines.say("if ");
    match guard {
        Guard::Equal(left, right) => tell_sides(left, " == ", right, lines),
        Guard::Differ(left, right) => tell_sides(left, " != ", right, lines),
    }
}

fn tell_else(depth: u32, lines: &mut Lines) {
    indent(depth, lines);
    lines.say("else\n");
}

#[cycle(blocks)]
fn tell_entries(entries: &[Entry], depth: u32, next: &mut u32, lines: &mut Lines) {
    for entry in entries {
        tell_entry(entry, depth, next, lines);
    }
}

#[cycle(blocks)]
fn tell_entry(entry: &Entry, depth: u32, next: &mut u32, lines: &mut Lines) {
    match entry {
        Entry::Slot(number) => tell_numbered(depth, "slot ", *number, lines),
        Entry::Local(number) => tell_numbered(depth, "local ", *number, lines),
        Entry::Item(item) => tell_next_item(depth, item, next, lines),
        Entry::Branch {
            guard,
            then,
            otherwise,
        } => {
            let inside = depth.saturating_add(1);
            tell_guard(depth, *guard, lines);
            tell_entries(then.entries.as_slice(), inside, next, lines);
            tell_else(depth, lines);
            tell_entries(otherwise.entries.as_slice(), inside, next, lines);
        }
    }
}

impl Told for Slot {
    fn tell(&self, number: usize, lines: &mut Lines) {
        lines.begin("  has slot ", number);
        lines.numbered("of ", self.pred);
        tell_base(&self.object, lines);
        lines.end_line();
    }
}

// The locals of a rule, which have no names.
fn tell_locals(locals: &[VarDecl], lines: &mut Lines) {
    for (number, local) in locals.iter().enumerate() {
        lines.begin("  has local ", number);
        lines.say(local.name.as_str());
        tell_type(local, lines);
        lines.end_line();
    }
}

impl Told for Rule {
    fn tell(&self, number: usize, lines: &mut Lines) {
        lines.say("rule ");
        lines.number(number);
        lines.end_line();
        tell_all(self.slots.as_slice(), lines);
        tell_locals(self.locals.as_slice(), lines);
        let mut next = 0;
        tell_entries(self.top.entries.as_slice(), 1, &mut next, lines);
    }
}
