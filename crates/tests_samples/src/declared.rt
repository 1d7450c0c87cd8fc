//! What is told of enums, classes and predicates, a line of each.

use super::lines::{Lines, Told};
use super::variables::tell_variables;
use model_core::class::{Class, Enum, Pred, PredKind};

impl Told for Enum {
    fn tell(&self, number: usize, lines: &mut Lines) {
        lines.begin("enum ", number);
        lines.say(self.name.as_str());
        for member in self.members.as_slice() {
            lines.say(" ");
            lines.say(member.as_str());
        }
        lines.end_line();
    }
}

impl Told for Class {
    fn tell(&self, number: usize, lines: &mut Lines) {
        lines.begin("class ", number);
        lines.say(self.name.as_str());
        if let Some(parent) = self.parent {
            lines.numbered(" under ", parent);
        }
        tell_variables(self.fields.as_slice(), lines);
        lines.end_line();
    }
}

fn use_word(kind: PredKind) -> &'static str {
    match kind {
        PredKind::Plain => ", plain",
        PredKind::Uses => ", uses",
        PredKind::Produce => ", produces",
        PredKind::Consume => ", consumes",
    }
}

fn tell_rules(rules: &[u32], lines: &mut Lines) {
    if !rules.is_empty() {
        lines.say(", rules");
    }
    for number in rules {
        lines.numbered(" ", *number);
    }
}

impl Told for Pred {
    fn tell(&self, number: usize, lines: &mut Lines) {
        lines.begin("pred ", number);
        lines.say(self.name.as_str());
        lines.numbered(" of ", self.class);
        lines.say(use_word(self.kind));
        tell_variables(self.params.as_slice(), lines);
        tell_rules(self.rules.as_slice(), lines);
        lines.end_line();
    }
}
