//! What is told of a model, with a line or more for each thing that it has.

use super::items::{relation_word, tell_item, tell_kind};
use super::lines::{Lines, Told, tell_all};
use super::variables::{tell_domain, tell_part, tell_type};
use domain_core::kind::Kind;
use eu_name::name::{TokenName, VarName};
use model_core::class::{Object, ObjectKind};
use model_core::decision::{ConArg, Decision};
use model_core::item::{Item, Rel};
use model_core::model::{Model, Placed, Problem, Root, RootKind};
use model_core::variable::VarDecl;
use std::alloc::{AllocError, Global};

fn tell_object_kind(kind: ObjectKind, lines: &mut Lines) {
    match kind {
        ObjectKind::Plain => lines.say(", plain"),
        ObjectKind::Timeline => lines.say(", timeline"),
        ObjectKind::Reusable { capacity } => lines.valued(", reusable ", capacity),
        ObjectKind::Reservoir { initial, low, high } => {
            lines.valued(", reservoir ", initial);
            lines.valued(" ", low);
            lines.valued(" ", high);
        }
    }
}

fn tell_fields(fields: &[i32], lines: &mut Lines) {
    if !fields.is_empty() {
        lines.say(", fields");
    }
    for value in fields {
        lines.valued(" ", *value);
    }
}

impl Told for Object {
    fn tell(&self, number: usize, lines: &mut Lines) {
        lines.begin("object ", number);
        lines.say(self.name.as_str());
        lines.numbered(" of ", self.class);
        tell_object_kind(self.kind, lines);
        tell_fields(self.fields.as_slice(), lines);
        lines.end_line();
    }
}

fn posted_word(kind: RootKind) -> &'static str {
    match kind {
        RootKind::Goal => " goal of ",
        RootKind::Rejectable => " rejectable of ",
        RootKind::Fact => " fact of ",
    }
}

impl Told for Root {
    fn tell(&self, number: usize, lines: &mut Lines) {
        lines.begin("root ", number);
        lines.say(self.label.as_str());
        lines.numbered(posted_word(self.kind), self.pred);
        tell_domain(&self.object, lines);
        lines.end_line();
    }
}

/// A global variable.
impl Told for VarDecl {
    fn tell(&self, number: usize, lines: &mut Lines) {
        lines.begin("global ", number);
        lines.say(self.name.as_str());
        lines.say(" ");
        tell_type(self, lines);
        lines.end_line();
    }
}

/// A constraint of the problem.
impl Told for Item {
    fn tell(&self, number: usize, lines: &mut Lines) {
        lines.say("item ");
        lines.number(number);
        lines.say(": ");
        tell_item(self, lines);
    }
}

// A token, by the number of its root.
fn tell_token(token: &TokenName, lines: &mut Lines) {
    lines.numbered(" r", token.root);
    for step in token.steps.as_slice() {
        lines.numbered("/", step.rule as u32);
        lines.numbered(":", step.slot as u32);
    }
}

fn tell_tokens(one: &TokenName, other: &TokenName, lines: &mut Lines) {
    tell_token(one, lines);
    tell_token(other, lines);
}

fn tell_variable(variable: &VarName, lines: &mut Lines) {
    match variable {
        VarName::Token(token, part) => {
            tell_token(token, lines);
            lines.say(".");
            tell_part(*part, lines);
        }
        VarName::Local {
            token,
            rule,
            number,
        } => {
            tell_token(token, lines);
            lines.numbered("/", *rule as u32);
            lines.numbered("!", *number as u32);
        }
        VarName::Global(number) => lines.numbered(" g", *number),
    }
}

fn tell_specified(variable: &VarName, value: i32, lines: &mut Lines) {
    tell_variable(variable, lines);
    lines.valued(" ", value);
}

fn decision_word(decision: &Decision) -> &'static str {
    match decision {
        Decision::Specify(..) => ": specify",
        Decision::Activate(_) => ": activate",
        Decision::Merge(..) => ": merge",
        Decision::Reject(_) => ": reject",
        Decision::Order(..) => ": order",
        Decision::Constrain(..) => ": constrain ",
        Decision::Relate(..) => ": relate ",
    }
}

fn tell_argument(argument: &ConArg, lines: &mut Lines) {
    match argument {
        ConArg::Var(variable) => tell_variable(variable, lines),
        ConArg::Value(value) => lines.valued(" ", *value),
    }
}

fn tell_constrained(kind: Kind, arguments: &[ConArg], lines: &mut Lines) {
    tell_kind(kind, lines);
    for argument in arguments {
        tell_argument(argument, lines);
    }
}

fn tell_related(relation: Rel, one: &TokenName, other: &TokenName, lines: &mut Lines) {
    lines.say(relation_word(relation));
    tell_tokens(one, other, lines);
}

// What is decided on, and a value.
fn tell_decided(decision: &Decision, lines: &mut Lines) {
    match decision {
        Decision::Specify(variable, value) => tell_specified(variable, *value, lines),
        Decision::Activate(token) => tell_token(token, lines),
        Decision::Merge(token, target) => tell_tokens(token, target, lines),
        Decision::Reject(token) => tell_token(token, lines),
        Decision::Order(first, second) => tell_tokens(first, second, lines),
        Decision::Constrain(kind, arguments) => {
            tell_constrained(*kind, arguments.as_slice(), lines)
        }
        Decision::Relate(relation, first, second) => tell_related(*relation, first, second, lines),
    }
}

impl Told for Placed {
    fn tell(&self, number: usize, lines: &mut Lines) {
        lines.begin("decision ", number);
        lines.say("at ");
        lines.say(self.file.as_str());
        lines.numbered(" ", self.at);
        lines.say(decision_word(&self.decision));
        tell_decided(&self.decision, lines);
        lines.end_line();
    }
}

fn tell_horizon(problem: &Problem, lines: &mut Lines) {
    lines.valued("horizon ", problem.start);
    lines.valued(" ", problem.end);
    lines.numbered(", steps ", problem.steps);
    lines.end_line();
}

fn tell_problem(problem: &Problem, lines: &mut Lines) {
    tell_horizon(problem, lines);
    tell_all(problem.roots.as_slice(), lines);
    tell_all(problem.globals.as_slice(), lines);
    tell_all(problem.items.as_slice(), lines);
    tell_all(problem.decisions.as_slice(), lines);
}

fn tell_model(model: &Model, lines: &mut Lines) {
    tell_all(model.enums.as_slice(), lines);
    tell_all(model.classes.as_slice(), lines);
    tell_all(model.objects.as_slice(), lines);
    tell_all(model.preds.as_slice(), lines);
    tell_all(model.rules.as_slice(), lines);
    tell_problem(&model.problem, lines);
}

/// All of a model.
pub fn model_lines(alloc: Global, model: &Model) -> Result<String, AllocError> {
    let mut lines = Lines::new(alloc);
    tell_model(model, &mut lines);
    lines.into_text()
}
