//! Names of tokens and variables of the small problem, and copies of decisions.

ghost use Rattle.model_core.specs.declared.variable.Base.{Base};
ghost use Rattle.model_core.specs.Lawful.{IsLawful};
ghost use Rattle.model_core.specs.Variables.{HasBase};

use super::names;
use super::rows::{Row, assert_rows};
use super::sample::sample;
use Named::{Token, Variable};
use domain_core::kind::Kind;
use eu_name::name::{Part, TokenName, VarName};
use eu_name::name_text::NameText;
use eu_name::reading::read_name;
use eu_name::sequence::Sequence;
use model_core::decision::{ConArg, Decision};
use model_core::item::Rel;
use model_core::model::Model;
use std::alloc::Global;

/// A token in numbers: its root, how many steps there are, and the rule and the slot of the last.
type Numbers = (u32, usize, u16, u16);

/// A global, or a part or a local of a token, with its number.
type Described = (&'static str, Numbers, u32);

/// A text, and the token or the variable of the small problem that it names.
enum Named {
    Token(&'static str, Option<Numbers>),
    Variable(&'static str, Option<Described>),
}

impl Row for Named {
    fn holds(&self, alloc: Global) -> bool {
        match sample(alloc) {
            Ok(model) => holds_in(alloc, &model, self),
            Err(_) => false,
        }
    }
}

static TOKENS: [Named; 11] = [
    Token("here", Some((0, 0, 0, 0))),
    Token("here/0:0", Some((0, 1, 0, 0))),
    Token("here/0:0/0:0", Some((0, 2, 0, 0))),
    Token("there", None),
    Token("total", None),
    Token("here/1:0", None),
    Token("here/0:1", None),
    Token("here/0:0/0:1", None),
    Token("here.start", None),
    Token("here/0!0", None),
    Token("!1", None),
];

static VARIABLES: [Named; 20] = [
    Variable("total", Some(("global", (0, 0, 0, 0), 0))),
    Variable("!1", Some(("global", (0, 0, 0, 0), 1))),
    Variable("here.start", Some(("start", (0, 0, 0, 0), 0))),
    Variable("here.end", Some(("end", (0, 0, 0, 0), 0))),
    Variable("here.duration", Some(("duration", (0, 0, 0, 0), 0))),
    Variable("here.object", Some(("object", (0, 0, 0, 0), 0))),
    Variable("here.place", Some(("param", (0, 0, 0, 0), 0))),
    Variable("here/0:0.place", Some(("param", (0, 1, 0, 0), 0))),
    Variable("here/0!0", Some(("local", (0, 0, 0, 0), 0))),
    Variable("here/0:0/0!0", Some(("local", (0, 1, 0, 0), 0))),
    Variable("here", None),
    Variable("there.start", None),
    Variable("total.start", None),
    Variable("total/0:0", None),
    Variable("!0", None),
    Variable("!2", None),
    Variable("here.speed", None),
    Variable("here/0:1.start", None),
    Variable("here/1!0", None),
    Variable("here/0!1", None),
];

// The token in numbers.
fn numbers(token: &TokenName) -> Numbers {
    let steps = token.steps.as_slice();
    match steps.last() {
        Some(step) => (token.root, steps.len(), step.rule, step.slot),
        None => (token.root, 0, 0, 0),
    }
}

// The variable in numbers, with the word for what it is.
fn described(variable: &VarName) -> Described {
    match variable {
        VarName::Global(number) => ("global", (0, 0, 0, 0), *number),
        VarName::Token(token, Part::Start) => ("start", numbers(token), 0),
        VarName::Token(token, Part::End) => ("end", numbers(token), 0),
        VarName::Token(token, Part::Duration) => ("duration", numbers(token), 0),
        VarName::Token(token, Part::Object) => ("object", numbers(token), 0),
        VarName::Token(token, Part::Param(number)) => ("param", numbers(token), u32::from(*number)),
        VarName::Local { token, number, .. } => ("local", numbers(token), u32::from(*number)),
    }
}

// The token that the name names in the model.
fn token_in(model: &Model, name: &NameText) -> Option<Numbers>
    requires { IsLawful model.now }
{
    match model.resolve_token(name) {
        Ok(Some(token)) => Some(numbers(&token)),
        Ok(None) => None,
        Err(_) => Some((9, 0, 0, 0)),
    }
}

// Whether the text is how the variable is written.
fn is_written(alloc: Global, model: &Model, variable: &VarName, text: &str) -> bool
    requires { (base : Base) × HasBase model.now variable.now base }
{
    match model.var_text(variable) {
        Ok(name) => names::is_written(alloc, &name, text),
        Err(_) => false,
    }
}

// The variable that the name names in the model, where the text is how it is written.
fn variable_in(alloc: Global, model: &Model, name: &NameText, text: &str) -> Option<Described>
    requires { IsLawful model.now }
{
    match model.resolve_var(name) {
        Ok(Some(variable)) if is_written(alloc, model, &variable, text) => Some(described(
            &variable,
        )),
        Ok(None) => None,
        _ => Some(("not so", (0, 0, 0, 0), 0)),
    }
}

// The token of the model that the text names.
fn token_named(alloc: Global, model: &Model, text: &str) -> Option<Numbers>
    requires { IsLawful model.now }
{
    match read_name(alloc, text.as_bytes()) {
        Ok(name) => token_in(model, &name),
        Err(_) => Some((8, 0, 0, 0)),
    }
}

// The variable of the model that the text names.
fn variable_named(alloc: Global, model: &Model, text: &str) -> Option<Described>
    requires { IsLawful model.now }
{
    match read_name(alloc, text.as_bytes()) {
        Ok(name) => variable_in(alloc, model, &name, text),
        Err(_) => Some(("no name", (0, 0, 0, 0), 0)),
    }
}

// Whether the text names this in the model.
fn holds_in(alloc: Global, model: &Model, named: &Named) -> bool
    requires { IsLawful model.now }
{
    match named {
        Token(text, token) => token_named(alloc, model, *text) == *token,
        Variable(text, variable) => variable_named(alloc, model, *text) == *variable,
    }
}

#[test]
fn texts_name_tokens(rt: HostRuntime) {
    assert_rows(&rt, &TOKENS);
}

#[test]
fn texts_name_variables(rt: HostRuntime) {
    assert_rows(&rt, &VARIABLES);
}

/// A kind of decision, and the numbers in it: a variable and a value, or roots.
struct CopiesDecision(&'static str, u32, i32);

impl Row for CopiesDecision {
    fn holds(&self, alloc: Global) -> bool {
        let copied = copied(alloc, self.0, self.1, self.2);
        copied == Some((self.0, self.1, i64::from(self.2)))
    }
}

static DECISIONS: [CopiesDecision; 7] = [
    CopiesDecision("specify", 7, -5),
    CopiesDecision("activate", 1, 0),
    CopiesDecision("reject", 2, 0),
    CopiesDecision("merge", 3, 4),
    CopiesDecision("order", 5, 6),
    CopiesDecision("constrain", 8, -9),
    CopiesDecision("relate", 6, 5),
];

fn root(alloc: Global, number: u32) -> TokenName {
    TokenName {
        root: number,
        steps: Sequence::new(alloc),
    }
}

// That the variable is at most the value.
fn constrained(alloc: Global, number: u32, value: i32) -> Decision {
    let mut arguments = Sequence::new(alloc);
    let _first = arguments.push(ConArg::Var(VarName::Global(number)));
    let _second = arguments.push(ConArg::Value(value));
    Decision::Constrain(Kind::Leq, arguments)
}

// That the one root is before the other.
fn related(alloc: Global, number: u32, other: u32) -> Decision {
    Decision::Relate(Rel::Before, root(alloc, number), root(alloc, other))
}

fn decision(alloc: Global, kind: &str, number: u32, other: i32) -> Decision {
    let second = other.unsigned_abs();
    match kind {
        "activate" => Decision::Activate(root(alloc, number)),
        "reject" => Decision::Reject(root(alloc, number)),
        "merge" => Decision::Merge(root(alloc, number), root(alloc, second)),
        "order" => Decision::Order(root(alloc, number), root(alloc, second)),
        "constrain" => constrained(alloc, number, other),
        "relate" => related(alloc, number, second),
        _ => Decision::Specify(VarName::Global(number), other),
    }
}

// The variable and the value among the arguments.
fn compared(arguments: &[ConArg]) -> (u32, i64) {
    let mut found = (0, 0);
    for argument in arguments {
        match argument {
            ConArg::Var(VarName::Global(number)) => found.0 = *number,
            ConArg::Var(_) => {}
            ConArg::Value(value) => found.1 = i64::from(*value),
        }
    }
    found
}

// The constraint in a word and its numbers.
fn constraint_summary(kind: Kind, arguments: &[ConArg]) -> (&'static str, u32, i64) {
    let (number, value) = compared(arguments);
    let word = if kind == Kind::Leq { "constrain" } else { "" };
    (word, number, value)
}

// The relation in a word and its numbers.
fn relation_summary(relation: Rel, one: &TokenName, other: &TokenName) -> (&'static str, u32, i64) {
    let word = if relation == Rel::Before {
        "relate"
    } else {
        ""
    };
    (word, one.root, i64::from(other.root))
}

// The decision in a word and its numbers.
fn summary(decision: &Decision) -> (&'static str, u32, i64) {
    match decision {
        Decision::Specify(VarName::Global(number), value) => (
            "specify",
            *number,
            i64::from(*value),
        ),
        Decision::Specify(_, _) => ("specify", 0, 0),
        Decision::Activate(token) => ("activate", token.root, 0),
        Decision::Reject(token) => ("reject", token.root, 0),
        Decision::Merge(token, target) => ("merge", token.root, i64::from(target.root)),
        Decision::Order(first, second) => ("order", first.root, i64::from(second.root)),
        Decision::Constrain(kind, arguments) => constraint_summary(*kind, arguments.as_slice()),
        Decision::Relate(relation, one, other) => relation_summary(*relation, one, other),
    }
}

// What a copy of the decision is.
fn copy_of(made: &Decision) -> Option<(&'static str, u32, i64)> {
    match made.copy() {
        Ok(copy) => Some(summary(&copy)),
        Err(_) => None,
    }
}

// What a copy is of the decision that is described so.
fn copied(alloc: Global, kind: &str, number: u32, other: i32) -> Option<(&'static str, u32, i64)> {
    let made = decision(alloc, kind, number, other);
    copy_of(&made)
}

#[test]
fn decisions_are_copied(rt: HostRuntime) {
    assert_rows(&rt, &DECISIONS);
}
