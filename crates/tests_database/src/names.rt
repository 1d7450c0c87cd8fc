//! Names, decisions and what they are on, from how they are written.

ghost use Rattle.model_core.specs.Lawful.{IsLawful};

use domain_core::kind::Kind;
use eu_name::name::{TokenName, VarName};
use eu_name::name_text::NameText;
use eu_name::reading::read_name;
use eu_name::sequence::Sequence;
use model_core::decision::{ConArg, Decision};
use model_core::item::Rel;
use model_core::model::Model;
use plan_db::Subject;
use std::alloc::Global;

// The token of this name.
fn token_named(model: &Model, name: &NameText) -> Option<TokenName>
    requires { IsLawful model.now }
{
    match model.resolve_token(name) {
        Ok(token) => token,
        Err(_none) => None,
    }
}

// The variable of this name.
fn variable_named(model: &Model, name: &NameText) -> Option<VarName>
    requires { IsLawful model.now }
{
    match model.resolve_var(name) {
        Ok(variable) => variable,
        Err(_none) => None,
    }
}

/// The token of the model that the text names.
pub fn token(alloc: Global, model: &Model, text: &str) -> Option<TokenName>
    requires { IsLawful model.now }
{
    match read_name(alloc, text.as_bytes()) {
        Ok(name) => token_named(model, &name),
        Err(_fault) => None,
    }
}

/// The variable of the model that the text names.
pub fn variable(alloc: Global, model: &Model, text: &str) -> Option<VarName>
    requires { IsLawful model.now }
{
    match read_name(alloc, text.as_bytes()) {
        Ok(name) => variable_named(model, &name),
        Err(_fault) => None,
    }
}

// The two tokens of the model that the texts name.
fn tokens(alloc: Global, model: &Model, one: &str, other: &str) -> Option<(TokenName, TokenName)>
    requires { IsLawful model.now }
{
    match token(alloc, model, one) {
        Some(one) => match token(alloc, model, other) {
            Some(other) => Some((one, other)),
            None => None,
        },
        None => None,
    }
}

fn specified(variable: Option<VarName>, value: Option<i32>) -> Option<Decision> {
    match (variable, value) {
        (Some(variable), Some(value)) => Some(Decision::Specify(variable, value)),
        _ => None,
    }
}

fn activated(token: Option<TokenName>) -> Option<Decision> {
    match token {
        Some(token) => Some(Decision::Activate(token)),
        None => None,
    }
}

fn rejected(token: Option<TokenName>) -> Option<Decision> {
    match token {
        Some(token) => Some(Decision::Reject(token)),
        None => None,
    }
}

fn merged(tokens: Option<(TokenName, TokenName)>) -> Option<Decision> {
    match tokens {
        Some((token, target)) => Some(Decision::Merge(token, target)),
        None => None,
    }
}

fn ordered(tokens: Option<(TokenName, TokenName)>) -> Option<Decision> {
    match tokens {
        Some((first, second)) => Some(Decision::Order(first, second)),
        None => None,
    }
}

// The constraint of this word; `field` is one of the first field of an object.
fn kind_named(word: &str) -> Option<Kind> {
    match word {
        "eq" => Some(Kind::Eq),
        "neq" => Some(Kind::Neq),
        "lt" => Some(Kind::Lt),
        "leq" => Some(Kind::Leq),
        "addEq" => Some(Kind::AddEq),
        "mulEq" => Some(Kind::MulEq),
        "testEQ" => Some(Kind::TestEq),
        "testLEQ" => Some(Kind::TestLeq),
        "allDiff" => Some(Kind::AllDiff),
        "field" => Some(Kind::Field(0)),
        _ => None,
    }
}

// The value that the word is, or else the variable that it names.
fn argument(alloc: Global, model: &Model, word: &str) -> Option<ConArg>
    requires { IsLawful model.now }
{
    match word.parse() {
        Ok(value) => Some(ConArg::Value(value)),
        Err(_none) => match variable(alloc, model, word) {
            Some(name) => Some(ConArg::Var(name)),
            None => None,
        },
    }
}

// The arguments, if the model has all that they name.
fn arguments(alloc: Global, model: &Model, words: &str) -> Option<Sequence<ConArg>>
    requires { IsLawful model.now }
{
    let mut found = Sequence::new(alloc);
    for word in words.split(' ') {
        match argument(alloc, model, word) {
            Some(argument) => {
                if found.push(argument).is_err() {
                    return None;
                }
            }
            None => return None,
        }
    }
    Some(found)
}

// The constraint, with its arguments.
fn constraint(alloc: Global, model: &Model, words: &str) -> Option<(Kind, Sequence<ConArg>)>
    requires { IsLawful model.now }
{
    let (word, rest) = parts(words);
    match kind_named(word) {
        Some(kind) => match arguments(alloc, model, rest) {
            Some(arguments) => Some((kind, arguments)),
            None => None,
        },
        None => None,
    }
}

// The relation of this word, of some.
fn relation_named(word: &str) -> Option<Rel> {
    match word {
        "before" => Some(Rel::Before),
        "meets" => Some(Rel::Meets),
        "equals" => Some(Rel::Equals),
        _ => None,
    }
}

// The relation, with its tokens.
fn relation(alloc: Global, model: &Model, words: &str) -> Option<(Rel, TokenName, TokenName)>
    requires { IsLawful model.now }
{
    let (word, names) = parts(words);
    let (one, other) = parts(names);
    match (relation_named(word), tokens(alloc, model, one, other)) {
        (Some(relation), Some((first, second))) => Some((relation, first, second)),
        _ => None,
    }
}

fn posted(constraint: Option<(Kind, Sequence<ConArg>)>) -> Option<Decision> {
    match constraint {
        Some((kind, arguments)) => Some(Decision::Constrain(kind, arguments)),
        None => None,
    }
}

fn related(relation: Option<(Rel, TokenName, TokenName)>) -> Option<Decision> {
    match relation {
        Some((relation, first, second)) => Some(Decision::Relate(relation, first, second)),
        None => None,
    }
}

/// The first word, and what follows it.
pub fn parts(words: &str) -> (&str, &str) {
    words.split_once(' ').unwrap_or((words, ""))
}

/// The decision, where the model has what it names.
pub fn decision(alloc: Global, model: &Model, choice: &str) -> Option<Decision>
    requires { IsLawful model.now }
{
    let (word, names) = parts(choice);
    let (one, other) = parts(names);
    match word {
        "specify" => specified(variable(alloc, model, one), other.parse().ok()),
        "activate" => activated(token(alloc, model, one)),
        "merge" => merged(tokens(alloc, model, one, other)),
        "reject" => rejected(token(alloc, model, one)),
        "order" => ordered(tokens(alloc, model, one, other)),
        "post" => posted(constraint(alloc, model, names)),
        "relate" => related(relation(alloc, model, names)),
        _ => None,
    }
}

fn on_variable(variable: Option<VarName>) -> Option<Subject> {
    match variable {
        Some(variable) => Some(Subject::Var(variable)),
        None => None,
    }
}

fn on_token(token: Option<TokenName>) -> Option<Subject> {
    match token {
        Some(token) => Some(Subject::Token(token)),
        None => None,
    }
}

fn on_order(tokens: Option<(TokenName, TokenName)>) -> Option<Subject> {
    match tokens {
        Some((first, second)) => Some(Subject::Order(first, second)),
        None => None,
    }
}

fn on_constraint(constraint: Option<(Kind, Sequence<ConArg>)>) -> Option<Subject> {
    match constraint {
        Some((kind, arguments)) => Some(Subject::Constraint(kind, arguments)),
        None => None,
    }
}

fn on_relation(relation: Option<(Rel, TokenName, TokenName)>) -> Option<Subject> {
    match relation {
        Some((relation, first, second)) => Some(Subject::Relation(relation, first, second)),
        None => None,
    }
}

/// What a decision is on, where the model has it.
pub fn subject(alloc: Global, model: &Model, on: &str) -> Option<Subject>
    requires { IsLawful model.now }
{
    let (word, names) = parts(on);
    let (one, other) = parts(names);
    match word {
        "variable" => on_variable(variable(alloc, model, one)),
        "token" => on_token(token(alloc, model, one)),
        "constraint" => on_constraint(constraint(alloc, model, names)),
        "relation" => on_relation(relation(alloc, model, names)),
        _ => on_order(tokens(alloc, model, one, other)),
    }
}
