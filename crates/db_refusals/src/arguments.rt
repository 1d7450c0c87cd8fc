//! Whether a constraint takes the arguments with which a decision posts it.

ghost use Rattle.std.specs.Prelude.{◌↔◌, ◌∷◌, [], IsTrue, All};
ghost use Rattle.model_core.specs.declared.decision.ConArg.TheVariants as given;
ghost use Rattle.model_core.specs.Arguments.{CanCompare, CanOrder, Takes};
ghost use Rattle.db_refusals.specs.Typing.{HasArgument, Suits, FindsKind, IsFactor};

use domain_core::kind::Kind;
use model_core::decision::ConArg;
use model_core::model::Model;
use model_core::variable::ValueKind;
use model_typing::kinds::is_same_kind;
use model_typing::values::{is_numeric, is_value_of};

/// What is asked of an argument that is read in a kind.
#[derive(Clone, Copy)]
pub enum Reading {
    /// That it is of the kind, if it is a variable.
    Types,
    /// That it is of the kind, also if it is a value.
    Values,
}

// Whether the value suits the kind.
fn value_suits(model: &Model, reading: Reading, kind: ValueKind, value: i32) -> bool
    ensures { IsTrue result ↔ Suits model.now reading kind (given.Value value) }
{
    match reading {
        Reading::Types => true,
        Reading::Values => is_value_of(model, kind, value),
    }
}

// Whether the argument suits the kind.
fn suits(model: &Model, reading: Reading, kind: ValueKind, argument: &ConArg) -> bool
    requires { HasArgument model.now argument.now }
    ensures { IsTrue result ↔ Suits model.now reading kind argument.now }
{
    match argument {
        ConArg::Var(name) => is_same_kind(kind, model.kind_of(name)),
        ConArg::Value(value) => value_suits(model, reading, kind, *value),
    }
}

// Whether both arguments suit the kind.
fn both_suit(model: &Model, reading: Reading, kind: ValueKind, one: &ConArg, other: &ConArg) -> bool
    requires one { HasArgument model.now one.now }
    requires other { HasArgument model.now other.now }
    ensures { IsTrue result ↔ All (Suits model.now reading kind) (one.now ∷ other.now ∷ []) }
{
    suits(model, reading, kind, one) && suits(model, reading, kind, other)
}

// Whether all three arguments suit the kind.
fn three_suit(
    model: &Model,
    reading: Reading,
    kind: ValueKind,
    one: &ConArg,
    other: &ConArg,
    last: &ConArg,
) -> bool
    requires one { HasArgument model.now one.now }
    requires other { HasArgument model.now other.now }
    requires last { HasArgument model.now last.now }
    ensures { IsTrue result ↔ All (Suits model.now reading kind) (one.now ∷ other.now ∷ last.now ∷ []) }
{
    suits(model, reading, kind, one) && both_suit(model, reading, kind, other, last)
}

// The kind of the argument, if it is a variable.
fn variable_kind(model: &Model, argument: &ConArg) -> Option<ValueKind>
    requires { HasArgument model.now argument.now }
    ensures { FindsKind model.now (argument.now ∷ []) result }
{
    match argument {
        ConArg::Var(name) => Some(model.kind_of(name)),
        ConArg::Value(_) => None,
    }
}

// The kind of the first of the two that is a variable.
fn kind_of_two(model: &Model, one: &ConArg, other: &ConArg) -> Option<ValueKind>
    requires one { HasArgument model.now one.now }
    requires other { HasArgument model.now other.now }
    ensures { FindsKind model.now (one.now ∷ other.now ∷ []) result }
{
    match variable_kind(model, one) {
        Some(kind) => Some(kind),
        None => variable_kind(model, other),
    }
}

// The kind of the first of the three that is a variable.
fn kind_of_three(model: &Model, one: &ConArg, other: &ConArg, last: &ConArg) -> Option<ValueKind>
    requires one { HasArgument model.now one.now }
    requires other { HasArgument model.now other.now }
    requires last { HasArgument model.now last.now }
    ensures { FindsKind model.now (one.now ∷ other.now ∷ last.now ∷ []) result }
{
    match variable_kind(model, one) {
        Some(kind) => Some(kind),
        None => kind_of_two(model, other, last),
    }
}

// Whether the two can be compared.
fn can_compare(model: &Model, reading: Reading, one: &ConArg, other: &ConArg) -> bool
    requires one { HasArgument model.now one.now }
    requires other { HasArgument model.now other.now }
    ensures { IsTrue result ↔ CanCompare (Suits model.now reading) (one.now ∷ other.now ∷ []) }
{
    match kind_of_two(model, one, other) {
        Some(kind) => both_suit(model, reading, kind, one, other),
        None => false,
    }
}

// Whether the two can be put in order.
fn can_order(model: &Model, reading: Reading, one: &ConArg, other: &ConArg) -> bool
    requires one { HasArgument model.now one.now }
    requires other { HasArgument model.now other.now }
    ensures { IsTrue result ↔ CanOrder (Suits model.now reading) (one.now ∷ other.now ∷ []) }
{
    match kind_of_two(model, one, other) {
        Some(kind) => is_numeric(kind) && both_suit(model, reading, kind, one, other),
        None => false,
    }
}

// Whether the three can be two numbers and their sum.
fn can_add(model: &Model, reading: Reading, one: &ConArg, other: &ConArg, sum: &ConArg) -> bool
    requires one { HasArgument model.now one.now }
    requires other { HasArgument model.now other.now }
    requires sum { HasArgument model.now sum.now }
    ensures { IsTrue result ↔ CanOrder (Suits model.now reading) (one.now ∷ other.now ∷ sum.now ∷ []) }
{
    match kind_of_three(model, one, other, sum) {
        Some(kind) => is_numeric(kind) && three_suit(model, reading, kind, one, other, sum),
        None => false,
    }
}

// Whether the argument can be a factor.
fn is_factor(model: &Model, reading: Reading, argument: &ConArg) -> bool
    ensures { IsTrue result ↔ IsFactor model.now reading argument.now }
{
    match argument {
        ConArg::Value(factor) => {
            value_suits(model, reading, ValueKind::Int, *factor) && *factor != 0
        }
        ConArg::Var(_) => false,
    }
}

// Whether the constraint takes the two arguments.
fn takes_two(model: &Model, reading: Reading, kind: Kind, one: &ConArg, other: &ConArg) -> bool
    requires one { HasArgument model.now one.now }
    requires other { HasArgument model.now other.now }
    ensures { IsTrue result ↔ Takes (Suits model.now reading) kind (one.now ∷ other.now ∷ []) }
{
    match kind {
        Kind::Eq | Kind::Neq => can_compare(model, reading, one, other),
        Kind::Lt | Kind::Leq => can_order(model, reading, one, other),
        Kind::AddEq | Kind::MulEq | Kind::TestEq | Kind::TestLeq => false,
        Kind::AllDiff | Kind::Field(_) => false,
    }
}

// Whether the constraint takes the three arguments.
fn takes_three(
    model: &Model,
    reading: Reading,
    kind: Kind,
    one: &ConArg,
    other: &ConArg,
    last: &ConArg,
) -> bool
    requires one { HasArgument model.now one.now }
    requires other { HasArgument model.now other.now }
    requires last { HasArgument model.now last.now }
    ensures { IsTrue result ↔ Takes (Suits model.now reading) kind (one.now ∷ other.now ∷ last.now ∷ []) }
{
    match kind {
        Kind::AddEq => can_add(model, reading, one, other, last),
        Kind::MulEq => is_factor(model, reading, other) && can_order(model, reading, one, last),
        Kind::TestEq => {
            suits(model, reading, ValueKind::Bool, one) && can_compare(model, reading, other, last)
        }
        Kind::TestLeq => {
            suits(model, reading, ValueKind::Bool, one) && can_order(model, reading, other, last)
        }
        Kind::Eq | Kind::Neq | Kind::Lt | Kind::Leq => false,
        Kind::AllDiff | Kind::Field(_) => false,
    }
}

/// Whether the constraint takes the arguments, each of which the model has if it is a variable.
pub fn takes(model: &Model, reading: Reading, kind: Kind, arguments: &[ConArg]) -> bool
    requires { All (HasArgument model.now) arguments.now }
    ensures { IsTrue result ↔ Takes (Suits model.now reading) kind arguments.now }
{
    match arguments {
        [one, other] => takes_two(model, reading, kind, one, other),
        [one, other, last] => takes_three(model, reading, kind, one, other, last),
        _ => false,
    }
}
