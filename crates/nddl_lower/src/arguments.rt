//! What arguments, constraints and guards stand for.

ghost use Rattle.std.specs.Prelude.{◌≡◌, IfOk, OnOk, map};
ghost use Rattle.model_core.specs.declared.item.Term.TheVariants.{Lit};
ghost use Rattle.nddl_terms.specs.declared.stands.Stand.TheVariants.{Value};
ghost use Rattle.nddl_terms.specs.Readings.{readings_of};
ghost use Rattle.nddl_lower.specs.Arguments.{all_differ, argument, given_arguments, condition_guard, constant_stand, constraint_items, differ, differ_guard, equal_guard, truth_value, with_constraint, with_constraint_of, with_items};

use super::compared::{compared_term, constraint_terms, is_decimal_stand, stand_term};
use domain_core::kind::Kind;
use eu_name::sequence::Sequence;
use model_core::item::{Item, Term};
use model_core::rule::Guard;
use model_core::variable::ValueKind;
use nddl_ast::expression::{Constant, Expr};
use nddl_ast::statement::Condition;
use nddl_terms::growth::term_pair;
use nddl_terms::{Growth, Made, Reading, Stand, path_stand};
use std::alloc::{AllocError, Global};

/// A truth as a value.
pub fn truth_value(truth: bool) -> i32
    ensures { result ≡ truth_value truth }
{
    if truth { 1 } else { 0 }
}

// A value of this kind that is known.
fn value_stand(kind: ValueKind, value: i32) -> Stand
    ensures { result ≡ Value (Lit value) kind 0 }
{
    Stand::Value {
        term: Term::Lit(value),
        kind,
        class: 0,
    }
}

/// What stands for a value that is written out.
pub fn constant_stand(constant: Constant) -> Stand
    ensures { result ≡ constant_stand constant }
{
    match constant {
        Constant::Number(number) => value_stand(ValueKind::Int, number),
        Constant::Decimal(thousandths) => value_stand(ValueKind::Float, thousandths.0),
        Constant::Truth(truth) => value_stand(ValueKind::Bool, truth_value(truth)),
    }
}

/// What the argument stands for.
pub fn argument(
    alloc: Global,
    reading: &Reading<'_>,
    turns: &[Made],
    expr: &Expr,
    growth: &mut Growth,
) -> Result<Stand, AllocError>
    ensures grown { OnOk result (growth.new
        ≡ (argument (readings_of reading.now) turns.now expr.now growth.old).growth) }
    ensures stand { IfOk result (λ stand. stand
        ≡ (argument (readings_of reading.now) turns.now expr.now growth.old).stand) }
{
    match expr {
        Expr::Path(path) => path_stand(alloc, reading, turns, path, growth),
        Expr::Literal(literal) => Ok(constant_stand(literal.constant)),
    }
}

/// What the arguments stand for, one after another.
pub fn arguments(
    alloc: Global,
    reading: &Reading<'_>,
    turns: &[Made],
    exprs: &[Expr],
    growth: &mut Growth,
) -> Result<Sequence<Stand>, AllocError>
    ensures grown { OnOk result (growth.new
        ≡ (given_arguments (readings_of reading.now) turns.now exprs.now growth.old).growth) }
    ensures stands { IfOk result (λ stands. stands
        ≡ (given_arguments (readings_of reading.now) turns.now exprs.now growth.old).stands) }
{
    let mut stands = Sequence::new(alloc);
    for expr in exprs {
        let stand = argument(alloc, reading, turns, expr, growth)?;
        stands.push(stand)?;
    }
    Ok(stands)
}

// The term differs from each of these.
fn add_differing_from(
    alloc: Global,
    one: Term,
    others: &[Term],
    growth: &mut Growth,
) -> Result<(), AllocError>
    ensures { OnOk result (growth.new ≡ with_items (map (differ one) others.now) growth.old) }
{
    for other in others {
        let terms = term_pair(alloc, one, *other)?;
        growth.add_item(Item::Constraint(Kind::Neq, terms))?;
    }
    Ok(())
}

// Each of the terms differs from each of those behind it.
fn add_differing(alloc: Global, terms: &[Term], growth: &mut Growth) -> Result<(), AllocError>
    ensures { OnOk result (growth.new ≡ with_items (all_differ terms.now) growth.old) }
{
    for (place, term) in terms.iter().enumerate() {
        add_differing_from(alloc, *term, &terms[place + 1..], growth)?;
    }
    Ok(())
}

// A constraint with these terms.
fn add_constraint_items(
    alloc: Global,
    kind: Kind,
    terms: Sequence<Term>,
    growth: &mut Growth,
) -> Result<(), AllocError>
    ensures { OnOk result (growth.new ≡ with_items (constraint_items kind terms) growth.old) }
{
    match kind {
        Kind::AllDiff => add_differing(alloc, terms.as_slice(), growth),
        _ => growth.add_item(Item::Constraint(kind, terms)),
    }
}

/// A constraint of what stands for these.
pub fn add_constraint_of(
    alloc: Global,
    kind: Kind,
    stands: &[Stand],
    growth: &mut Growth,
) -> Result<(), AllocError>
    ensures { OnOk result (growth.new ≡ with_constraint_of kind stands.now growth.old) }
{
    let terms = constraint_terms(alloc, kind, stands)?;
    add_constraint_items(alloc, kind, terms, growth)
}

/// A constraint with these arguments.
pub fn add_constraint(
    alloc: Global,
    reading: &Reading<'_>,
    turns: &[Made],
    kind: Kind,
    exprs: &[Expr],
    growth: &mut Growth,
) -> Result<(), AllocError>
    ensures { OnOk result (growth.new
        ≡ with_constraint (readings_of reading.now) turns.now kind exprs.now growth.old) }
{
    let stands = arguments(alloc, reading, turns, exprs, growth)?;
    add_constraint_of(alloc, kind, stands.as_slice(), growth)
}

// The two are equal.
fn equal_guard(one: Stand, other: Stand) -> Guard
    ensures { result ≡ equal_guard one other }
{
    let decimal = is_decimal_stand(one) || is_decimal_stand(other);
    Guard::Equal(compared_term(decimal, one), compared_term(decimal, other))
}

// The two differ.
fn differ_guard(one: Stand, other: Stand) -> Guard
    ensures { result ≡ differ_guard one other }
{
    let decimal = is_decimal_stand(one) || is_decimal_stand(other);
    Guard::Differ(compared_term(decimal, one), compared_term(decimal, other))
}

/// What an `if` tests.
pub fn guard_of(
    alloc: Global,
    reading: &Reading<'_>,
    turns: &[Made],
    condition: &Condition,
    growth: &mut Growth,
) -> Result<Guard, AllocError>
    ensures grown { OnOk result (growth.new
        ≡ (condition_guard (readings_of reading.now) turns.now condition.now growth.old).growth) }
    ensures guard { IfOk result (λ guard. guard
        ≡ (condition_guard (readings_of reading.now) turns.now condition.now growth.old).guard) }
{
    match condition {
        Condition::Truth(expr) => {
            let stand = argument(alloc, reading, turns, expr, growth)?;
            Ok(Guard::Equal(stand_term(stand), Term::Lit(1)))
        }
        Condition::Equal(one, other) => {
            let left = argument(alloc, reading, turns, one, growth)?;
            let right = argument(alloc, reading, turns, other, growth)?;
            Ok(equal_guard(left, right))
        }
        Condition::NotEqual(one, other) => {
            let left = argument(alloc, reading, turns, one, growth)?;
            let right = argument(alloc, reading, turns, other, growth)?;
            Ok(differ_guard(left, right))
        }
    }
}
