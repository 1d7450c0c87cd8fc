//! Constraints outside of rules.

ghost use Rattle.std.specs.Prelude.{◌≡◌, IfOk, OnOk};
ghost use Rattle.nddl_instance.specs.Outside.{outsides_of};
ghost use Rattle.nddl_instance.specs.Constraints.{outer_argument, outer_arguments, with_outer_constraint, with_outer_word};

use crate::Outside;
use crate::outside::path_stand;
use domain_core::kind::Kind;
use eu_name::sequence::Sequence;
use eu_name::text::Text;
use nddl_ast::expression::Expr;
use nddl_lower::arguments::{add_constraint_of, constant_stand};
use nddl_rule_check::words::constraint_named;
use nddl_terms::{Growth, Stand};
use std::alloc::{AllocError, Global};

/// What the argument stands for.
pub fn argument(
    alloc: Global,
    outside: &Outside<'_>,
    expr: &Expr,
    growth: &mut Growth,
) -> Result<Stand, AllocError>
    ensures grown { OnOk result (growth.new ≡ (outer_argument (outsides_of outside.now) expr.now growth.old).growth) }
    ensures stand { IfOk result (λ stand. stand
        ≡ (outer_argument (outsides_of outside.now) expr.now growth.old).stand) }
{
    match expr {
        Expr::Path(path) => path_stand(alloc, outside, path, growth),
        Expr::Literal(literal) => Ok(constant_stand(literal.constant)),
    }
}

// What the arguments stand for, one after another.
fn arguments(
    alloc: Global,
    outside: &Outside<'_>,
    exprs: &[Expr],
    growth: &mut Growth,
) -> Result<Sequence<Stand>, AllocError>
    ensures grown { OnOk result (growth.new
        ≡ (outer_arguments (outsides_of outside.now) exprs.now growth.old).growth) }
    ensures stands { IfOk result (λ stands. stands
        ≡ (outer_arguments (outsides_of outside.now) exprs.now growth.old).stands) }
{
    let mut stands = Sequence::new(alloc);
    for expr in exprs {
        let stand = argument(alloc, outside, expr, growth)?;
        stands.push(stand)?;
    }
    Ok(stands)
}

// A constraint with these arguments.
fn add_outer_constraint(
    alloc: Global,
    outside: &Outside<'_>,
    kind: Kind,
    exprs: &[Expr],
    growth: &mut Growth,
) -> Result<(), AllocError>
    ensures { OnOk result (growth.new ≡ with_outer_constraint (outsides_of outside.now) kind exprs.now growth.old) }
{
    let stands = arguments(alloc, outside, exprs, growth)?;
    add_constraint_of(alloc, kind, stands.as_slice(), growth)
}

/// Adds the constraint that the word names, with these arguments, or nothing if it names none.
pub fn add_word(
    alloc: Global,
    outside: &Outside<'_>,
    word: &Text,
    exprs: &[Expr],
    growth: &mut Growth,
) -> Result<(), AllocError>
    ensures { OnOk result (growth.new ≡ with_outer_word (outsides_of outside.now) word.now exprs.now growth.old) }
{
    match constraint_named(word) {
        Some(kind) => add_outer_constraint(alloc, outside, kind, exprs, growth),
        None => Ok(()),
    }
}
