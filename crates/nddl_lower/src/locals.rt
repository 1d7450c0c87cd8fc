//! What the locals of a rule stand for.

ghost use Rattle.std.specs.Prelude.{◌≡◌, IfOk, OnOk};
ghost use Rattle.nddl_terms.specs.Readings.{readings_of};
ghost use Rattle.nddl_lower.specs.Locals.{next_local, with_begun, with_declared, with_text_local};

use super::arguments::argument;
use super::compared::compared_terms;
use super::types::type_shape;
use domain_core::kind::Kind;
use model_core::item::{Item, Term};
use nddl_ast::expression::Init;
use nddl_ast::statement::Variable;
use nddl_terms::growth::unnamed;
use nddl_terms::{Growth, Made, Reading, Shape, Stand};
use std::alloc::{AllocError, Global};

// The local of this shape that the text declares there. Answers what stands for it.
fn add_declared(
    alloc: Global,
    at: u32,
    shape: &Shape,
    growth: &mut Growth,
) -> Result<Stand, AllocError>
    ensures grown { OnOk result (growth.new ≡ with_declared at shape.now growth.old) }
    ensures stand { IfOk result (λ stand. stand ≡ next_local shape.now growth.old) }
{
    let local = unnamed(alloc, shape)?;
    let number = growth.add_local(local)?;
    let stand = Stand::Value {
        term: Term::Local(number),
        kind: shape.kind,
        class: shape.class,
    };
    growth.named.push(Made { at, stand })?;
    Ok(stand)
}

// The local of this shape; if it begins as an expression, with the constraint that it equals that.
fn add_begun(
    alloc: Global,
    reading: &Reading<'_>,
    turns: &[Made],
    at: u32,
    shape: &Shape,
    init: &Option<Init>,
    growth: &mut Growth,
) -> Result<(), AllocError>
    ensures { OnOk result (growth.new
        ≡ with_begun (readings_of reading.now) turns.now at shape.now init.now growth.old) }
{
    match init {
        Some(Init::Expr(expr)) => {
            let given = argument(alloc, reading, turns, expr, growth)?;
            let local = add_declared(alloc, at, shape, growth)?;
            let terms = compared_terms(alloc, &[local, given])?;
            growth.add_item(Item::Constraint(Kind::Eq, terms))
        }
        _ => {
            add_declared(alloc, at, shape, growth)?;
            Ok(())
        }
    }
}

/// A local of the text.
pub fn add_variable(
    alloc: Global,
    reading: &Reading<'_>,
    turns: &[Made],
    variable: &Variable,
    growth: &mut Growth,
) -> Result<(), AllocError>
    ensures { OnOk result (growth.new
        ≡ with_text_local (readings_of reading.now) turns.now variable.now growth.old) }
{
    let shape = type_shape(alloc, reading, turns, &*growth, &variable.declared)?;
    add_begun(
        alloc,
        reading,
        turns,
        variable.name.at,
        &shape,
        &variable.init,
        growth,
    )
}
