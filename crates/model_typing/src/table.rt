//! Of which classes the variables of a model are.

ghost use Rattle.std.specs.Prelude.{◌≡◌, ◌↔◌, ◌<◌, ℕ, ℤ, IfOk};
ghost use Rattle.domain_core.specs.Domain.{Has, IsDomain, IsNth};
ghost use Rattle.model_core.specs.Kinds.{AreObjectsOf, IsObjectOf};
ghost use Rattle.model_typing.specs.Ground.{AreClasses, AreClassParents};
ghost use Rattle.model_typing.specs.Lines.{AreLinesOf, ArePredLines, HasLine, IsLine, IsOnLine};

use super::joining::joined;
use super::line::Line;
use domain_core::domain::Dom;
use eu_forest::Parents;
use model_core::class::Pred;
use model_core::model::Model;
use model_core::variable::{Base, ValueKind, VarDecl};
use std::alloc::{AllocError, Global};

/// What a model's classes extend, and of which classes its globals and parameters are. It is found once, since many
/// constraints access fields of one variable, which may be any of thousands of objects.
#[derive(Drop)]
pub struct Classes {
    pub parents: Parents,
    pub globals: Vec<Line>,
    /// Those of the parameters of each predicate.
    pub params: Vec<Vec<Line>>,
}

// The classes of the line of which the value at this place of the domain is an object.
fn joined_at(model: &Model, parents: &Parents, line: Line, domain: &Dom, place: u32) -> Line
    requires { AreClassParents model.now parents.now }
    ensures { (class : ℕ) → (IsOnLine model.now line class × ((value : ℤ) → IsNth domain.now place value → IsObjectOf model.now class value))
        ↔ IsOnLine model.now result class }
{
    match domain.nth(place) {
        Some(value) => joined(model, parents, line, value),
        None => line,
    }
}

// The classes of which all that the domain has are objects.
fn domain_line(model: &Model, parents: &Parents, domain: &Dom) -> Line
    requires { AreClassParents model.now parents.now }
    ensures { IsLine model.now result (λ class. (value : ℤ) → Has domain.now value → IsObjectOf model.now class value) }
{
    let mut line = Line::Every;
    for place in 0..domain.count() {
        line = joined_at(model, parents, line, domain, place);
    }
    line
}

// The classes of which all that the base has are objects: all classes, where it is void.
fn base_line(model: &Model, parents: &Parents, base: &Base) -> Line
    requires { AreClassParents model.now parents.now }
    ensures { IsLine model.now result (λ class. AreObjectsOf model.now class base.now) }
{
    match base {
        Base::Given(domain) => domain_line(model, parents, domain),
        Base::Void => Line::Every,
    }
}

// The classes of which all that the variable may be are objects, if it is an object at all.
fn variable_line(model: &Model, parents: &Parents, variable: &VarDecl) -> Line
    requires { AreClassParents model.now parents.now }
    ensures { HasLine model.now variable.now result }
{
    match variable.kind {
        ValueKind::Object => base_line(model, parents, &variable.base),
        ValueKind::Int => Line::Nothing,
        ValueKind::Float => Line::Nothing,
        ValueKind::Bool => Line::Nothing,
        ValueKind::Enum(_) => Line::Nothing,
    }
}

/// The lines of the variables.
pub fn variable_lines(
    alloc: Global,
    model: &Model,
    parents: &Parents,
    variables: &[VarDecl],
) -> Result<Vec<Line>, AllocError>
    requires { AreClassParents model.now parents.now }
    ensures { IfOk result (λ lines. AreLinesOf model.now variables.now lines.items) }
{
    let mut lines = Vec::new(alloc);
    for variable in variables {
        lines.push(variable_line(model, parents, variable))?;
    }
    Ok(lines)
}

// The lines of the parameters of the predicates.
fn pred_lines(
    alloc: Global,
    model: &Model,
    parents: &Parents,
    preds: &[Pred],
) -> Result<Vec<Vec<Line>>, AllocError>
    requires { AreClassParents model.now parents.now }
    ensures { IfOk result (λ table. ArePredLines model.now preds.now table.items) }
{
    let mut table = Vec::new(alloc);
    for pred in preds {
        table.push(variable_lines(alloc, model, parents, pred.params.as_slice())?)?;
    }
    Ok(table)
}

impl Classes {
    /// Those of a model whose classes extend these.
    pub fn of(alloc: Global, model: &Model, parents: Parents) -> Result<Classes, AllocError>
        requires { AreClassParents model.now parents }
        ensures { IfOk result (λ classes. AreClasses model.now classes) }
    {
        let globals = variable_lines(alloc, model, &parents, model.problem.globals.as_slice())?;
        let params = pred_lines(alloc, model, &parents, model.preds.as_slice())?;
        Ok(Classes {
            parents,
            globals,
            params,
        })
    }
}
