//! The model of a program with which nothing is wrong.

ghost use Rattle.std.specs.Prelude.{◌≡◌, ◌↔◌, ⊤, Err, IfOk, IsTrue, MatchResult, OnOk};
ghost use Rattle.model_core.specs.Lawful.{IsLawful};
ghost use Rattle.nddl_instance.specs.Posed.{posed_problem, posing_of};
ghost use Rattle.nddl_problem.specs.Compiled.{compiled_model, posing_known};
ghost use Rattle.nddl_problem.specs.Known.{objects_known};
ghost use Rattle.nddl_problem.specs.Outlined.{IsOutlined, known_of};

use super::outline::Outline;
use eu_name::sequence::Sequence;
use model_core::class::Object;
use model_core::model::{Model, Problem};
use model_lawful::is_lawful;
use nddl_instance::{Posing, modelled_classes, modelled_preds, problem_of};
use nddl_objects::modelled_objects;
use nddl_types::enums_of;
use nddl_unroll::unroll;
use std::alloc::{AllocError, Global};

// A model without anything.
fn empty_model(alloc: Global) -> Model {
    Model {
        enums: Sequence::new(alloc),
        classes: Sequence::new(alloc),
        objects: Sequence::new(alloc),
        preds: Sequence::new(alloc),
        rules: Sequence::new(alloc),
        problem: Problem {
            start: 0,
            end: 0,
            steps: 0,
            roots: Sequence::new(alloc),
            globals: Sequence::new(alloc),
            items: Sequence::new(alloc),
            decisions: Sequence::new(alloc),
        },
    }
}

// The objects of the program as the model has them.
fn list_objects(alloc: Global, outline: &Outline<'_>) -> Result<Sequence<Object>, AllocError>
    requires { IsOutlined outline.now }
    ensures { IfOk result (λ objects. objects ≡ objects_known (known_of outline.now)) }
{
    let sources = &outline.premises.sources;
    modelled_objects(
        alloc,
        &sources.basis,
        sources.numbers,
        outline.table.classes.as_slice(),
        outline.premises.objects,
    )
}

// What the problem is made of.
fn make_posing<'a>(outline: &'a Outline<'a>, objects: &'a [Object]) -> Posing<'a>
    requires outlined { IsOutlined outline.now }
    requires objects { objects.now ≡ objects_known (known_of outline.now) }
    ensures { posing_of result ≡ posing_known (known_of outline.now) }
{
    Posing {
        premises: outline.premises,
        lexicon: outline.lexicon,
        objects,
        scope: outline.scope,
        files: outline.program.files,
        sites: outline.program.sites,
        settings: outline.made.settings.as_slice(),
    }
}

// The problem, where these are the objects.
fn make_problem<'a>(
    alloc: Global,
    outline: &'a Outline<'a>,
    objects: &'a [Object],
) -> Result<Problem, AllocError>
    requires outlined { IsOutlined outline.now }
    requires objects { objects.now ≡ objects_known (known_of outline.now) }
    ensures { IfOk result (λ problem. problem ≡ posed_problem (posing_known (known_of outline.now))) }
{
    problem_of(alloc, &make_posing(outline, objects))
}

// Fills the model.
fn fill_model(alloc: Global, outline: &Outline<'_>, model: &mut Model) -> Result<(), AllocError>
    requires { IsOutlined outline.now }
    ensures { OnOk result (model.new ≡ compiled_model (known_of outline.now)) }
{
    let basis = &outline.premises.sources.basis;
    model.enums = enums_of(alloc, basis.decls)?;
    model.classes = modelled_classes(alloc, outline.lexicon, outline.table.classes.as_slice())?;
    model.preds = modelled_preds(
        alloc,
        outline.lexicon,
        outline.table.preds.as_slice(),
        outline.trees,
    )?;
    model.objects = list_objects(alloc, outline)?;
    let rules = unroll(
        alloc,
        outline.lexicon,
        model.objects.as_slice(),
        outline.trees,
    )?;
    model.rules = Sequence::from_vec(rules);
    model.problem = make_problem(alloc, &*outline, model.objects.as_slice())?;
    Ok(())
}

// The model, if it is filled and lawful.
fn keep_lawful(lawful: Result<bool, AllocError>, model: Model) -> Result<Model, AllocError>
    ensures { MatchResult lawful
        (λ answer. MatchResult result (λ same. same ≡ model × IsTrue answer) (λ fault. ⊤))
        (λ fault. result ≡ Err fault) }
{
    match lawful {
        Ok(true) => Ok(model),
        Ok(false) => Err(AllocError),
        Err(fault) => Err(fault),
    }
}

// Whether it is, once it is filled.
fn is_filled_lawful(
    alloc: Global,
    filled: Result<(), AllocError>,
    model: &Model,
) -> Result<bool, AllocError>
    ensures { MatchResult filled (λ _. IfOk result (λ answer. IsTrue answer ↔ IsLawful model.now)) (λ fault. result ≡ Err fault) }
{
    filled?;
    is_lawful(alloc, model)
}

/// The model of the program. It is tested for being lawful, so that whoever takes it need not ask; there is no memory for
/// one that isn't.
pub fn make_model(alloc: Global, outline: &Outline<'_>) -> Result<Model, AllocError>
    requires { IsOutlined outline.now }
    ensures { IfOk result (λ model. (model ≡ compiled_model (known_of outline.now)) × IsLawful model) }
{
    let mut model = empty_model(alloc);
    let filled = fill_model(alloc, outline, &mut model);
    let lawful = is_filled_lawful(alloc, filled, &model);
    keep_lawful(lawful, model)
}
