//! Roots that nothing can be on, and globals that begin as an object of another class.

ghost use Rattle.std.specs.Prelude.{◌≡◌, IfOk, OnOk, map};
ghost use Rattle.std.specs.List.{list_any};
ghost use Rattle.nddl_symbols.specs.Finding.{earliest_fault};
ghost use Rattle.nddl_construction.specs.Scene.{grounds_of, scenery_of};
ghost use Rattle.nddl_objects.specs.Objects.{bare_scene};
ghost use Rattle.nddl_problem_check.specs.Fitness.{foreign_begun_faults, foreign_value_faults, is_void_base, is_void_class, is_void_pred, is_void_stand, outset_at, placed_stand, unfit_decl_faults, unfit_faults_from, void_root_faults};

use eu_index::NameIndex;
use eu_name::text::Text;
use model_core::variable::Base;
use nddl_ast::TextKind;
use nddl_ast::declaration::Decl;
use nddl_ast::expression::{Expr, Init};
use nddl_ast::statement::{Ask, Variable};
use nddl_construction::fitting::is_foreign_datum;
use nddl_construction::reading::fine_datum;
use nddl_construction::{Ground, MadeObject, Scene};
use nddl_symbols::{Fault, kind_if, note_at};
use nddl_terms::lexicon::{Attribute, Lexicon, as_number};
use nddl_terms::stands::{Stand, file_stand};
use nddl_typeexpr::TypeKind;
use nddl_typeexpr::base::base_kind;
use std::alloc::{AllocError, Global};

/// What is known once objects are made.
#[derive(Clone, Copy)]
pub struct Start<'a> {
    pub footing: Ground<'a>,
    pub objects: &'a [MadeObject],
    pub lexicon: &'a Lexicon,
    /// The places of names in the scope of the lexicon.
    pub scope: &'a NameIndex,
    /// The earliest of what making the objects has met that is wrong.
    pub met: Option<Fault>,
}

fn is_void_base(base: &Base) -> bool
    ensures { result ≡ is_void_base base.now }
{
    match base {
        Base::Given(_) => false,
        Base::Void => true,
    }
}

/// Whether the class has no object.
pub fn is_void_class(lexicon: &Lexicon, class: u32) -> bool
    ensures { result ≡ is_void_class lexicon.now class }
{
    lexicon.objects(class).is_empty()
}

// Whether nothing is left for one of the parameters.
fn has_void(params: &[Attribute]) -> bool
    ensures { result ≡ list_any (λ param. is_void_base param.shape.base) params.now }
{
    for param in params {
        if is_void_base(&param.shape.base) {
            return true;
        }
    }
    false
}

// Whether nothing is left for the object of a token of this predicate, or for a parameter.
fn is_void_pred(lexicon: &Lexicon, pred: u32) -> bool
    ensures { result ≡ is_void_pred lexicon.now pred }
{
    is_void_class(lexicon, lexicon.pred_class(pred)) || has_void(lexicon.params(pred))
}

fn is_void_stand(lexicon: &Lexicon, stand: Option<Stand>) -> bool
    ensures { result ≡ is_void_stand lexicon.now stand }
{
    match stand {
        Some(Stand::Root { pred, .. }) => is_void_pred(lexicon, pred),
        _ => false,
    }
}

/// What the name stands for, if it has a place in the scope. There is no memory for 2^32 names.
pub fn placed_stand(
    lexicon: &Lexicon,
    scope: &NameIndex,
    name: &Text,
) -> Result<Option<Stand>, AllocError>
    ensures { IfOk result (λ stand. stand ≡ placed_stand lexicon.now scope.now name.now) }
{
    match scope.find(name) {
        Some(place) => Ok(file_stand(lexicon, as_number(place)?)),
        None => Ok(None),
    }
}

// Notes that nothing is left for a root, if that is so and the objects are fine.
fn note_void_root(
    start: &Start<'_>,
    are_fine: bool,
    decl: usize,
    ask: &Ask,
    first: &mut Option<Fault>,
) -> Result<(), AllocError>
    ensures { OnOk result (first.new ≡ earliest_fault first.old
        (void_root_faults start.now.lexicon.now start.now.scope.now are_fine decl ask.now)) }
{
    let stand = placed_stand(start.lexicon, start.scope, &ask.label.text)?;
    let is_void = are_fine && is_void_stand(start.lexicon, stand);
    note_at(
        first,
        decl,
        ask.word.at,
        kind_if(is_void, TextKind::NotInDomain),
    );
    Ok(())
}

fn scene_of(decl: usize) -> Scene<'static>
    ensures { scenery_of result ≡ bare_scene decl }
{
    Scene {
        decl,
        formals: None,
        values: &[],
    }
}

// Notes that the value of a global of this kind is an object that isn't of the declared class, if it is.
fn note_foreign_value(
    alloc: Global,
    start: &Start<'_>,
    decl: usize,
    kind: Option<TypeKind>,
    expr: &Expr,
    first: &mut Option<Fault>,
) -> Result<(), AllocError>
    ensures { OnOk result (first.new ≡ earliest_fault first.old
        (foreign_value_faults (grounds_of start.now.footing) start.now.objects.now decl kind expr.now)) }
{
    let scene = scene_of(decl);
    let datum = fine_datum(alloc, &start.footing, &scene, start.objects, kind, expr)?;
    let is_foreign = is_foreign_datum(alloc, &start.footing, start.objects, kind, datum)?;
    note_at(
        first,
        decl,
        expr.place(),
        kind_if(is_foreign, TextKind::NotInDomain),
    );
    Ok(())
}

// Notes the same of what the variable begins as.
fn note_foreign_begun(
    alloc: Global,
    start: &Start<'_>,
    decl: usize,
    variable: &Variable,
    first: &mut Option<Fault>,
) -> Result<(), AllocError>
    ensures { OnOk result (first.new ≡ earliest_fault first.old
        (foreign_begun_faults (grounds_of start.now.footing) start.now.objects.now decl variable.now variable.now.init)) }
{
    match &variable.init {
        Some(Init::Expr(expr)) => {
            let kind = base_kind(&start.footing.basis.types, &variable.declared.base);
            note_foreign_value(alloc, start, decl, kind, expr, first)
        }
        _ => Ok(()),
    }
}

// Notes what is wrong with the declaration of this number, now that objects are made, and are fine or not.
fn note_unfit(
    alloc: Global,
    start: &Start<'_>,
    are_fine: bool,
    number: usize,
    decl: &Decl,
    first: &mut Option<Fault>,
) -> Result<(), AllocError>
    ensures { OnOk result (first.new ≡ earliest_fault first.old
        (unfit_decl_faults (outset_at start.now) are_fine number decl.now)) }
{
    match decl {
        Decl::Variable(variable) => note_foreign_begun(alloc, start, number, variable, first),
        Decl::Ask(ask) => note_void_root(start, are_fine, number, ask, first),
        _ => Ok(()),
    }
}

/// Notes the same of each of the declarations.
#[tactic(auto, using(nddl_symbols::proofs::Earliest::earliest_append))]
pub fn note_all_unfit(
    alloc: Global,
    start: &Start<'_>,
    are_fine: bool,
    decls: &[&Decl],
    first: &mut Option<Fault>,
) -> Result<(), AllocError>
    ensures { OnOk result (first.new ≡ earliest_fault first.old
        (unfit_faults_from (outset_at start.now) are_fine 0 (map (λ decl. decl.now) decls.now))) }
{
    for (number, decl) in decls.iter().enumerate() {
        note_unfit(alloc, start, are_fine, number, *decl, first)?;
    }
    Ok(())
}
