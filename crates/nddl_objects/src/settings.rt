//! The settings of a search.

ghost use Rattle.std.specs.Prelude.{◌≡◌, IfOk, OnOk};
ghost use Rattle.nddl_symbols.specs.Finding.{earliest_fault};
ghost use Rattle.nddl_construction.specs.Scene.{grounds_of, scenery_of};
ghost use Rattle.nddl_objects.specs.Settings.{are_crossed, are_wrong_settings, is_below, is_over, setting_data, setting_faults_of};

use eu_name::sequence::Sequence;
use nddl_ast::TextKind;
use nddl_ast::expression::Creation;
use nddl_construction::reading::{datum_at, note_all_unmade};
use nddl_construction::{Datum, Ground, MadeObject, Scene, fine_data};
use nddl_symbols::{Fault, kind_if, note_at};
use nddl_typeexpr::TypeKind;
use std::alloc::{AllocError, Global};

const WANTS: [Option<TypeKind>; 3] = [
    Some(TypeKind::Int),
    Some(TypeKind::Int),
    Some(TypeKind::Int),
];

fn is_below(datum: Option<Datum>, number: i32) -> bool
    ensures { result ≡ is_below datum number }
{
    match datum {
        Some(Datum::Number(value)) => value < number,
        _ => false,
    }
}

fn is_over(datum: Option<Datum>, number: i32) -> bool
    ensures { result ≡ is_over datum number }
{
    match datum {
        Some(Datum::Number(value)) => number < value,
        _ => false,
    }
}

// Whether the end isn't behind the start.
fn are_crossed(start: Option<Datum>, end: Option<Datum>) -> bool
    ensures { result ≡ are_crossed start end }
{
    match (start, end) {
        (Some(Datum::Number(start)), Some(Datum::Number(end))) => !(start < end),
        _ => false,
    }
}

// Whether the horizon or the steps are wrong.
fn are_wrong_settings(values: &[Option<Datum>]) -> bool
    ensures { result ≡ are_wrong_settings values.now }
{
    let start = datum_at(values, 0);
    let end = datum_at(values, 1);
    let steps = datum_at(values, 2);
    is_below(start, 0)
        || (are_crossed(start, end) || (is_below(steps, 1) || is_over(steps, 1_000_000)))
}

/// Reads the settings, and notes all that is wrong with what they stand for.
#[tactic(auto, using(nddl_symbols::proofs::Earliest::earliest_append))]
pub fn read_settings(
    alloc: Global,
    footing: &Ground<'_>,
    scene: &Scene<'_>,
    objects: &[MadeObject],
    creation: &Creation,
    first: &mut Option<Fault>,
) -> Result<Sequence<Option<Datum>>, AllocError>
    ensures values { IfOk result (λ values.
        values ≡ setting_data (grounds_of footing.now) (scenery_of scene.now) objects.now creation.now) }
    ensures noted { OnOk result (first.new ≡ earliest_fault first.old
        (setting_faults_of (grounds_of footing.now) (scenery_of scene.now) objects.now creation.now)) }
{
    let arguments = creation.arguments.as_slice();
    note_all_unmade(footing, scene, arguments, first);
    let values = fine_data(alloc, footing, scene, objects, &WANTS, arguments)?;
    let is_wrong = are_wrong_settings(values.as_slice());
    note_at(
        first,
        scene.decl,
        creation.class.at,
        kind_if(is_wrong, TextKind::NotInDomain),
    );
    Ok(Sequence::from_vec(values))
}
