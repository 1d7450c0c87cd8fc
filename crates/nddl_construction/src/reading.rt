//! What values stand for, where objects are made one after another.

ghost use Rattle.std.specs.Prelude.{◌≡◌, IfOk, slice_get};
ghost use Rattle.nddl_symbols.specs.Finding.{earliest_fault};
ghost use Rattle.nddl_resolve.specs.Seen.{seen_in};
ghost use Rattle.nddl_constructors.specs.Formals.{formal_number};
ghost use Rattle.nddl_construction.specs.Reading.{all_unmade_faults, data_behind, datum_at, datum_behind, entry_datum, expr_datum, fine_data, fine_datum, first_datum, is_unmade, is_unmade_meaning, is_unmade_object, is_unmade_sort, is_well_written, literal_datum, meaning_datum, named_datum, path_datum, sort_datum, unmade_faults};
ghost use Rattle.nddl_construction.specs.Scene.{grounds_of, scenery_of};

use super::made::{Datum, Ground, MadeObject, NamedObject, Scene};
use eu_name::text::Text;
use nddl_ast::TextKind;
use nddl_ast::expression::{Constant, Expr};
use nddl_ast::name::{Name, Path};
use nddl_constructors::Formals;
use nddl_constructors::constants::is_understood;
use nddl_constructors::formals::around_formals;
use nddl_constructors::wanted::wanted_at;
use nddl_resolve::expr_denoted;
use nddl_symbols::{Fault, Meaning, Sort, kind_if, note_at};
use nddl_typeexpr::TypeKind;
use std::alloc::{AllocError, Global};

// What the name stands for, if it is that of an object which is made.
fn named_datum(named_object: Option<NamedObject>) -> Option<Datum>
    ensures { result ≡ named_datum named_object }
{
    match named_object {
        Some(NamedObject::Made(datum)) => datum,
        _ => None,
    }
}

/// The object of the name of this number.
pub fn named_object_at(named_objects: &[NamedObject], entry: usize) -> Option<NamedObject>
    ensures { result ≡ slice_get named_objects.now entry }
{
    Some(*named_objects.get(entry)?)
}

// What the name of this number and sort stands for.
fn sort_datum(named_objects: &[NamedObject], entry: usize, sort: Sort) -> Option<Datum>
    ensures { result ≡ sort_datum named_objects.now entry sort }
{
    match sort {
        Sort::Member { .. } => Some(Datum::Member(entry)),
        Sort::Object => named_datum(named_object_at(named_objects, entry)),
        _ => None,
    }
}

// What the name of this number stands for.
fn entry_datum(footing: &Ground<'_>, entry: usize) -> Option<Datum>
    ensures { result ≡ entry_datum (grounds_of footing.now) entry }
{
    let declared = footing.basis.types.scope.names().get(entry)?;
    sort_datum(footing.named_objects, entry, declared.sort)
}

fn meaning_datum(footing: &Ground<'_>, meaning: Option<Meaning>) -> Option<Datum>
    ensures { result ≡ meaning_datum (grounds_of footing.now) meaning }
{
    match meaning {
        Some(Meaning::Entry(entry)) => entry_datum(footing, entry),
        _ => None,
    }
}

// The number of the formal of this name.
fn formal_number(formals: Option<&Formals>, name: &Text) -> Option<usize>
    ensures { result ≡ formal_number (seen_in formals.entry) name.now }
{
    match formals {
        Some(formals) => formals.number(name),
        None => None,
    }
}

/// The value of this number, if there is one.
pub fn datum_at(values: &[Option<Datum>], number: usize) -> Option<Datum>
    ensures { result ≡ datum_at values.now number }
{
    *values.get(number)?
}

// What the name stands for at the front of a path.
fn first_datum(footing: &Ground<'_>, scene: &Scene<'_>, name: &Text) -> Option<Datum>
    ensures { result ≡ first_datum (grounds_of footing.now) (scenery_of scene.now) name.now }
{
    match formal_number(scene.formals, name) {
        Some(number) => datum_at(scene.values, number),
        None => meaning_datum(footing, footing.basis.types.scope.meaning(name)),
    }
}

// The value of the field of this name of an object.
fn datum_behind(objects: &[MadeObject], datum: Option<Datum>, name: &Name) -> Option<Datum>
    ensures { result ≡ datum_behind objects.now datum name.now }
{
    match datum {
        Some(Datum::Object(number)) => match objects.get(number) {
            Some(object) => object.fields.datum(&name.text),
            None => None,
        },
        _ => None,
    }
}

// That of the last of these names.
fn data_behind(objects: &[MadeObject], begin: Option<Datum>, names: &[Name]) -> Option<Datum>
    ensures { result ≡ data_behind objects.now begin names.now }
{
    let mut here = begin;
    for name in names {
        here = datum_behind(objects, here, name);
    }
    here
}

fn path_datum(
    footing: &Ground<'_>,
    scene: &Scene<'_>,
    objects: &[MadeObject],
    path: &Path,
) -> Option<Datum>
    ensures { result ≡ path_datum (grounds_of footing.now) (scenery_of scene.now) objects.now path.now }
{
    let begin = first_datum(footing, scene, &path.first.text);
    data_behind(objects, begin, path.rest.as_slice())
}

// What a constant that is written out stands for, where this kind may be wanted.
fn literal_datum(wanted: Option<TypeKind>, constant: Constant) -> Option<Datum>
    ensures { result ≡ literal_datum wanted constant }
{
    match (wanted, constant) {
        (Some(TypeKind::Float), constant) => Some(Datum::Decimal(constant.decimal()?)),
        (_, Constant::Number(number)) => Some(Datum::Number(number)),
        (_, Constant::Decimal(thousandths)) => Some(Datum::Decimal(thousandths.0)),
        (_, Constant::Truth(truth)) => Some(Datum::Truth(truth)),
    }
}

fn expr_datum(
    footing: &Ground<'_>,
    scene: &Scene<'_>,
    objects: &[MadeObject],
    wanted: Option<TypeKind>,
    expr: &Expr,
) -> Option<Datum>
    ensures { result ≡ expr_datum (grounds_of footing.now) (scenery_of scene.now) objects.now wanted expr.now }
{
    match expr {
        Expr::Path(path) => path_datum(footing, scene, objects, path),
        Expr::Literal(literal) => literal_datum(wanted, literal.constant),
    }
}

// Whether nothing is wrong with the text of a value where this kind is wanted.
fn is_well_written(
    alloc: Global,
    footing: &Ground<'_>,
    scene: &Scene<'_>,
    wanted: Option<TypeKind>,
    expr: &Expr,
) -> Result<bool, AllocError>
    ensures { IfOk result (λ so. so ≡ is_well_written (grounds_of footing.now) (scenery_of scene.now) wanted expr.now) }
{
    let around = around_formals(scene.formals);
    let found = expr_denoted(alloc, &footing.basis, &around, expr)?;
    Ok(is_understood(wanted, expr, found))
}

/// What a value stands for where this kind is wanted, unless something is wrong with it as it is written.
#[tactic(auto, unfolding(crate::specs::Reading::fine_datum))]
pub fn fine_datum(
    alloc: Global,
    footing: &Ground<'_>,
    scene: &Scene<'_>,
    objects: &[MadeObject],
    wanted: Option<TypeKind>,
    expr: &Expr,
) -> Result<Option<Datum>, AllocError>
    ensures { IfOk result (λ datum.
        datum ≡ fine_datum (grounds_of footing.now) (scenery_of scene.now) objects.now wanted expr.now) }
{
    if is_well_written(alloc, footing, scene, wanted, expr)? {
        Ok(expr_datum(footing, scene, objects, wanted, expr))
    } else {
        Ok(None)
    }
}

/// What arguments stand for where these kinds are wanted.
pub fn fine_data(
    alloc: Global,
    footing: &Ground<'_>,
    scene: &Scene<'_>,
    objects: &[MadeObject],
    wants: &[Option<TypeKind>],
    exprs: &[Expr],
) -> Result<Vec<Option<Datum>>, AllocError>
    ensures { IfOk result (λ found.
        found.items ≡ fine_data (grounds_of footing.now) (scenery_of scene.now) objects.now wants.now 0 exprs.now) }
{
    let mut found = Vec::new(alloc);
    for (number, expr) in exprs.iter().enumerate() {
        let wanted = wanted_at(wants, number);
        let datum = fine_datum(alloc, footing, scene, objects, wanted, expr)?;
        found.push(datum)?;
    }
    Ok(found)
}

fn is_unmade_object(named_object: Option<NamedObject>) -> bool
    ensures { result ≡ is_unmade_object named_object }
{
    match named_object {
        Some(NamedObject::Unmade) => true,
        _ => false,
    }
}

fn is_unmade_sort(named_objects: &[NamedObject], entry: usize, sort: Sort) -> bool
    ensures { result ≡ is_unmade_sort named_objects.now entry sort }
{
    match sort {
        Sort::Object => is_unmade_object(named_object_at(named_objects, entry)),
        _ => false,
    }
}

// Whether it is the name of an object that isn't made by now.
fn is_unmade_meaning(footing: &Ground<'_>, meaning: Option<Meaning>) -> bool
    ensures { result ≡ is_unmade_meaning (grounds_of footing.now) meaning }
{
    match meaning {
        Some(Meaning::Entry(entry)) => match footing.basis.types.scope.names().get(entry) {
            Some(declared) => is_unmade_sort(footing.named_objects, entry, declared.sort),
            None => false,
        },
        _ => false,
    }
}

// Whether a value names such an object at its front.
fn is_unmade(footing: &Ground<'_>, scene: &Scene<'_>, expr: &Expr) -> bool
    ensures { result ≡ is_unmade (grounds_of footing.now) (scenery_of scene.now) expr.now }
{
    match expr {
        Expr::Path(path) => {
            let name = &path.first.text;
            if formal_number(scene.formals, name).is_some() {
                false
            } else {
                is_unmade_meaning(footing, footing.basis.types.scope.meaning(name))
            }
        }
        Expr::Literal(_) => false,
    }
}

/// Notes that a value names an object that isn't there yet, if it does.
pub fn note_unmade(footing: &Ground<'_>, scene: &Scene<'_>, expr: &Expr, first: &mut Option<Fault>)
    ensures { first.new ≡ earliest_fault first.old
        (unmade_faults (grounds_of footing.now) (scenery_of scene.now) expr.now) }
{
    let is_unmade = is_unmade(footing, scene, expr);
    note_at(
        first,
        scene.decl,
        expr.place(),
        kind_if(is_unmade, TextKind::Unknown),
    );
}

/// Notes the same of each of the arguments.
#[tactic(auto, using(nddl_symbols::proofs::Earliest::earliest_append))]
pub fn note_all_unmade(
    footing: &Ground<'_>,
    scene: &Scene<'_>,
    exprs: &[Expr],
    first: &mut Option<Fault>,
)
    ensures { first.new ≡ earliest_fault first.old
        (all_unmade_faults (grounds_of footing.now) (scenery_of scene.now) exprs.now) }
{
    for expr in exprs {
        note_unmade(footing, scene, expr, first);
    }
}
