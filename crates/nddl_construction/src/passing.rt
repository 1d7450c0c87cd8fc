//! Which constructors run where an object is made, and which values each of them is passed.

ghost use Rattle.std.specs.Prelude.{◌≡◌, ◌++◌, IfOk, None, OnOk, Some};
ghost use Rattle.std.specs.Option.{option_copied, option_map_or};
ghost use Rattle.nddl_symbols.specs.Finding.{earliest_fault};
ghost use Rattle.nddl_hierarchy.specs.Facts.{facts_of};
ghost use Rattle.nddl_construction.specs.Reading.{fine_data};
ghost use Rattle.nddl_construction.specs.Scene.{grounds_of, scenery_of};
ghost use Rattle.nddl_construction.specs.Builders.{AreBuilders, IsBuilderAt};
ghost use Rattle.nddl_construction.specs.Classes.{constructor_sets};
ghost use Rattle.nddl_construction.specs.Passing.{constructor_scene, data_above, has_foreign_from, is_foreign_formal, passed_above, passed_down, passed_from, passed_here, passing_faults, read_faults, super_arguments, super_data};

use super::builders::{Builder, Builders};
use super::classes::{building_up, constructor_formals, constructor_sets};
use super::handing::super_arguments;
use crate::reading::{datum_at, fine_data, note_all_unmade};
use crate::{Datum, Ground, MadeObject, Scene, is_foreign_datum};
use eu_name::sequence::Sequence;
use nddl_ast::TextKind;
use nddl_ast::declaration::Typed;
use nddl_ast::expression::Expr;
use nddl_hierarchy::Basis;
use nddl_symbols::{Fault, Meaning, Place, kind_if, note_at};
use nddl_typeexpr::base::base_kind;
use std::alloc::{AllocError, Global};

/// A class with what it is passed where an object of it, or of one under it, is made.
#[derive(Drop)]
pub struct Passed {
    pub class: Meaning,
    pub values: Sequence<Option<Datum>>,
}

/// A constructor that is passed values: the number of its class, what is found of it, and the values.
#[derive(Clone, Copy)]
pub struct Invocation<'a> {
    pub entry: usize,
    pub builder: &'a Builder<'a>,
    pub values: &'a [Option<Datum>],
}

impl<'a> Invocation<'a> {
    /// The scene of the constructor's body.
    pub fn scene(&self) -> Scene<'a>
        ensures { scenery_of result ≡ record {
          decl = self.now.builder.now.decl;
          formals = self.now.builder.now.formals;
          values = self.now.values.now;
        } }
    {
        let builder = self.builder;
        Scene::in_body(builder.decl, &builder.formals, self.values)
    }
}

// What the arguments stand for that a constructor hands on.
fn handed_data(
    alloc: Global,
    footing: &Ground<'_>,
    scene: &Scene<'_>,
    objects: &[MadeObject],
    builder: &Builder<'_>,
) -> Result<Option<Sequence<Option<Datum>>>, AllocError>
    ensures { IfOk result (λ found. found ≡ option_map_or (λ arguments. Some (fine_data (grounds_of footing.now)
        (scenery_of scene.now) objects.now builder.now.wants.items 0 arguments)) (option_copied builder.now.handed) None) }
{
    match builder.handed {
        Some(arguments) => {
            let wants = builder.wants.as_slice();
            let found = fine_data(alloc, footing, scene, objects, wants, arguments)?;
            Ok(Some(Sequence::from_vec(found)))
        }
        None => Ok(None),
    }
}

// The values that the constructor passes on.
fn super_data(
    alloc: Global,
    footing: &Ground<'_>,
    objects: &[MadeObject],
    invocation: &Invocation<'_>,
) -> Result<Option<Sequence<Option<Datum>>>, AllocError>
    requires { IsBuilderAt (facts_of footing.now.basis) invocation.now.entry (Some invocation.now.builder.now) }
    ensures { IfOk result (λ found. found ≡ super_data (grounds_of footing.now) objects.now invocation.now.entry
        invocation.now.values.now invocation.now.builder.now.constructor.now) }
{
    let scene = invocation.scene();
    handed_data(alloc, footing, &scene, objects, invocation.builder)
}

fn copied(alloc: Global, values: &[Option<Datum>]) -> Result<Sequence<Option<Datum>>, AllocError>
    ensures { IfOk result (λ copy. copy ≡ values.now) }
{
    let mut copy = Sequence::new(alloc);
    for value in values {
        copy.push(*value)?;
    }
    Ok(copy)
}

// What is passed to what the class extends, where it is passed these values.
fn data_above(
    alloc: Global,
    footing: &Ground<'_>,
    builders: &Builders<'_>,
    objects: &[MadeObject],
    values: &[Option<Datum>],
    class: Meaning,
) -> Result<Option<Sequence<Option<Datum>>>, AllocError>
    requires { AreBuilders (facts_of footing.now.basis) builders.now }
    ensures { IfOk result (λ found. found ≡ data_above (grounds_of footing.now) objects.now values.now class) }
{
    match class {
        Meaning::BuiltIn(_) => Ok(None),
        Meaning::Entry(entry) => match builders.find(entry) {
            Some(builder) => {
                let invocation = Invocation {
                    entry,
                    builder,
                    values,
                };
                super_data(alloc, footing, objects, &invocation)
            }
            None => Ok(Some(copied(alloc, values)?)),
        },
    }
}

// What is passed to what the class extends: nothing, where nothing is passed to the class.
fn passed_above(
    alloc: Global,
    footing: &Ground<'_>,
    builders: &Builders<'_>,
    objects: &[MadeObject],
    class: Meaning,
    values: &Option<Sequence<Option<Datum>>>,
) -> Result<Option<Sequence<Option<Datum>>>, AllocError>
    requires { AreBuilders (facts_of footing.now.basis) builders.now }
    ensures { IfOk result (λ found. found ≡ passed_above (grounds_of footing.now) objects.now class values.now) }
{
    match values {
        Some(values) => data_above(alloc, footing, builders, objects, values.as_slice(), class),
        None => Ok(None),
    }
}

// Puts the class with what it is passed at the end, if it has a constructor and is passed anything.
fn push_passed(
    basis: &Basis<'_>,
    builders: &Builders<'_>,
    class: Meaning,
    values: Option<Sequence<Option<Datum>>>,
    found: &mut Vec<Passed>,
) -> Result<(), AllocError>
    requires { AreBuilders (facts_of basis.now) builders.now }
    ensures { OnOk result (found.new.items ≡ found.old.items ++ passed_here (facts_of basis.now) class values) }
{
    match values {
        Some(values) => push_building(basis, builders, class, values, found),
        None => Ok(()),
    }
}

// Puts the class with these values at the end, if it has a constructor.
fn push_building(
    basis: &Basis<'_>,
    builders: &Builders<'_>,
    class: Meaning,
    values: Sequence<Option<Datum>>,
    found: &mut Vec<Passed>,
) -> Result<(), AllocError>
    requires { AreBuilders (facts_of basis.now) builders.now }
    ensures { OnOk result (found.new.items ≡ found.old.items ++ passed_here (facts_of basis.now) class (Some values)) }
{
    if builders.is_building(basis, class) {
        found.push(Passed { class, values })?;
    }
    Ok(())
}

// The classes of the line that have a constructor with what each is passed, where the first of the line is passed these
// values.
fn passed_from(
    alloc: Global,
    footing: &Ground<'_>,
    builders: &Builders<'_>,
    objects: &[MadeObject],
    line: &[Meaning],
    values: Sequence<Option<Datum>>,
) -> Result<Vec<Passed>, AllocError>
    requires { AreBuilders (facts_of footing.now.basis) builders.now }
    ensures { IfOk result (λ found.
        found.items ≡ passed_from (grounds_of footing.now) objects.now line.now (Some values)) }
{
    let mut found = Vec::new(alloc);
    let mut here = Some(values);
    for class in line {
        let next = passed_above(alloc, footing, builders, objects, *class, &here)?;
        push_passed(&footing.basis, builders, *class, here, &mut found)?;
        here = next;
    }
    Ok(found)
}

/// The classes of an object of the class whose constructors run, with what each is passed, where these are the arguments; the
/// topmost first, as they run.
pub fn passed_down(
    alloc: Global,
    footing: &Ground<'_>,
    builders: &Builders<'_>,
    objects: &[MadeObject],
    class: Meaning,
    values: &[Option<Datum>],
) -> Result<Vec<Passed>, AllocError>
    requires { AreBuilders (facts_of footing.now.basis) builders.now }
    ensures { IfOk result (λ found.
        found.items ≡ passed_down (grounds_of footing.now) objects.now class values.now) }
{
    let line = building_up(alloc, &footing.basis, class)?;
    let values = copied(alloc, values)?;
    let mut found = passed_from(alloc, footing, builders, objects, line.as_slice(), values)?;
    found.reverse();
    Ok(found)
}

// Whether a formal is passed an object of another class than its own.
fn is_foreign_formal(
    alloc: Global,
    footing: &Ground<'_>,
    objects: &[MadeObject],
    values: &[Option<Datum>],
    number: usize,
    typed: &Typed,
) -> Result<bool, AllocError>
    ensures { IfOk result (λ foreign.
        foreign ≡ is_foreign_formal (grounds_of footing.now) objects.now values.now number typed.now) }
{
    let kind = base_kind(&footing.basis.types, &typed.declared.base);
    is_foreign_datum(alloc, footing, objects, kind, datum_at(values, number))
}

// Whether one of the formals is.
fn has_foreign(
    alloc: Global,
    footing: &Ground<'_>,
    objects: &[MadeObject],
    values: &[Option<Datum>],
    formals: &[Typed],
) -> Result<bool, AllocError>
    ensures { IfOk result (λ foreign.
        foreign ≡ has_foreign_from (grounds_of footing.now) objects.now values.now 0 formals.now) }
{
    for (number, typed) in formals.iter().enumerate() {
        if is_foreign_formal(alloc, footing, objects, values, number, typed)? {
            return Ok(true);
        }
    }
    Ok(false)
}

// Notes what is wrong where the arguments of `super` are read.
fn note_read(
    footing: &Ground<'_>,
    scene: &Scene<'_>,
    arguments: Option<&[Expr]>,
    first: &mut Option<Fault>,
)
    ensures { first.new ≡ earliest_fault first.old (read_faults (grounds_of footing.now) (scenery_of scene.now)
        (option_copied arguments.entry)) }
{
    if let Some(arguments) = arguments {
        note_all_unmade(footing, scene, arguments, first);
    }
}

// Notes what is wrong where the arguments are read that the constructor hands on.
fn note_handed(footing: &Ground<'_>, invocation: &Invocation<'_>, first: &mut Option<Fault>)
    requires { IsBuilderAt (facts_of footing.now.basis) invocation.now.entry (Some invocation.now.builder.now) }
    ensures { first.new ≡ earliest_fault first.old (read_faults (grounds_of footing.now)
        (constructor_scene (facts_of footing.now.basis) invocation.now.entry invocation.now.builder.now.constructor.now
        invocation.now.values.now)
        (super_arguments (constructor_sets invocation.now.builder.now.constructor.now))) }
{
    let scene = invocation.scene();
    let body = constructor_sets(invocation.builder.constructor);
    note_read(footing, &scene, super_arguments(body), first);
}

/// Notes all that is wrong with what a constructor is passed, and with what it hands on. The object is made by the
/// `new` before the name at the place.
#[tactic(auto, using(nddl_symbols::proofs::Earliest::earliest_append))]
pub fn note_passing(
    alloc: Global,
    footing: &Ground<'_>,
    objects: &[MadeObject],
    place: Place,
    invocation: &Invocation<'_>,
    first: &mut Option<Fault>,
) -> Result<(), AllocError>
    requires { IsBuilderAt (facts_of footing.now.basis) invocation.now.entry (Some invocation.now.builder.now) }
    ensures { OnOk result (first.new ≡ earliest_fault first.old (passing_faults (grounds_of footing.now) objects.now
        place invocation.now.entry invocation.now.values.now invocation.now.builder.now.constructor.now)) }
{
    let builder = invocation.builder;
    let formals = constructor_formals(builder.constructor);
    let is_foreign = has_foreign(alloc, footing, objects, invocation.values, formals)?;
    note_at(
        first,
        place.decl,
        place.at,
        kind_if(is_foreign, TextKind::NotInDomain),
    );
    note_at(
        first,
        place.decl,
        place.at,
        kind_if(builder.is_wrong(), TextKind::WrongCount),
    );
    note_handed(footing, invocation, first);
    Ok(())
}
