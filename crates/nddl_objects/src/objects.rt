//! The objects of a program, made in the order in which they are declared.

ghost use Rattle.std.specs.Prelude.{◌≡◌, false, IfOk, OnOk, map};
ghost use Rattle.nddl_symbols.specs.Scope.{named_number};
ghost use Rattle.nddl_hierarchy.specs.Facts.{facts_of};
ghost use Rattle.nddl_construction.specs.declared.made.NamedObject.TheVariants.{Unmade};
ghost use Rattle.nddl_construction.specs.Scene.{scenery_of};
ghost use Rattle.nddl_construction.specs.Kept.{AreFieldTypes};
ghost use Rattle.nddl_construction.specs.Builders.{AreBuilders};
ghost use Rattle.nddl_objects.specs.Construction.{construction_of};
ghost use Rattle.nddl_objects.specs.Made.{made_by, new_datum, new_made};
ghost use Rattle.nddl_objects.specs.Objects.{all_declared, bare_scene, one_declared, last_progress, init_declared, most_levels, new_declared, object_declared, settings_declared, progress_fault, progress_of, with_named};

use super::settings::read_settings;
use crate::making::DEEPEST;
use crate::{Blueprint, ClassFindings, Instantiation, Making, make_new};
use eu_name::sequence::Sequence;
use nddl_ast::declaration::Decl;
use nddl_ast::expression::{Creation, Init};
use nddl_ast::statement::Variable;
use nddl_construction::{Builders, Datum, FieldTypes, Ground, NamedObject, Scene};
use nddl_constructors::note_written;
use nddl_hierarchy::Basis;
use nddl_symbols::declared::variable_sort;
use nddl_symbols::fault::note;
use nddl_symbols::{Declared, Fault};
use std::alloc::{AllocError, Global};

/// The objects of a program so far, the object of each of its names, and the values of the settings, none where there are
/// no settings.
#[derive(Drop)]
pub struct Program {
    pub making: Making,
    /// The earliest of what is wrong as it is written, or with what the settings stand for.
    pub first: Option<Fault>,
    pub named_objects: Vec<NamedObject>,
    pub settings: Sequence<Option<Datum>>,
}

impl Program {
    /// The earliest of all that is wrong so far.
    pub fn first_fault(&self) -> Option<Fault>
        ensures { result ≡ progress_fault (progress_of self.now) }
    {
        let mut first = self.first;
        if let Some(fault) = self.making.first {
            note(&mut first, fault);
        }
        first
    }
}

fn scene_of<'a>(decl: usize) -> Scene<'a>
    ensures { scenery_of result ≡ bare_scene decl }
{
    Scene {
        decl,
        formals: None,
        values: &[],
    }
}

// The name of this number stands for this from now on.
fn name_object(named_objects: &mut Vec<NamedObject>, entry: Option<usize>, datum: Option<Datum>)
    ensures { named_objects.new.items ≡ with_named named_objects.old.items entry datum }
{
    if let Some(entry) = entry {
        if entry < named_objects.len() {
            named_objects[entry] = NamedObject::Made(datum);
        }
    }
}

// Makes the object of the name.
fn declare_object(
    alloc: Global,
    findings: &ClassFindings<'_>,
    decl: usize,
    variable: &Variable,
    creation: &Creation,
    program: &mut Program,
) -> Result<(), AllocError>
    ensures { OnOk result (progress_of program.new
        ≡ object_declared (facts_of findings.now.basis) decl variable.now creation.now (progress_of program.old)) }
{
    let entry = findings.basis.types.scope.entry(&variable.name.text);
    let datum = make_declared(
        alloc,
        findings,
        program.named_objects.as_slice(),
        decl,
        variable,
        creation,
        &mut program.making,
    )?;
    name_object(&mut program.named_objects, entry, datum);
    Ok(())
}

// Makes the object by what the names stand for by now, and answers it, if it is made.
fn make_declared(
    alloc: Global,
    findings: &ClassFindings<'_>,
    named_objects: &[NamedObject],
    decl: usize,
    variable: &Variable,
    creation: &Creation,
    making: &mut Making,
) -> Result<Option<Datum>, AllocError>
    ensures datum { IfOk result (λ datum.
        datum ≡ new_datum most_levels (facts_of findings.now.basis) creation.now (construction_of making.old)) }
    ensures made { OnOk result (construction_of making.new
        ≡ new_made (made_by most_levels
        (record { facts = facts_of findings.now.basis; named_objects = named_objects.now }))
        (record { facts = facts_of findings.now.basis; named_objects = named_objects.now }) (bare_scene decl)
        variable.now.name.text
        (named_number false findings.now.basis.types.scope.now variable.now.name.text) creation.now
        (construction_of making.old)) }
{
    let name = &variable.name.text;
    let entry = findings.basis.types.scope.entry(name);
    let footing = Ground {
        basis: findings.basis,
        named_objects,
    };
    let blueprint = Blueprint {
        footing,
        types: findings.types,
        builders: findings.builders,
    };
    let instantiation = Instantiation {
        scene: scene_of(decl),
        creation,
        name,
        entry,
    };
    make_new(alloc, &blueprint, &instantiation, DEEPEST + 1, making)
}

// Reads the settings.
fn declare_settings(
    alloc: Global,
    basis: &Basis<'_>,
    decl: usize,
    creation: &Creation,
    program: &mut Program,
) -> Result<(), AllocError>
    ensures { OnOk result (progress_of program.new
        ≡ settings_declared (facts_of basis.now) decl creation.now (progress_of program.old)) }
{
    let footing = Ground {
        basis: *basis,
        named_objects: program.named_objects.as_slice(),
    };
    program.settings = read_settings(
        alloc,
        &footing,
        &scene_of(decl),
        program.making.objects.as_slice(),
        creation,
        &mut program.first,
    )?;
    Ok(())
}

// Makes what the variable is made by.
fn declare_new(
    alloc: Global,
    findings: &ClassFindings<'_>,
    decl: usize,
    variable: &Variable,
    creation: &Creation,
    program: &mut Program,
) -> Result<(), AllocError>
    ensures { OnOk result (progress_of program.new
        ≡ new_declared (facts_of findings.now.basis) decl variable.now creation.now (progress_of program.old)) }
{
    if variable_sort(variable).is_config() {
        declare_settings(alloc, &findings.basis, decl, creation, program)
    } else {
        declare_object(alloc, findings, decl, variable, creation, program)
    }
}

// Makes what the variable is made by, if it is made.
fn declare_variable(
    alloc: Global,
    findings: &ClassFindings<'_>,
    decl: usize,
    variable: &Variable,
    program: &mut Program,
) -> Result<(), AllocError>
    ensures { OnOk result (progress_of program.new
        ≡ init_declared (facts_of findings.now.basis) decl variable.now variable.now.init (progress_of program.old)) }
{
    match &variable.init {
        Some(Init::New(creation)) => declare_new(
            alloc, findings, decl, variable, creation, program,
        ),
        _ => Ok(()),
    }
}

// Makes what the declaration of this number asks for.
fn declare(
    alloc: Global,
    findings: &ClassFindings<'_>,
    number: usize,
    decl: &Decl,
    program: &mut Program,
) -> Result<(), AllocError>
    ensures { OnOk result (progress_of program.new
        ≡ one_declared (facts_of findings.now.basis) number decl.now (progress_of program.old)) }
{
    match decl {
        Decl::Variable(variable) => declare_variable(alloc, findings, number, variable, program),
        _ => Ok(()),
    }
}

// Makes what the declarations ask for, one after another.
fn declare_all(
    alloc: Global,
    findings: &ClassFindings<'_>,
    decls: &[&Decl],
    program: &mut Program,
) -> Result<(), AllocError>
    ensures { OnOk result (progress_of program.new
        ≡ all_declared (facts_of findings.now.basis) 0 (map (λ decl. decl.now) decls.now) (progress_of program.old)) }
{
    for (number, decl) in decls.iter().enumerate() {
        declare(alloc, findings, number, *decl, program)?;
    }
    Ok(())
}

// None of the names stands for an object yet.
fn unmade(alloc: Global, names: &[Declared]) -> Result<Vec<NamedObject>, AllocError>
    ensures { IfOk result (λ named_objects. named_objects.items ≡ map (λ name. Unmade) names.now) }
{
    let mut named_objects = Vec::new(alloc);
    for name in names {
        named_objects.push(NamedObject::Unmade)?;
    }
    Ok(named_objects)
}

/// Makes the objects of a program of which this is known, and finds the earliest of what making them meets, and of all else
/// that is wrong with how they are made.
pub fn make_objects(alloc: Global, basis: &Basis<'_>) -> Result<Program, AllocError>
    ensures { IfOk result (λ program. progress_of program ≡ last_progress (facts_of basis.now)) }
{
    let types = FieldTypes::of(alloc, basis)?;
    make_typed(alloc, &*basis, &types)
}

// Finds what is so of the constructors, and goes on with that and what the types of fields mean.
fn make_typed<'a>(
    alloc: Global,
    basis: &'a Basis<'a>,
    types: &'a FieldTypes,
) -> Result<Program, AllocError>
    requires { AreFieldTypes (facts_of basis.now) types.now }
    ensures { IfOk result (λ program. progress_of program ≡ last_progress (facts_of basis.now)) }
{
    let builders = Builders::of(alloc, &*basis)?;
    make_grounded(alloc, &*basis, &*types, &builders)
}

// Puts together what is known before any object is made, and goes on with that.
fn make_grounded(
    alloc: Global,
    basis: &Basis<'_>,
    types: &FieldTypes,
    builders: &Builders<'_>,
) -> Result<Program, AllocError>
    requires types { AreFieldTypes (facts_of basis.now) types.now }
    requires builders { AreBuilders (facts_of basis.now) builders.now }
    ensures { IfOk result (λ program. progress_of program ≡ last_progress (facts_of basis.now)) }
{
    let findings = ClassFindings {
        basis: *basis,
        types,
        builders,
    };
    make_all(alloc, &findings)
}

// Notes what is wrong with the text, and makes what the declarations ask for.
#[tactic(auto, unfolding(crate::specs::Objects::last_progress))]
fn make_all(alloc: Global, findings: &ClassFindings<'_>) -> Result<Program, AllocError>
    ensures { IfOk result (λ program. progress_of program ≡ last_progress (facts_of findings.now.basis)) }
{
    let mut first = None;
    note_written(alloc, &findings.basis, &mut first)?;
    let named_objects = unmade(alloc, findings.basis.types.scope.names())?;
    let mut program = Program {
        making: Making::new(alloc),
        first,
        named_objects,
        settings: Sequence::new(alloc),
    };
    declare_all(alloc, findings, findings.basis.decls, &mut program)?;
    Ok(program)
}
