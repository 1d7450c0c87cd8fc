//! What a `new` makes: the object, and those that its constructors make in turn.

ghost use Rattle.std.specs.Prelude.{◌≡◌, [], None, IfOk, OnOk, Some};
ghost use Rattle.std.specs.Option.{option_map_or};
ghost use Rattle.nddl_hierarchy.specs.Facts.{facts_of};
ghost use Rattle.nddl_construction.specs.Scene.{scenery_of};
ghost use Rattle.nddl_construction.specs.Builders.{IsBuilderAt};
ghost use Rattle.nddl_construction.specs.Passing.{passing_faults};
ghost use Rattle.nddl_objects.specs.Blueprints.{grounds_in};
ghost use Rattle.nddl_objects.specs.Construction.{asked_of, construction_of, noted, subject_of};
ghost use Rattle.model_core.specs.Naming.{full_name};
ghost use Rattle.nddl_objects.specs.Made.{asked_object, body_run, builtin_run, class_run, classes_run, field_given, fields_of, finished, init_set, made_by, nested_set, new_datum, new_made, next_datum, number_set, object_run, part_run, parts_run, value_set};

use super::blueprint::Blueprint;
use super::finished::note_finished;
use super::making::{Frame, Instantiation, Making, Request, Subject};
use eu_name::text::Text;
use nddl_ast::TextKind;
use nddl_ast::declaration::Set;
use nddl_ast::expression::{Creation, Expr, Init};
use nddl_ast::name::Name;
use nddl_construction::classes::constructor_sets;
use nddl_construction::reading::{datum_at, note_all_unmade};
use nddl_construction::{
    Datum, Invocation, MadeObject, Passed, SetFields, adding_up, fine_data, fine_datum,
    is_outside_field, made_class, note_passing, note_unmade, passed_down,
};
use nddl_constructors::bodies::{field_in_line, field_kind};
use nddl_constructors::class_wants;
use nddl_symbols::{Meaning, Place, kind_if, note_at};
use std::alloc::{AllocError, Global};

// The constructor sets the field.
fn set_field(
    alloc: Global,
    blueprint: &Blueprint<'_>,
    frame: &Frame<'_>,
    name: &Text,
    value: Option<Datum>,
    making: &mut Making,
) -> Result<(), AllocError>
    ensures { OnOk result (construction_of making.new ≡ field_given (grounds_in blueprint.now)
        (subject_of frame.now.subject) frame.now.entry name.now value (construction_of making.old)) }
{
    let is_outside = is_outside_field(
        alloc,
        &blueprint.footing,
        blueprint.types,
        making.objects.as_slice(),
        frame.entry,
        name,
        value,
    )?;
    note_at(
        &mut making.first,
        frame.subject.place.decl,
        frame.subject.place.at,
        kind_if(is_outside, TextKind::NotInDomain),
    );
    making.set(&frame.subject, name, value)
}

// The name of an object that is made for a field.
fn full_name(alloc: Global, name: &Text, field: &Text) -> Result<Text, AllocError>
    ensures { IfOk result (λ nested. nested ≡ full_name name.now field.now) }
{
    let mut string = String::from_str(alloc, name.as_str())?;
    string.push_str(".")?;
    string.push_str(field.as_str())?;
    Ok(Text::from_string(string))
}

// A field of a built-in class is set to the value of this number.
fn set_number(
    alloc: Global,
    subject: &Subject<'_>,
    name: &str,
    values: &[Option<Datum>],
    number: usize,
    making: &mut Making,
) -> Result<(), AllocError>
    ensures { OnOk result (construction_of making.new
        ≡ number_set (subject_of subject.now) name.now values.now number (construction_of making.old)) }
{
    let name = Text::from_str(alloc, name)?;
    making.set(subject, &name, datum_at(values, number))
}

// The constructor of a reservoir.
fn run_reservoir(
    alloc: Global,
    subject: &Subject<'_>,
    values: &[Option<Datum>],
    making: &mut Making,
) -> Result<(), AllocError>
    ensures { OnOk result (construction_of making.new
        ≡ builtin_run (subject_of subject.now) 3 values.now (construction_of making.old)) }
{
    set_number(alloc, subject, "initial", values, 0, making)?;
    set_number(alloc, subject, "low", values, 1, making)?;
    set_number(alloc, subject, "high", values, 2, making)
}

// That of the built-in class of this number.
fn run_builtin(
    alloc: Global,
    subject: &Subject<'_>,
    number: u32,
    values: &[Option<Datum>],
    making: &mut Making,
) -> Result<(), AllocError>
    ensures { OnOk result (construction_of making.new
        ≡ builtin_run (subject_of subject.now) number values.now (construction_of making.old)) }
{
    if number == 2 {
        set_number(alloc, subject, "capacity", values, 0, making)
    } else if number == 3 {
        run_reservoir(alloc, subject, values, making)
    } else {
        Ok(())
    }
}

// The fields to which the object of this number is set; these, where there is none.
fn fields_of<'a>(objects: &'a [MadeObject], number: usize, none: &'a SetFields) -> &'a SetFields
    requires { none.now ≡ [] }
    ensures { result.now ≡ fields_of objects.now number }
{
    match objects.get(number) {
        Some(object) => &object.fields,
        None => none,
    }
}

// Notes what is wrong with the fields of the object.
fn finish(
    alloc: Global,
    blueprint: &Blueprint<'_>,
    subject: &Subject<'_>,
    class: Meaning,
    making: &mut Making,
) -> Result<(), AllocError>
    ensures { OnOk result (construction_of making.new
        ≡ finished (facts_of blueprint.now.footing.basis) (subject_of subject.now) class (construction_of making.old)) }
{
    let line = adding_up(alloc, &blueprint.footing.basis, class)?;
    let none = SetFields::new(alloc);
    note_finished(
        alloc,
        &blueprint.footing.basis,
        subject.place,
        line.as_slice(),
        fields_of(making.objects.as_slice(), subject.number, &none),
        &mut making.first,
    )
}

// The object that comes next, if it is made where there may be so many levels.
fn next_datum(levels: usize, making: &Making) -> Option<Datum>
    ensures { result ≡ next_datum levels (construction_of making.now) }
{
    if levels > 0 && making.has_room() {
        Some(Datum::Object(making.count()))
    } else {
        None
    }
}

// The object that comes next, if there is a class of which it is to be made.
fn class_datum(levels: usize, class: Option<Meaning>, making: &Making) -> Option<Datum>
    ensures { result ≡ option_map_or (λ class. next_datum levels (construction_of making.now)) class None }
{
    match class {
        Some(_) => next_datum(levels, making),
        None => None,
    }
}

/// Makes what the `new` asks for, where constructors may make objects so many levels deep, this one among them. Answers
/// the object, if one is made.
#[cycle(making)]
pub fn make_new(
    alloc: Global,
    blueprint: &Blueprint<'_>,
    instantiation: &Instantiation<'_>,
    levels: usize,
    making: &mut Making,
) -> Result<Option<Datum>, AllocError>
    ensures datum { IfOk result (λ datum. datum ≡ new_datum levels (facts_of blueprint.now.footing.basis)
        instantiation.now.creation.now (construction_of making.old)) }
    ensures made { OnOk result (construction_of making.new ≡ new_made (made_by levels (grounds_in blueprint.now))
        (grounds_in blueprint.now) (scenery_of instantiation.now.scene) instantiation.now.name.now
        instantiation.now.entry instantiation.now.creation.now (construction_of making.old)) }
{
    let creation = instantiation.creation;
    let class = made_class(alloc, &blueprint.footing.basis, creation)?;
    let datum = class_datum(levels, class, making);
    note_all_unmade(
        &blueprint.footing,
        &instantiation.scene,
        creation.arguments.as_slice(),
        &mut making.first,
    );
    make_class(alloc, blueprint, instantiation, class, levels, making)?;
    Ok(datum)
}

// Makes an object of this class, if there is a class, with what the arguments stand for.
#[cycle(making)]
fn make_class(
    alloc: Global,
    blueprint: &Blueprint<'_>,
    instantiation: &Instantiation<'_>,
    class: Option<Meaning>,
    levels: usize,
    making: &mut Making,
) -> Result<(), AllocError>
    ensures { OnOk result (construction_of making.new ≡ option_map_or
        (λ class. made_by levels (grounds_in blueprint.now) (asked_object (grounds_in blueprint.now)
        (scenery_of instantiation.now.scene) (construction_of making.old).objects instantiation.now.name.now
        instantiation.now.entry instantiation.now.creation.now class) (construction_of making.old))
        class (construction_of making.old)) }
{
    match class {
        Some(class) => {
            let creation = instantiation.creation;
            let wants = class_wants(alloc, &blueprint.footing.basis, class)?;
            let values = fine_data(
                alloc,
                &blueprint.footing,
                &instantiation.scene,
                making.objects.as_slice(),
                wants.as_slice(),
                creation.arguments.as_slice(),
            )?;
            let request = Request {
                name: instantiation.name,
                entry: instantiation.entry,
                place: Place {
                    decl: instantiation.scene.decl,
                    at: creation.class.at,
                },
                class,
                values: values.as_slice(),
            };
            make(alloc, blueprint, &request, levels, making)
        }
        None => Ok(()),
    }
}

// Makes the object that is asked for.
#[tactic(auto, using(crate::proofs::Deeper::made_nothing, crate::proofs::Deeper::made_deeper))]
#[cycle(making)]
fn make(
    alloc: Global,
    blueprint: &Blueprint<'_>,
    request: &Request<'_>,
    levels: usize,
    making: &mut Making,
) -> Result<(), AllocError>
    ensures { OnOk result (construction_of making.new
        ≡ made_by levels (grounds_in blueprint.now) (asked_of request.now) (construction_of making.old)) }
{
    if levels == 0 {
        making.note_too_nested(request.place);
        Ok(())
    } else if making.has_room() {
        let subject = Subject {
            name: request.name,
            place: request.place,
            number: making.count(),
        };
        making.begin(alloc, request)?;
        run_object(alloc, blueprint, &subject, request, levels - 1, making)
    } else {
        making.note_too_many(request.place);
        Ok(())
    }
}

// Runs the constructors of an object that is begun, and looks at its fields then.
#[cycle(making)]
fn run_object(
    alloc: Global,
    blueprint: &Blueprint<'_>,
    subject: &Subject<'_>,
    request: &Request<'_>,
    levels: usize,
    making: &mut Making,
) -> Result<(), AllocError>
    ensures { OnOk result (construction_of making.new ≡ object_run (made_by levels (grounds_in blueprint.now)) levels
        (grounds_in blueprint.now) (subject_of subject.now) (asked_of request.now) (construction_of making.old)) }
{
    let passed = passed_down(
        alloc,
        &blueprint.footing,
        blueprint.builders,
        making.objects.as_slice(),
        request.class,
        request.values,
    )?;
    run_classes(alloc, blueprint, subject, passed.as_slice(), levels, making)?;
    finish(alloc, blueprint, subject, request.class, making)
}

// Runs the constructors of these classes, one after another.
#[cycle(making)]
fn run_classes(
    alloc: Global,
    blueprint: &Blueprint<'_>,
    subject: &Subject<'_>,
    classes: &[Passed],
    levels: usize,
    making: &mut Making,
) -> Result<(), AllocError>
    ensures { OnOk result (construction_of making.new ≡ classes_run (made_by levels (grounds_in blueprint.now)) levels
        (grounds_in blueprint.now) (subject_of subject.now) classes.now (construction_of making.old)) }
{
    for passed in classes {
        run_class(
            alloc,
            blueprint,
            subject,
            passed.class,
            passed.values.as_slice(),
            levels,
            making,
        )?;
    }
    Ok(())
}

// Runs the constructor of the class, if it has one.
#[cycle(making)]
fn run_class(
    alloc: Global,
    blueprint: &Blueprint<'_>,
    subject: &Subject<'_>,
    class: Meaning,
    values: &[Option<Datum>],
    levels: usize,
    making: &mut Making,
) -> Result<(), AllocError>
    ensures { OnOk result (construction_of making.new ≡ class_run (made_by levels (grounds_in blueprint.now)) levels
        (grounds_in blueprint.now) (subject_of subject.now) class values.now (construction_of making.old)) }
{
    match class {
        Meaning::BuiltIn(number) => run_builtin(alloc, subject, number, values, making),
        Meaning::Entry(entry) => match blueprint.builders.find(entry) {
            Some(builder) => {
                let invocation = Invocation {
                    entry,
                    builder,
                    values,
                };
                run_body(alloc, blueprint, subject, &invocation, levels, making)
            }
            None => Ok(()),
        },
    }
}

// Runs the constructor: notes what is wrong with what it is passed, and runs the parts of its body.
#[cycle(making)]
fn run_body(
    alloc: Global,
    blueprint: &Blueprint<'_>,
    subject: &Subject<'_>,
    invocation: &Invocation<'_>,
    levels: usize,
    making: &mut Making,
) -> Result<(), AllocError>
    requires { IsBuilderAt (facts_of blueprint.now.footing.basis) invocation.now.entry
        (Some invocation.now.builder.now) }
    ensures { OnOk result (construction_of making.new ≡ body_run (made_by levels (grounds_in blueprint.now)) levels
        (grounds_in blueprint.now) (subject_of subject.now) invocation.now.entry invocation.now.values.now
        invocation.now.builder.now.constructor.now (construction_of making.old)) }
{
    note_passed(alloc, blueprint, subject, invocation, making)?;
    let scene = invocation.scene();
    let frame = Frame {
        subject: *subject,
        entry: invocation.entry,
        scene,
    };
    let parts = constructor_sets(invocation.builder.constructor);
    run_parts(alloc, blueprint, &frame, parts, levels, making)
}

// Notes what is wrong with what the constructor is passed, and hands on.
fn note_passed(
    alloc: Global,
    blueprint: &Blueprint<'_>,
    subject: &Subject<'_>,
    invocation: &Invocation<'_>,
    making: &mut Making,
) -> Result<(), AllocError>
    requires { IsBuilderAt (facts_of blueprint.now.footing.basis) invocation.now.entry
        (Some invocation.now.builder.now) }
    ensures { OnOk result (construction_of making.new ≡ noted (construction_of making.old)
        (passing_faults (grounds_in blueprint.now) (construction_of making.old).objects subject.now.place
        invocation.now.entry invocation.now.values.now invocation.now.builder.now.constructor.now)) }
{
    note_passing(
        alloc,
        &blueprint.footing,
        making.objects.as_slice(),
        subject.place,
        invocation,
        &mut making.first,
    )
}

// Runs the parts of a body, one after another.
#[cycle(making)]
fn run_parts(
    alloc: Global,
    blueprint: &Blueprint<'_>,
    frame: &Frame<'_>,
    parts: &[Set],
    levels: usize,
    making: &mut Making,
) -> Result<(), AllocError>
    ensures { OnOk result (construction_of making.new ≡ parts_run (made_by levels (grounds_in blueprint.now)) levels
        (grounds_in blueprint.now) (scenery_of frame.now.scene) (subject_of frame.now.subject) frame.now.entry
        parts.now (construction_of making.old)) }
{
    for part in parts {
        run_part(alloc, blueprint, frame, part, levels, making)?;
    }
    Ok(())
}

// Runs a part of a body.
#[cycle(making)]
fn run_part(
    alloc: Global,
    blueprint: &Blueprint<'_>,
    frame: &Frame<'_>,
    part: &Set,
    levels: usize,
    making: &mut Making,
) -> Result<(), AllocError>
    ensures { OnOk result (construction_of making.new ≡ part_run (made_by levels (grounds_in blueprint.now)) levels
        (grounds_in blueprint.now) (scenery_of frame.now.scene) (subject_of frame.now.subject) frame.now.entry
        part.now (construction_of making.old)) }
{
    match part {
        Set::Field { name, value } => set_init(
            alloc, blueprint, frame, name, value, levels, making,
        ),
        Set::Super { .. } => Ok(()),
    }
}

// Sets the field to what stands behind `=`.
#[cycle(making)]
fn set_init(
    alloc: Global,
    blueprint: &Blueprint<'_>,
    frame: &Frame<'_>,
    name: &Name,
    value: &Init,
    levels: usize,
    making: &mut Making,
) -> Result<(), AllocError>
    ensures { OnOk result (construction_of making.new ≡ init_set (made_by levels (grounds_in blueprint.now)) levels
        (grounds_in blueprint.now) (scenery_of frame.now.scene) (subject_of frame.now.subject) frame.now.entry
        name.now.text value.now (construction_of making.old)) }
{
    match value {
        Init::Expr(expr) => set_value(alloc, blueprint, frame, name, expr, making),
        Init::New(creation) => set_new(alloc, blueprint, frame, name, creation, levels, making),
    }
}

// Sets the field to a value.
fn set_value(
    alloc: Global,
    blueprint: &Blueprint<'_>,
    frame: &Frame<'_>,
    name: &Name,
    expr: &Expr,
    making: &mut Making,
) -> Result<(), AllocError>
    ensures { OnOk result (construction_of making.new ≡ value_set (grounds_in blueprint.now)
        (scenery_of frame.now.scene) (subject_of frame.now.subject) frame.now.entry name.now.text expr.now
        (construction_of making.old)) }
{
    let field = field_in_line(alloc, &blueprint.footing.basis, frame.entry, &name.text)?;
    let datum = fine_datum(
        alloc,
        &blueprint.footing,
        &frame.scene,
        making.objects.as_slice(),
        field_kind(field),
        expr,
    )?;
    note_unmade(&blueprint.footing, &frame.scene, expr, &mut making.first);
    set_field(alloc, blueprint, frame, &name.text, datum, making)
}

// Sets the field to an object that is made for it.
#[cycle(making)]
fn set_new(
    alloc: Global,
    blueprint: &Blueprint<'_>,
    frame: &Frame<'_>,
    name: &Name,
    creation: &Creation,
    levels: usize,
    making: &mut Making,
) -> Result<(), AllocError>
    ensures { OnOk result (construction_of making.new ≡ nested_set (made_by levels (grounds_in blueprint.now)) levels
        (grounds_in blueprint.now) (scenery_of frame.now.scene) (subject_of frame.now.subject) frame.now.entry
        name.now.text creation.now (construction_of making.old)) }
{
    let nested = full_name(alloc, frame.subject.name, &name.text)?;
    let instantiation = Instantiation {
        scene: frame.scene,
        creation,
        name: &nested,
        entry: None,
    };
    let datum = make_new(alloc, blueprint, &instantiation, levels, making)?;
    set_field(alloc, blueprint, frame, &name.text, datum, making)
}
