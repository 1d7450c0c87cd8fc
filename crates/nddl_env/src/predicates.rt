//! What is known of predicates.

ghost use Rattle.std.specs.Prelude.{◌≡◌, ◌++◌, IfOk, OnOk, map};
ghost use Rattle.std.specs.List.{filter_map, flat_map};
ghost use Rattle.nddl_types.specs.Predicates.{given_preds};
ghost use Rattle.nddl_env.specs.Lexicons.{builtin_pred_shapes, entry_pred_shapes, given_shape, member_shape, pred_shapes, pred_shapes_at};
ghost use Rattle.nddl_env.specs.Shapes.{part_attribute, world_of};

use super::attributes::{number_attributes, part_attributes};
use super::ending::both;
use super::premises::Premises;
use eu_name::sequence::Sequence;
use model_core::class::Pred;
use nddl_ast::declaration::{Member, PredicatePart};
use nddl_ast::name::Name;
use nddl_hierarchy::decls::members_of;
use nddl_hierarchy::lines::above;
use nddl_symbols::Meaning;
use nddl_terms::lexicon::PredShape;
use nddl_types::builtin::{push_builtin_preds, push_given_preds};
use nddl_types::classes::line_down;
use nddl_types::numbers::class_number;
use std::alloc::{AllocError, Global};

// What is known of a predicate of a built-in class.
fn given_shape(alloc: Global, pred: &Pred) -> Result<PredShape, AllocError>
    ensures { IfOk result (λ shape. shape ≡ given_shape pred.now) }
{
    let name = pred.name.copy();
    let (name, params) = both(name, number_attributes(alloc, pred.params.as_slice()))?;
    Ok(PredShape {
        class: pred.class,
        name,
        params,
    })
}

// Puts that of each at the end.
fn push_given_shapes(
    alloc: Global,
    preds: &[Pred],
    shapes: &mut Sequence<PredShape>,
) -> Result<(), AllocError>
    ensures { OnOk result (shapes.new ≡ shapes.old ++ map given_shape preds.now) }
{
    for pred in preds {
        shapes.push(given_shape(alloc, pred)?)?;
    }
    Ok(())
}

// Puts the predicates of the built-in classes at the end.
fn push_builtin_shapes(alloc: Global, shapes: &mut Sequence<PredShape>) -> Result<(), AllocError>
    ensures { OnOk result (shapes.new ≡ shapes.old ++ builtin_pred_shapes) }
{
    let mut preds = Sequence::new(alloc);
    push_builtin_preds(alloc, 2, 2, &mut preds)?;
    push_builtin_preds(alloc, 3, 3, &mut preds)?;
    push_given_shapes(alloc, preds.as_slice(), shapes)
}

// Puts the predicates of what is extended at the end, if it is a built-in class, for the class of this number.
fn push_extended_shapes(
    alloc: Global,
    class: u32,
    meaning: Option<Meaning>,
    shapes: &mut Sequence<PredShape>,
) -> Result<(), AllocError>
    ensures { OnOk result (shapes.new ≡ shapes.old ++ map given_shape (given_preds class meaning)) }
{
    let mut preds = Sequence::new(alloc);
    push_given_preds(alloc, class, meaning, &mut preds)?;
    push_given_shapes(alloc, preds.as_slice(), shapes)
}

// The predicate of this name with these parts.
fn shape_with_parts(
    alloc: Global,
    premises: &Premises<'_>,
    class: u32,
    name: &Name,
    parts: &[PredicatePart],
) -> Result<PredShape, AllocError>
    ensures { IfOk result (λ shape. shape ≡ record {
      class = class;
      name = name.now.text;
      params = filter_map (part_attribute (world_of premises.now)) parts.now;
    }) }
{
    let name = name.text.copy();
    let (name, params) = both(name, part_attributes(alloc, premises, parts))?;
    Ok(PredShape {
        class,
        name,
        params,
    })
}

// The predicate of the class of this number that the member declares.
fn member_shape(
    alloc: Global,
    premises: &Premises<'_>,
    class: u32,
    member: &Member,
) -> Result<Option<PredShape>, AllocError>
    ensures { IfOk result (λ shape. shape ≡ member_shape (world_of premises.now) class member.now) }
{
    match member {
        Member::Predicate { name, parts, .. } => Ok(Some(shape_with_parts(
            alloc,
            premises,
            class,
            name,
            parts.as_slice(),
        )?)),
        _ => Ok(None),
    }
}

// Puts the predicates that the members declare at the end.
fn push_member_shapes(
    alloc: Global,
    premises: &Premises<'_>,
    class: u32,
    members: &[Member],
    shapes: &mut Sequence<PredShape>,
) -> Result<(), AllocError>
    ensures { OnOk result (shapes.new ≡ shapes.old ++ filter_map (member_shape (world_of premises.now) class) members.now) }
{
    for member in members {
        if let Some(shape) = member_shape(alloc, premises, class, member)? {
            shapes.push(shape)?;
        }
    }
    Ok(())
}

// Puts what the class of the second number adds to those of the first at the end.
fn push_shapes_at(
    alloc: Global,
    premises: &Premises<'_>,
    class: u32,
    entry: usize,
    shapes: &mut Sequence<PredShape>,
) -> Result<(), AllocError>
    ensures { OnOk result (shapes.new ≡ shapes.old ++ pred_shapes_at (world_of premises.now) class entry) }
{
    let basis = &premises.sources.basis;
    let meaning = above(basis.types.scope, basis.decls, entry);
    push_extended_shapes(alloc, class, meaning, shapes)?;
    let members = members_of(basis.types.scope, basis.decls, entry);
    push_member_shapes(alloc, premises, class, members, shapes)
}

// Puts what the classes of a line add to the predicates of the class of this number at the end.
fn push_shapes_along(
    alloc: Global,
    premises: &Premises<'_>,
    class: u32,
    line: &[usize],
    shapes: &mut Sequence<PredShape>,
) -> Result<(), AllocError>
    ensures { OnOk result (shapes.new ≡ shapes.old ++ flat_map (pred_shapes_at (world_of premises.now) class) line.now) }
{
    for entry in line {
        push_shapes_at(alloc, premises, class, *entry, shapes)?;
    }
    Ok(())
}

// Puts the predicates of the class whose name has this number at the end.
fn push_entry_shapes(
    alloc: Global,
    premises: &Premises<'_>,
    entry: usize,
    shapes: &mut Sequence<PredShape>,
) -> Result<(), AllocError>
    ensures { OnOk result (shapes.new ≡ shapes.old ++ entry_pred_shapes (world_of premises.now) entry) }
{
    let line = line_down(alloc, &premises.sources.basis, entry)?;
    let scope = premises.sources.basis.types.scope;
    let class = class_number(scope, premises.sources.numbers, Meaning::Entry(entry));
    push_shapes_along(alloc, premises, class, line.as_slice(), shapes)
}

// Puts the predicates of the classes at the end whose names have these numbers.
fn push_declared_shapes(
    alloc: Global,
    premises: &Premises<'_>,
    entries: &[usize],
    shapes: &mut Sequence<PredShape>,
) -> Result<(), AllocError>
    ensures { OnOk result (shapes.new ≡ shapes.old ++ flat_map (entry_pred_shapes (world_of premises.now)) entries.now) }
{
    for entry in entries {
        push_entry_shapes(alloc, premises, *entry, shapes)?;
    }
    Ok(())
}

/// What is known of all predicates, in the order of a table.
pub fn pred_shapes(
    alloc: Global,
    premises: &Premises<'_>,
) -> Result<Sequence<PredShape>, AllocError>
    ensures { IfOk result (λ preds. preds ≡ pred_shapes (world_of premises.now)) }
{
    let mut shapes = Sequence::new(alloc);
    push_builtin_shapes(alloc, &mut shapes)?;
    push_declared_shapes(alloc, premises, premises.sources.entries, &mut shapes)?;
    Ok(shapes)
}
