//! The built-in classes with their fields and predicates.

ghost use Rattle.std.specs.Prelude.{◌≡◌, ◌++◌, ◌∷◌, [], IfOk, OnOk};
ghost use Rattle.nddl_types.specs.Classes.{builtin_class, builtin_classes, builtin_fields, given_fields, whole_field};
ghost use Rattle.model_core.specs.Lawful.{quantity};
ghost use Rattle.nddl_types.specs.Predicates.{builtin_pred, builtin_preds, given_preds};

use eu_name::sequence::Sequence;
use eu_name::text::Text;
use model_core::class::{Class, Pred, PredKind};
use model_core::variable::VarDecl;
use nddl_declarations::number_variable;
use nddl_symbols::Meaning;
use std::alloc::{AllocError, Global};

// Puts a field that is any whole number at the end.
fn push_whole(alloc: Global, name: &str, fields: &mut Sequence<VarDecl>) -> Result<(), AllocError>
    ensures { OnOk result (fields.new ≡ fields.old ++ whole_field name.now ∷ []) }
{
    fields.push(number_variable(alloc, name, -1_000_000, 1_000_000)?)
}

// Puts the fields of a reservoir at the end.
fn push_level(alloc: Global, fields: &mut Sequence<VarDecl>) -> Result<(), AllocError>
    ensures { OnOk result (fields.new ≡ fields.old ++ builtin_fields 3) }
{
    push_whole(alloc, "initial", fields)?;
    push_whole(alloc, "low", fields)?;
    push_whole(alloc, "high", fields)
}

// Puts the fields of the built-in class of this number at the end.
fn push_fields(alloc: Global, number: u32, fields: &mut Sequence<VarDecl>) -> Result<(), AllocError>
    ensures { OnOk result (fields.new ≡ fields.old ++ builtin_fields number) }
{
    if number == 2 {
        push_whole(alloc, "capacity", fields)
    } else if number == 3 {
        push_level(alloc, fields)
    } else {
        Ok(())
    }
}

/// Puts the fields of what is extended at the end, if it is a built-in class.
pub fn push_given_fields(
    alloc: Global,
    meaning: Option<Meaning>,
    fields: &mut Sequence<VarDecl>,
) -> Result<(), AllocError>
    ensures { OnOk result (fields.new ≡ fields.old ++ given_fields meaning) }
{
    match meaning {
        Some(Meaning::BuiltIn(number)) => push_fields(alloc, number, fields),
        _ => Ok(()),
    }
}

// Puts the built-in class of this number at the end.
fn push_builtin_class(
    alloc: Global,
    name: &str,
    parent: Option<u32>,
    number: u32,
    classes: &mut Sequence<Class>,
) -> Result<(), AllocError>
    ensures { OnOk result (classes.new ≡ classes.old ++ builtin_class name.now parent number ∷ []) }
{
    let name = Text::from_str(alloc, name)?;
    let fields = builtin_fields(alloc, number)?;
    classes.push(Class {
        name,
        parent,
        fields,
    })
}

// The fields of the built-in class of this number.
fn builtin_fields(alloc: Global, number: u32) -> Result<Sequence<VarDecl>, AllocError>
    ensures { IfOk result (λ fields. fields ≡ builtin_fields number) }
{
    let mut fields = Sequence::new(alloc);
    push_fields(alloc, number, &mut fields)?;
    Ok(fields)
}

/// The built-in classes, in their order.
pub fn builtin_classes(alloc: Global) -> Result<Sequence<Class>, AllocError>
    ensures { IfOk result (λ classes. classes ≡ builtin_classes) }
{
    let mut classes = Sequence::new(alloc);
    push_builtin_classes(alloc, &mut classes)?;
    Ok(classes)
}

// Puts them at the end.
fn push_builtin_classes(alloc: Global, classes: &mut Sequence<Class>) -> Result<(), AllocError>
    ensures { OnOk result (classes.new ≡ classes.old ++ builtin_classes) }
{
    push_builtin_class(alloc, "Object", None, 0, classes)?;
    push_builtin_class(alloc, "Timeline", Some(0), 1, classes)?;
    push_builtin_class(alloc, "Reusable", Some(0), 2, classes)?;
    push_builtin_class(alloc, "Reservoir", Some(0), 3, classes)
}

// Puts a predicate with a quantity at the end.
fn push_pred(
    alloc: Global,
    class: u32,
    name: &str,
    kind: PredKind,
    preds: &mut Sequence<Pred>,
) -> Result<(), AllocError>
    ensures { OnOk result (preds.new ≡ preds.old ++ builtin_pred class name.now kind ∷ []) }
{
    let name = Text::from_str(alloc, name)?;
    let params = quantities(alloc)?;
    preds.push(Pred {
        class,
        name,
        params,
        kind,
        rules: Sequence::new(alloc),
    })
}

// The one parameter of such a predicate.
fn quantities(alloc: Global) -> Result<Sequence<VarDecl>, AllocError>
    ensures { IfOk result (λ params. params ≡ quantity ∷ []) }
{
    let mut params = Sequence::new(alloc);
    params.push(number_variable(alloc, "quantity", 0, 1_000_000)?)?;
    Ok(params)
}

/// Puts the predicates of the built-in class of the second number at the end, for the class of the first.
pub fn push_builtin_preds(
    alloc: Global,
    class: u32,
    number: u32,
    preds: &mut Sequence<Pred>,
) -> Result<(), AllocError>
    ensures { OnOk result (preds.new ≡ preds.old ++ builtin_preds class number) }
{
    if number == 2 {
        push_pred(alloc, class, "uses", PredKind::Uses, preds)
    } else if number == 3 {
        push_pred(alloc, class, "produce", PredKind::Produce, preds)?;
        push_pred(alloc, class, "consume", PredKind::Consume, preds)
    } else {
        Ok(())
    }
}

/// Puts the predicates of what is extended at the end, if it is a built-in class.
pub fn push_given_preds(
    alloc: Global,
    class: u32,
    meaning: Option<Meaning>,
    preds: &mut Sequence<Pred>,
) -> Result<(), AllocError>
    ensures { OnOk result (preds.new ≡ preds.old ++ given_preds class meaning) }
{
    match meaning {
        Some(Meaning::BuiltIn(number)) => push_builtin_preds(alloc, class, number, preds),
        _ => Ok(()),
    }
}
