//! The predicates of the classes of a program.

ghost use Rattle.std.specs.Prelude.{◌≡◌, ◌++◌, ◌∷◌, [], IfOk, OnOk};
ghost use Rattle.std.specs.List.{filter_map, flat_map};
ghost use Rattle.nddl_hierarchy.specs.Facts.{facts_of};
ghost use Rattle.nddl_declarations.specs.Members.{parameters_of};
ghost use Rattle.nddl_types.specs.Predicates.{class_preds, pred_of, preds_at, preds_of};
ghost use Rattle.nddl_declarations.specs.Declares.{variables_of};

use super::builtin::{push_builtin_preds, push_given_preds};
use super::classes::line_down;
use super::numbers::class_number;
use super::sources::Sources;
use eu_name::sequence::Sequence;
use model_core::class::{Pred, PredKind};
use model_core::variable::VarDecl;
use nddl_ast::declaration::{Member, PredicatePart};
use nddl_ast::name::Name;
use nddl_declarations::push_variable;
use nddl_hierarchy::decls::members_of;
use nddl_hierarchy::lines::above;
use nddl_symbols::Meaning;
use std::alloc::{AllocError, Global};

/// The predicates by class, in the order of the classes.
pub fn preds_of(alloc: Global, sources: &Sources<'_>) -> Result<Sequence<Pred>, AllocError>
    ensures { IfOk result (λ preds. preds ≡ preds_of (facts_of sources.now.basis) sources.now.enums.now) }
{
    let mut preds = Sequence::new(alloc);
    push_builtin_preds(alloc, 2, 2, &mut preds)?;
    push_builtin_preds(alloc, 3, 3, &mut preds)?;
    push_all_preds(alloc, sources, &mut preds)?;
    Ok(preds)
}

// Puts the predicates of all classes but the built-in ones at the end.
fn push_all_preds(
    alloc: Global,
    sources: &Sources<'_>,
    preds: &mut Sequence<Pred>,
) -> Result<(), AllocError>
    ensures { OnOk result (preds.new ≡ preds.old
        ++ flat_map (class_preds (facts_of sources.now.basis) sources.now.enums.now) sources.now.entries.now) }
{
    let entries = sources.entries;
    for entry in entries {
        push_class_preds(alloc, sources, *entry, preds)?;
    }
    Ok(())
}

// Puts the predicates of the class whose name has this number at the end.
fn push_class_preds(
    alloc: Global,
    sources: &Sources<'_>,
    entry: usize,
    preds: &mut Sequence<Pred>,
) -> Result<(), AllocError>
    ensures { OnOk result (preds.new
        ≡ preds.old ++ class_preds (facts_of sources.now.basis) sources.now.enums.now entry) }
{
    let line = line_down(alloc, &sources.basis, entry)?;
    let scope = sources.basis.types.scope;
    let class = class_number(scope, sources.numbers, Meaning::Entry(entry));
    push_preds_along(alloc, sources, class, line.as_slice(), preds)
}

// Puts what the classes of a line add to the predicates of the class of this number at the end.
fn push_preds_along(
    alloc: Global,
    sources: &Sources<'_>,
    class: u32,
    line: &[usize],
    preds: &mut Sequence<Pred>,
) -> Result<(), AllocError>
    ensures { OnOk result (preds.new ≡ preds.old
        ++ flat_map (preds_at (facts_of sources.now.basis) sources.now.enums.now class) line.now) }
{
    for entry in line {
        push_preds_at(alloc, sources, class, *entry, preds)?;
    }
    Ok(())
}

// Puts what the class of the second number adds to those of the first at the end.
fn push_preds_at(
    alloc: Global,
    sources: &Sources<'_>,
    class: u32,
    entry: usize,
    preds: &mut Sequence<Pred>,
) -> Result<(), AllocError>
    ensures { OnOk result (preds.new ≡ preds.old
        ++ preds_at (facts_of sources.now.basis) sources.now.enums.now class entry) }
{
    let basis = &sources.basis;
    let meaning = above(basis.types.scope, basis.decls, entry);
    push_given_preds(alloc, class, meaning, preds)?;
    let members = members_of(basis.types.scope, basis.decls, entry);
    push_declared_preds(alloc, sources, class, members, preds)
}

// Puts the predicates that the members declare at the end.
fn push_declared_preds(
    alloc: Global,
    sources: &Sources<'_>,
    class: u32,
    members: &[Member],
    preds: &mut Sequence<Pred>,
) -> Result<(), AllocError>
    ensures { OnOk result (preds.new ≡ preds.old
        ++ filter_map (pred_of (facts_of sources.now.basis) sources.now.enums.now class) members.now) }
{
    for member in members {
        push_declared_pred(alloc, sources, class, member, preds)?;
    }
    Ok(())
}

// Puts the predicate that the member declares at the end, if it declares one.
fn push_declared_pred(
    alloc: Global,
    sources: &Sources<'_>,
    class: u32,
    member: &Member,
    preds: &mut Sequence<Pred>,
) -> Result<(), AllocError>
    ensures { OnOk result (preds.new ≡ preds.old
        ++ filter_map (pred_of (facts_of sources.now.basis) sources.now.enums.now class) (member.now ∷ [])) }
{
    match member {
        Member::Predicate { name, parts, .. } => {
            let pred = pred_with(alloc, sources, class, name, parts.as_slice())?;
            preds.push(pred)
        }
        _ => Ok(()),
    }
}

// The predicate of this name with these parts.
fn pred_with(
    alloc: Global,
    sources: &Sources<'_>,
    class: u32,
    name: &Name,
    parts: &[PredicatePart],
) -> Result<Pred, AllocError>
    ensures { IfOk result (λ pred. pred ≡ record {
      class = class;
      name = name.now.text;
      params = variables_of (facts_of sources.now.basis) sources.now.enums.now (parameters_of parts.now);
      kind = PredKind.Plain;
      rules = [];
    }) }
{
    let name = name.text.copy()?;
    let params = params_of(alloc, sources, parts)?;
    Ok(Pred {
        class,
        name,
        params,
        kind: PredKind::Plain,
        rules: Sequence::new(alloc),
    })
}

// The parameters among the parts.
fn params_of(
    alloc: Global,
    sources: &Sources<'_>,
    parts: &[PredicatePart],
) -> Result<Sequence<VarDecl>, AllocError>
    ensures { IfOk result (λ params. params
        ≡ variables_of (facts_of sources.now.basis) sources.now.enums.now (parameters_of parts.now)) }
{
    let mut params = Sequence::new(alloc);
    for part in parts {
        push_param(alloc, sources, part, &mut params)?;
    }
    Ok(params)
}

// Puts the parameter that the part is at the end, if it is one.
fn push_param(
    alloc: Global,
    sources: &Sources<'_>,
    part: &PredicatePart,
    params: &mut Sequence<VarDecl>,
) -> Result<(), AllocError>
    ensures { OnOk result (params.new ≡ params.old
        ++ variables_of (facts_of sources.now.basis) sources.now.enums.now (parameters_of (part.now ∷ []))) }
{
    match part {
        PredicatePart::Parameter(typed) => {
            push_variable(alloc, &sources.basis, sources.enums, typed, params)
        }
        PredicatePart::Constraint(_) => Ok(()),
    }
}
