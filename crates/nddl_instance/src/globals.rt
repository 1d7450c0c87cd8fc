//! The global variables that a program declares.

ghost use Rattle.std.specs.Prelude.{◌≡◌, ◌++◌, ◌∷◌, [], IfOk, OnOk, map};
ghost use Rattle.nddl_construction.specs.Scene.{grounds_of, scenery_of};
ghost use Rattle.nddl_symbols.specs.Names.{is_global_sort};
ghost use Rattle.nddl_env.specs.Shapes.{kind_base, world_of};
ghost use Rattle.nddl_objects.specs.Objects.{bare_scene};
ghost use Rattle.nddl_instance.specs.Globals.{begun_base, begun_value, declared_global, declared_globals, global_with, single_domain, typed_global, world_grounds};

use crate::singles::single_set;
use domain_core::domain::Dom;
use eu_name::sequence::Sequence;
use model_core::variable::{Base, VarDecl};
use nddl_ast::declaration::Decl;
use nddl_ast::expression::{Expr, Init};
use nddl_ast::statement::Variable;
use nddl_construction::{Ground, Scene, fine_datum};
use nddl_declarations::domains::{range, value_kind};
use nddl_declarations::fine_meaning;
use nddl_env::Premises;
use nddl_env::shapes::shape_with;
use nddl_objects::modelled::datum_value;
use nddl_symbols::Sort;
use nddl_symbols::declared::variable_sort;
use nddl_typeexpr::{Extent, TypeKind, TypeMeaning};
use std::alloc::{AllocError, Global};

// Outside of constructors nothing stands around.
fn bare_scene() -> Scene<'static>
    ensures { scenery_of result ≡ bare_scene 0 }
{
    Scene {
        decl: 0,
        formals: None,
        values: &[],
    }
}

// What is known where the value is read as which a global begins.
fn world_grounds<'a>(premises: &Premises<'a>) -> Ground<'a>
    ensures { grounds_of result ≡ world_grounds (world_of premises.now) }
{
    Ground {
        basis: premises.sources.basis,
        named_objects: premises.named_objects,
    }
}

// The value as which a global of this kind begins.
fn begun_value(
    alloc: Global,
    premises: &Premises<'_>,
    kind: TypeKind,
    expr: &Expr,
) -> Result<i32, AllocError>
    ensures { IfOk result (λ value. value ≡ begun_value (world_of premises.now) kind expr.now) }
{
    let footing = world_grounds(premises);
    let datum = fine_datum(
        alloc,
        &footing,
        &bare_scene(),
        premises.objects,
        Some(kind),
        expr,
    )?;
    datum_value(premises.sources.basis.types.scope, datum)
}

// A domain of one value, as a type of this kind has it.
fn single_domain(
    alloc: Global,
    kind: TypeKind,
    extent: &Extent,
    value: i32,
) -> Result<Dom, AllocError>
    ensures { IfOk result (λ domain. domain ≡ single_domain kind extent.now value) }
{
    if extent.is_ranged(kind) {
        range(value, value)
    } else {
        single_set(alloc, value)
    }
}

// What a variable of the type may be.
fn type_base(
    alloc: Global,
    premises: &Premises<'_>,
    meaning: &TypeMeaning,
) -> Result<Base, AllocError>
    ensures { IfOk result (λ base. base ≡ kind_base (world_of premises.now) meaning.now.kind meaning.now.extent) }
{
    let shape = shape_with(alloc, premises, meaning)?;
    Ok(shape.base)
}

// What a global may be that begins as this.
fn begun_base(
    alloc: Global,
    premises: &Premises<'_>,
    meaning: &TypeMeaning,
    init: &Option<Init>,
) -> Result<Base, AllocError>
    ensures { IfOk result (λ base. base ≡ begun_base (world_of premises.now) meaning.now init.now) }
{
    match init {
        Some(Init::Expr(expr)) => {
            let value = begun_value(alloc, premises, meaning.kind, expr)?;
            Ok(Base::Given(single_domain(alloc, meaning.kind, &meaning.extent, value)?))
        }
        _ => type_base(alloc, premises, meaning),
    }
}

// The global that is declared with a type that means this.
fn global_with(
    alloc: Global,
    premises: &Premises<'_>,
    variable: &Variable,
    meaning: &TypeMeaning,
) -> Result<VarDecl, AllocError>
    ensures { IfOk result (λ global. global ≡ global_with (world_of premises.now) variable.now meaning.now) }
{
    let name = variable.name.text.copy()?;
    let base = begun_base(alloc, premises, meaning, &variable.init)?;
    Ok(VarDecl {
        name,
        kind: value_kind(meaning.kind),
        base,
    })
}

// The global with what its type means, if nothing is wrong with that.
fn typed_global(
    alloc: Global,
    premises: &Premises<'_>,
    variable: &Variable,
) -> Result<Option<VarDecl>, AllocError>
    ensures { IfOk result (λ global. global ≡ typed_global (world_of premises.now) variable.now) }
{
    let meaning = fine_meaning(alloc, &premises.sources.basis, &variable.declared)?;
    match meaning {
        Some(meaning) => Ok(Some(global_with(alloc, premises, variable, &meaning)?)),
        None => Ok(None),
    }
}

fn is_global(sort: Sort) -> bool
    ensures { result ≡ is_global_sort sort }
{
    match sort {
        Sort::Global => true,
        _ => false,
    }
}

// The global that the declaration declares.
fn declared_global(
    alloc: Global,
    premises: &Premises<'_>,
    decl: &Decl,
) -> Result<Option<VarDecl>, AllocError>
    ensures { IfOk result (λ global. global ≡ declared_global (world_of premises.now) decl.now) }
{
    match decl {
        Decl::Variable(variable) => {
            if is_global(variable_sort(variable)) {
                typed_global(alloc, premises, variable)
            } else {
                Ok(None)
            }
        }
        _ => Ok(None),
    }
}

// Puts it behind the others, if there is one.
fn push_declared(
    alloc: Global,
    premises: &Premises<'_>,
    decl: &Decl,
    globals: &mut Sequence<VarDecl>,
) -> Result<(), AllocError>
    ensures { OnOk result (globals.new ≡ globals.old ++ declared_globals (world_of premises.now) (decl.now ∷ [])) }
{
    match declared_global(alloc, premises, decl)? {
        Some(global) => globals.push(global),
        None => Ok(()),
    }
}

/// The globals that the declarations declare, in order of text.
pub fn declared_globals(
    alloc: Global,
    premises: &Premises<'_>,
    decls: &[&Decl],
) -> Result<Sequence<VarDecl>, AllocError>
    ensures { IfOk result (λ globals. globals
        ≡ declared_globals (world_of premises.now) (map (λ decl. decl.now) decls.now)) }
{
    let mut globals = Sequence::new(alloc);
    for decl in decls {
        push_declared(alloc, premises, *decl, &mut globals)?;
    }
    Ok(globals)
}
