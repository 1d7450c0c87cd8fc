//! What variables of types may be, once all objects are made.

ghost use Rattle.std.specs.Prelude.{◌≡◌, IfOk};
ghost use Rattle.nddl_env.specs.Shapes.{kind_base, kind_class, shape_with, world_of};

use super::objects::objects_base;
use super::premises::Premises;
use model_core::variable::Base;
use nddl_declarations::domains::{base_of, value_kind};
use nddl_terms::lexicon::Shape;
use nddl_typeexpr::{Extent, TypeKind, TypeMeaning};
use nddl_types::numbers::class_number;
use std::alloc::{AllocError, Global};

// What a variable of a type of this kind and these values may be.
fn kind_base(
    alloc: Global,
    premises: &Premises<'_>,
    kind: TypeKind,
    extent: &Extent,
) -> Result<Base, AllocError>
    ensures { IfOk result (λ base. base ≡ kind_base (world_of premises.now) kind extent.now) }
{
    match kind {
        TypeKind::Object(class) => objects_base(alloc, premises, class, extent),
        _ => base_of(
            alloc,
            premises.sources.basis.types.scope,
            premises.sources.enums,
            kind,
            extent,
        ),
    }
}

/// The class of what is of this kind, if it is one of objects.
pub fn kind_class(premises: &Premises<'_>, kind: TypeKind) -> u32
    ensures { result ≡ kind_class premises.now.sources.basis.types.scope.now kind }
{
    match kind {
        TypeKind::Object(class) => class_number(
            premises.sources.basis.types.scope,
            premises.sources.numbers,
            class,
        ),
        _ => 0,
    }
}

/// What a variable of a type may be that means this.
pub fn shape_with(
    alloc: Global,
    premises: &Premises<'_>,
    meaning: &TypeMeaning,
) -> Result<Shape, AllocError>
    ensures { IfOk result (λ shape. shape ≡ shape_with (world_of premises.now) meaning.now) }
{
    let base = kind_base(alloc, premises, meaning.kind, &meaning.extent)?;
    Ok(Shape {
        kind: value_kind(meaning.kind),
        base,
        class: kind_class(premises, meaning.kind),
    })
}
