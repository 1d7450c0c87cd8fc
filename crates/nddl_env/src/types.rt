//! What variables may be whose types are names.

ghost use Rattle.std.specs.Prelude.{◌≡◌, ◌++◌, ◌∷◌, [], IfOk, IfSome, None, OnOk, Some, slice_get};
ghost use Rattle.nddl_symbols.specs.declared.declared.Sort.TheVariants as sorts;
ghost use Rattle.nddl_typeexpr.specs.Bases.{typedef_meaning};
ghost use Rattle.nddl_typeexpr.specs.declared.kind.Extent.TheVariants as extents;
ghost use Rattle.nddl_typeexpr.specs.declared.kind.TypeKind.TheVariants as kinds;
ghost use Rattle.nddl_env.specs.Lexicons.{scope_types, sort_shape, type_if_first};
ghost use Rattle.nddl_env.specs.Shapes.{shape_with, world_of};
ghost use Rattle.nddl_env.specs.Sharing.{Adds, AreNumbered, typedef_shape};

use super::ending::when;
use super::premises::Premises;
use super::shapes::shape_with;
use super::typedefs::Typedefs;
use nddl_symbols::{Declared, Sort};
use nddl_terms::TypeShapes;
use nddl_terms::lexicon::Shape;
use nddl_typeexpr::{Extent, TypeKind, TypeMeaning};
use nddl_types::numbers::is_first;
use std::alloc::{AllocError, Global};

// What a variable of the enum of this number may be.
fn enum_shape(alloc: Global, premises: &Premises<'_>, number: u32) -> Result<Shape, AllocError>
    ensures { IfOk result (λ shape. shape
        ≡ shape_with (world_of premises.now) (record { kind = kinds.Enum number; extent = extents.Whole })) }
{
    let meaning = TypeMeaning {
        kind: TypeKind::Enum(number),
        extent: Extent::Whole,
    };
    shape_with(alloc, premises, &meaning)
}

// Puts what a variable may be whose type means this behind the others. If one of the same meaning has this number, the two
// share it.
fn push_meaning(
    alloc: Global,
    premises: &Premises<'_>,
    meaning: &TypeMeaning,
    same: Option<usize>,
    types: &mut TypeShapes,
) -> Result<(), AllocError>
    requires { IfSome same (λ number. slice_get types.old number
        ≡ Some (Some (shape_with (world_of premises.now) meaning.now))) }
    ensures { OnOk result (types.new ≡ types.old ++ Some (shape_with (world_of premises.now) meaning.now) ∷ []) }
{
    match same {
        Some(number) => types.push_shared(number),
        None => types.push(shape_with(alloc, premises, meaning)?),
    }
}

// Puts what a variable of this typedef may be, which means this, behind the others, and notes the place.
fn push_known(
    alloc: Global,
    premises: &Premises<'_>,
    entry: usize,
    meaning: &TypeMeaning,
    typedefs: &mut Typedefs,
    types: &mut TypeShapes,
) -> Result<(), AllocError>
    requires numbered { AreNumbered (world_of premises.now) entry types.old typedefs.old.numbers.items }
    requires means { typedef_meaning premises.now.sources.basis.types.known.now entry ≡ Some meaning.now }
    ensures { OnOk result (Adds (world_of premises.now) entry (typedef_shape (world_of premises.now) entry ∷ [])
        types.old types.new typedefs.new.numbers.items) }
{
    let number = types.len();
    let same = typedefs.alike(&premises.sources.basis, entry, meaning);
    push_meaning(alloc, premises, meaning, same, types)?;
    typedefs.push(number, same.is_some())
}

// Puts nothing behind the others, for a name that is no type or means nothing.
fn push_none(
    premises: &Premises<'_>,
    entry: usize,
    typedefs: &mut Typedefs,
    types: &mut TypeShapes,
) -> Result<(), AllocError>
    requires { AreNumbered (world_of premises.now) entry types.old typedefs.old.numbers.items }
    ensures { OnOk result (Adds (world_of premises.now) entry (None ∷ []) types.old types.new typedefs.new.numbers.items) }
{
    types.push_none()?;
    typedefs.push_none()
}

// Puts what a variable of the typedef of this number may be behind the others.
fn push_typedef(
    alloc: Global,
    premises: &Premises<'_>,
    entry: usize,
    typedefs: &mut Typedefs,
    types: &mut TypeShapes,
) -> Result<(), AllocError>
    requires { AreNumbered (world_of premises.now) entry types.old typedefs.old.numbers.items }
    ensures { OnOk result (Adds (world_of premises.now) entry (typedef_shape (world_of premises.now) entry ∷ [])
        types.old types.new typedefs.new.numbers.items) }
{
    match premises.sources.basis.types.known.get(entry) {
        Some(Some(meaning)) => push_known(alloc, premises, entry, meaning, typedefs, types),
        _ => push_none(premises, entry, typedefs, types),
    }
}

// Puts what a variable of the enum of this number may be behind the others.
fn push_enum(
    alloc: Global,
    premises: &Premises<'_>,
    entry: usize,
    number: u32,
    typedefs: &mut Typedefs,
    types: &mut TypeShapes,
) -> Result<(), AllocError>
    requires { AreNumbered (world_of premises.now) entry types.old typedefs.old.numbers.items }
    ensures { OnOk result (Adds (world_of premises.now) entry (sort_shape (world_of premises.now) entry (sorts.Enum number) ∷ [])
        types.old types.new typedefs.new.numbers.items) }
{
    types.push(enum_shape(alloc, premises, number)?)?;
    typedefs.push_none()
}

// Puts what a variable may be whose type is the name of this number and sort behind the others.
fn push_sort(
    alloc: Global,
    premises: &Premises<'_>,
    entry: usize,
    sort: Sort,
    typedefs: &mut Typedefs,
    types: &mut TypeShapes,
) -> Result<(), AllocError>
    requires { AreNumbered (world_of premises.now) entry types.old typedefs.old.numbers.items }
    ensures { OnOk result (Adds (world_of premises.now) entry (sort_shape (world_of premises.now) entry sort ∷ [])
        types.old types.new typedefs.new.numbers.items) }
{
    match sort {
        Sort::Enum(number) => push_enum(alloc, premises, entry, number, typedefs, types),
        Sort::Typedef => push_typedef(alloc, premises, entry, typedefs, types),
        _ => push_none(premises, entry, typedefs, types),
    }
}

// Puts what a variable may be whose type is the name behind the others, if nothing is declared under it before.
fn push_type(
    alloc: Global,
    premises: &Premises<'_>,
    entry: usize,
    declared: &Declared,
    typedefs: &mut Typedefs,
    types: &mut TypeShapes,
) -> Result<(), AllocError>
    requires { AreNumbered (world_of premises.now) entry types.old typedefs.old.numbers.items }
    ensures { OnOk result (Adds (world_of premises.now) entry (type_if_first (world_of premises.now) entry declared.now)
        types.old types.new typedefs.new.numbers.items) }
{
    if is_first(premises.sources.basis.types.scope, entry, declared) {
        push_sort(alloc, premises, entry, declared.sort, typedefs, types)
    } else {
        typedefs.push_none()
    }
}

// Puts what variables may be whose types are names of the files behind the others.
fn push_types(
    alloc: Global,
    premises: &Premises<'_>,
    types: &mut TypeShapes,
) -> Result<(), AllocError>
    ensures { OnOk result (types.new ≡ types.old
        ++ scope_types (world_of premises.now) 0 premises.now.sources.basis.types.scope.now) }
{
    let mut typedefs = Typedefs::new(alloc);
    let names = premises.sources.basis.types.scope.names();
    for (entry, declared) in names.iter().enumerate() {
        push_type(alloc, premises, entry, declared, &mut typedefs, types)?;
    }
    Ok(())
}

/// What a variable may be whose type is a name of the files, for each where it is declared first. Typedefs share it where
/// they mean the same as what they stand under, or as the last one that shares with none.
pub fn scope_types(alloc: Global, premises: &Premises<'_>) -> Result<TypeShapes, AllocError>
    ensures { IfOk result (λ types. types
        ≡ scope_types (world_of premises.now) 0 premises.now.sources.basis.types.scope.now) }
{
    let mut types = TypeShapes::new(alloc);
    let done = push_types(alloc, premises, &mut types);
    when(done, types)
}
