//! Parts of which small models are made.

ghost use Rattle.std.specs.Prelude.{◌≡◌, List, [], ◌∷◌, ◌++◌, Ok, IfOk, pos};
ghost use Rattle.domain_core.specs.Domain.{Range, Set};
ghost use Rattle.model_core.specs.declared.item.Item.TheVariants.{Constraint};
ghost use Rattle.domain_core.specs.declared.kind.Kind.TheVariants.{Leq};
ghost use Rattle.model_core.specs.declared.variable.Base.TheVariants.{Given};
ghost use Rattle.model_core.specs.declared.variable.ValueKind.TheVariants.{Int};
ghost use Rattle.tests_samples.specs.Pieces.{listed_variable, bare_class, bare_object};

use domain_core::domain::Dom;
use domain_core::kind::Kind;
use eu_name::sequence::Sequence;
use eu_name::text::Text;
use model_core::class::{Class, Object, ObjectKind};
use model_core::item::{Item, Term};
use model_core::model::{Root, RootKind};
use model_core::variable::{Base, ValueKind, VarDecl};
use std::alloc::{AllocError, Global};

/// The object of this number alone.
pub fn alone_on(alloc: Global, number: i32) -> Result<Dom, AllocError>
    ensures { IfOk result (λ domain. domain ≡ Set (number ∷ [])) }
{
    match Dom::set_of(alloc, &[number]) {
        Ok(domain) => Ok(domain),
        Err(_) => Err(AllocError),
    }
}

/// A variable with a range from 0.
pub fn ranged(alloc: Global, name: &str, greatest: i32) -> Result<VarDecl, AllocError>
    ensures { IfOk result (λ variable. variable
        ≡ record { name = name.now; kind = Int; base = Given (Range (pos 0) greatest) }) }
{
    let Some(domain) = Dom::range(0, greatest) else {
        return Err(AllocError);
    };
    Ok(VarDecl {
        name: Text::from_str(alloc, name)?,
        kind: ValueKind::Int,
        base: Base::Given(domain),
    })
}

/// A variable of a kind whose values are listed.
pub fn listed(alloc: Global, name: &str, kind: ValueKind) -> Result<VarDecl, AllocError>
    ensures { IfOk result (λ variable. variable ≡ listed_variable name.now kind) }
{
    Ok(VarDecl {
        name: Text::from_str(alloc, name)?,
        kind,
        base: Base::Given(alone_on(alloc, 0)?),
    })
}

/// The items of a list with one.
pub fn one<T: Drop>(alloc: Global, item: T) -> Result<Sequence<T>, AllocError>
    ensures { IfOk result (λ items. items ≡ item ∷ []) }
{
    pushed(Sequence::new(alloc), item)
}

/// The items with one more.
pub fn pushed<T: Drop>(items: Sequence<T>, item: T) -> Result<Sequence<T>, AllocError>
    ensures { IfOk result (λ more. more ≡ items ++ item ∷ []) }
{
    let mut items = items;
    items.push(item)?;
    Ok(items)
}

/// The items of a list with one, where it is there.
pub fn only_one<T: Drop>(
    alloc: Global,
    item: Result<T, AllocError>,
) -> Result<Sequence<T>, AllocError>
    ensures { IfOk result (λ items. (this : T) × ((item ≡ Ok this) × (items ≡ this ∷ []))) }
{
    match item {
        Ok(item) => one(alloc, item),
        Err(none) => Err(none),
    }
}

/// The items with one more, where all are there.
pub fn with<T: Drop>(
    items: Result<Sequence<T>, AllocError>,
    item: Result<T, AllocError>,
) -> Result<Sequence<T>, AllocError>
    ensures { IfOk result (λ more. (those : List T)
        × ((this : T) × ((items ≡ Ok those) × (item ≡ Ok this) × (more ≡ those ++ this ∷ [])))) }
{
    match items {
        Ok(items) => match item {
            Ok(item) => pushed(items, item),
            Err(none) => Err(none),
        },
        Err(none) => Err(none),
    }
}

/// A class without fields.
pub fn class(alloc: Global, name: &str) -> Result<Class, AllocError>
    ensures { IfOk result (λ class. class ≡ bare_class name.now) }
{
    Ok(Class {
        name: Text::from_str(alloc, name)?,
        parent: None,
        fields: Sequence::new(alloc),
    })
}

/// An object of a class without fields.
pub fn object(alloc: Global, name: &str, class: u32, kind: ObjectKind) -> Result<Object, AllocError>
    ensures { IfOk result (λ object. object ≡ bare_object name.now class kind) }
{
    Ok(Object {
        name: Text::from_str(alloc, name)?,
        class,
        fields: Sequence::new(alloc),
        kind,
    })
}

/// A root on the object of this number.
pub fn root(
    alloc: Global,
    label: &str,
    kind: RootKind,
    pred: u32,
    object: i32,
) -> Result<Root, AllocError>
    ensures { IfOk result (λ root. root
        ≡ record { label = label.now; kind = kind; pred = pred; object = Set (object ∷ []) }) }
{
    Ok(Root {
        label: Text::from_str(alloc, label)?,
        kind,
        pred,
        object: alone_on(alloc, object)?,
    })
}

/// That the one is at most the other.
pub fn at_most(alloc: Global, one: Term, other: Term) -> Result<Item, AllocError>
    ensures { IfOk result (λ item. item ≡ Constraint Leq (one ∷ other ∷ [])) }
{
    let terms = vec![in alloc; one, other]?;
    Ok(Item::Constraint(Kind::Leq, Sequence::from_vec(terms)))
}
