//! What the classes extend.

ghost use Rattle.std.specs.Prelude.{◌≡◌, ◌↔◌, ◌<◌, ℕ, Some, IfOk, IsTrue, MatchOption};
ghost use Rattle.eu_forest.specs.declared.lineage.Rootedness.TheVariants.{Rooted};
ghost use Rattle.eu_forest.specs.Lines.{AreParents, rootedness_in};
ghost use Rattle.model_typing.specs.Ground.{AreClassParents};
ghost use Rattle.model_lawful.specs.Classes.{AreInLine, parents_of};

use eu_forest::{Lineage, Parents, Rootedness};
use model_core::class::Class;
use model_core::model::Model;
use std::alloc::{AllocError, Global};

// What the class extends.
fn parent_of(class: &Class) -> Option<usize>
    ensures { result ≡ class.now.parent }
{
    match class.parent {
        Some(parent) => Some(parent as usize),
        None => None,
    }
}

// What each class extends.
fn parents_of(alloc: Global, model: &Model) -> Result<Vec<Option<usize>>, AllocError>
    ensures { IfOk result (λ parents. parents.items ≡ parents_of model.now) }
{
    model
        .classes
        .as_slice()
        .iter()
        .map(parent_of)
        .collect(alloc)
}

// Whether it is one of so many things, if there is one.
fn is_there(parent: Option<usize>, count: usize) -> bool
    ensures { IsTrue result ↔ ((number : ℕ) → parent ≡ Some number → number < count) }
{
    match parent {
        Some(number) => number < count,
        None => true,
    }
}

// Whether all that is extended is there.
fn are_there(parents: &[Option<usize>]) -> bool
    ensures { IsTrue result ↔ AreParents parents.now }
{
    for parent in parents {
        if !is_there(*parent, parents.len()) {
            return false;
        }
    }
    true
}

// Whether a thing leads up to one that stands under none.
fn is_rooted(rootedness: Option<Rootedness>) -> bool
    ensures { IsTrue result ↔ (rootedness ≡ Some Rooted) }
{
    match rootedness {
        Some(Rootedness::Rooted) => true,
        Some(Rootedness::OnCircle) => false,
        Some(Rootedness::Leading) => false,
        None => false,
    }
}

// Whether all of so many things lead up to one that stands under none.
fn are_rooted(lineage: &Lineage, count: usize) -> bool
    ensures { IsTrue result ↔ ((number : ℕ) → number < count → rootedness_in lineage.now.marks.items number ≡ Some Rooted) }
{
    for number in 0..count {
        if !is_rooted(lineage.rootedness(number)) {
            return false;
        }
    }
    true
}

// What the classes extend, which is this, if all of them lead up to one that extends none.
fn parents_over(
    alloc: Global,
    model: &Model,
    parents: Vec<Option<usize>>,
) -> Result<Option<Parents>, AllocError>
    requires parents { parents.items ≡ parents_of model.now }
    requires there { AreParents parents.items }
    ensures { IfOk result (λ found. MatchOption found
        (AreInLine model.now → ⊥)
        (λ parents. AreInLine model.now × AreClassParents model.now parents)) }
{
    let lineage = Lineage::of(alloc, parents.as_slice())?;
    if !are_rooted(&lineage, parents.len()) {
        return Ok(None);
    }
    let found = Parents::of(alloc, parents, lineage.order())?;
    Ok(Some(found))
}

/// What the model's classes extend, unless one extends a class that isn't there, or itself over others.
pub fn class_parents(alloc: Global, model: &Model) -> Result<Option<Parents>, AllocError>
    ensures { IfOk result (λ found. MatchOption found
        (AreInLine model.now → ⊥)
        (λ parents. AreInLine model.now × AreClassParents model.now parents)) }
{
    let parents = parents_of(alloc, model)?;
    if !are_there(parents.as_slice()) {
        return Ok(None);
    }
    parents_over(alloc, model, parents)
}
