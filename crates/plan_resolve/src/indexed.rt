//! A model with an index of the names of its roots, globals and objects.

ghost use Rattle.std.specs.Prelude.{◌≡◌, ◌<◌, ◌^◌, ◌++◌, ◌∷◌, [], ℕ, List, Some, length, map, slice_get, Contains, IfOk, OnOk, MatchOption};
ghost use Rattle.model_core.specs.declared.class.Object.{Object as Made};
ghost use Rattle.model_core.specs.declared.model.Root.{Root as Posted};
ghost use Rattle.model_core.specs.declared.variable.VarDecl.{VarDecl as Declared};
ghost use Rattle.model_core.specs.Lawful.{IsLawful};
ghost use Rattle.model_core.specs.Naming.{names_of};
ghost use Rattle.model_core.specs.Tokens.{IsRoot};
ghost use Rattle.model_core.specs.Variables.{IsGlobal};
ghost use Rattle.plan_resolve.specs.Indexing.{IsIndexOf, IsModelIndex, object_names};

use super::word_index::WordIndex;
use eu_index::NameIndex;
use eu_name::text::Text;
use model_core::class::Object;
use model_core::model::{Model, Root};
use model_core::variable::VarDecl;
use std::alloc::{AllocError, Global};
use std::marker;

/// An index of the names of a model's roots, globals and objects. It is made once, and owned apart from the model.
#[derive(Drop)]
pub struct ModelIndex {
    roots: NameIndex,
    globals: NameIndex,
    objects: WordIndex,
}

/// A model whose roots, globals and objects are looked up by an index, and not one after another.
#[derive(Drop)]
pub struct IndexedModel<'a> {
    model: &'a Model,
    index: &'a ModelIndex,
}

impl<'a> marker::Model for IndexedModel<'a> {
    ghost use Rattle.model_core.specs.declared.model.Model.{Model as Problem};

    ghost Value = { Problem };

    ghost use Rattle.model_core.specs.contracts.model.Model as a_model;
    ghost use Rattle.plan_resolve.specs.Indexing.{IsModelIndex};

    ghost coded = { a_model.the_row.coded };

    ghost view = { λ indexed. indexed.model.now };

    ghost invariant = { λ indexed. IsModelIndex indexed.model.now indexed.index.now };
}

// Notes the name that comes next.
fn note_next(index: &mut NameIndex, name: &Text, place: usize) -> Result<(), AllocError>
    ensures { OnOk result ((names : List (List ℕ)) → length names ≡ place
        → IsIndexOf names index.old → IsIndexOf (names ++ name.now ∷ []) index.new) }
{
    index.note(name, place)?;
    Ok(())
}

// The places of the labels.
fn index_of_labels(alloc: Global, roots: &[Root]) -> Result<NameIndex, AllocError>
    ensures { IfOk result (IsIndexOf (map (λ root. root.label) roots.now)) }
{
    let mut index = NameIndex::new(alloc);
    for place in 0..roots.len() {
        note_next(&mut index, &roots[place].label, place)?;
    }
    Ok(index)
}

// The places of the names of the variables.
fn index_of_names(alloc: Global, variables: &[VarDecl]) -> Result<NameIndex, AllocError>
    ensures { IfOk result (IsIndexOf (names_of variables.now)) }
{
    let mut index = NameIndex::new(alloc);
    for place in 0..variables.len() {
        note_next(&mut index, &variables[place].name, place)?;
    }
    Ok(index)
}

// Where the name stands among the names, which are few.
fn place_of(index: &NameIndex, name: &Text) -> Option<u32>
    requires { (names : List (List ℕ)) × IsIndexOf names index.now × (length names < 2 ^ 32) }
    ensures { (names : List (List ℕ)) → IsIndexOf names index.now
        → MatchOption result (Contains names name.now → ⊥) (λ place. slice_get names place ≡ Some name.now) }
{
    match index.find(name) {
        Some(place) => Some(place as u32),
        None => None,
    }
}

// Notes the name of the object that comes next.
fn note_object(
    index: &mut WordIndex,
    alloc: Global,
    name: &Text,
    place: usize,
) -> Result<(), AllocError>
    ensures { OnOk result ((names : List (List ℕ)) → length names ≡ place
        → IsIndexOf names index.old → IsIndexOf (names ++ name.now ∷ []) index.new) }
{
    index.note(alloc, name.as_bytes(), place)
}

// The places of the names of the objects.
fn index_of_objects(alloc: Global, objects: &[Object]) -> Result<WordIndex, AllocError>
    ensures { IfOk result (IsIndexOf (object_names objects.now)) }
{
    let mut index = WordIndex::new(alloc);
    for place in 0..objects.len() {
        note_object(&mut index, alloc, &objects[place].name, place)?;
    }
    Ok(index)
}

impl ModelIndex {
    /// The index of the model.
    pub fn new(alloc: Global, model: &Model) -> Result<ModelIndex, AllocError>
        ensures { IfOk result (IsModelIndex model.now) }
    {
        let roots = index_of_labels(alloc, model.problem.roots.as_slice())?;
        let globals = index_of_names(alloc, model.problem.globals.as_slice())?;
        let objects = index_of_objects(alloc, model.objects.as_slice())?;
        Ok(ModelIndex {
            roots,
            globals,
            objects,
        })
    }

    /// The model with its index.
    pub fn of<'a>(&'a self, model: &'a Model) -> IndexedModel<'a>
        requires { IsModelIndex model.now self.now }
        ensures { result ≡ model.now }
    {
        IndexedModel { model, index: self }
    }
}

impl<'a> IndexedModel<'a> {
    /// The model.
    pub fn model(&self) -> &Model
        ensures { result.now ≡ self.now }
    {
        self.model
    }

    /// The number of the root with this label.
    pub fn root_labelled(&self, label: &Text) -> Option<u32>
        requires { length self.now.problem.roots < 2 ^ 32 }
        ensures { MatchOption result
            ((number : ℕ) (root : Posted) → IsRoot self.now number root → root.label ≡ label.now → ⊥)
            (λ number. (root : Posted) × IsRoot self.now number root × (root.label ≡ label.now)) }
    {
        place_of(&self.index.roots, label)
    }

    /// The number of the global of this name.
    pub fn global_named(&self, name: &Text) -> Option<u32>
        requires { length self.now.problem.globals < 2 ^ 32 }
        ensures { MatchOption result
            ((number : ℕ) (variable : Declared) → IsGlobal self.now number variable → variable.name ≡ name.now → ⊥)
            (λ number. (variable : Declared) × IsGlobal self.now number variable × (variable.name ≡ name.now)) }
    {
        place_of(&self.index.globals, name)
    }
    /// The number of the object of this name.
    pub fn object_named(&self, word: &[u8]) -> Option<usize>
        ensures { MatchOption result
            ((place : ℕ) (object : Made) → slice_get self.now.objects place ≡ Some object → object.name ≡ word.now → ⊥)
            (λ place. (object : Made) × (slice_get self.now.objects place ≡ Some object) × (object.name ≡ word.now)) }
    {
        self.index.objects.find(word)
    }
}
