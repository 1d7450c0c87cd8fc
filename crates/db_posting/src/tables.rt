//! Tables of what objects have in their fields.

ghost use Rattle.std.specs.Prelude.{◌≡◌, ◌≤◌, ◌<◌, [], length, All, IfOk, OnOk};
ghost use Rattle.model_core.specs.Lawful.{IsLawful};
ghost use Rattle.db_refine.specs.Claims.{AreFieldsOf};
ghost use Rattle.db_posting.specs.Tables.{ListsField, AddsField, HaveTables, OnlyTables};

use db_store::Store;
use model_core::model::Model;
use std::alloc::{AllocError, Global};

// How many fields the class with the most of them has. Without memory where the count doesn't fit a table's number.
fn most_fields(model: &Model) -> Result<u32, AllocError>
    ensures { IfOk result (λ most. All (λ class. length class.fields ≤ most) model.now.classes) }
{
    let mut most = 0;
    for class in model.classes.as_slice() {
        most = class.fields.len().max(most);
    }
    if most > u32::MAX as usize {
        return Err(AllocError);
    }
    Ok(most as u32)
}

// The objects that have the field of this number, each with its value.
fn field_pairs(alloc: Global, model: &Model, number: u32) -> Result<Vec<(i32, i32)>, AllocError>
    requires { IsLawful model.now }
    ensures { IfOk result (λ pairs. ListsField model.now number pairs.items) }
{
    let mut pairs = Vec::new(alloc);
    for (place, object) in model.objects.as_slice().iter().enumerate() {
        if let Some(value) = object.fields.as_slice().get(number as usize) {
            pairs.push((place as i32, *value))?;
        }
    }
    Ok(pairs)
}

// Adds the table of the field of this number.
fn add_field(alloc: Global, store: &mut Store, model: &Model, number: u32) -> Result<(), AllocError>
    requires lawful { IsLawful model.now }
    requires number { length store.old.net.tables ≡ number }
    ensures ok { OnOk result (AddsField model.now store.old.net.tables store.new.net.tables) }
    ensures only { OnlyTables store.old store.new }
{
    let pairs = field_pairs(alloc, model, number)?;
    store.add_table(pairs.as_slice())?;
    Ok(())
}

/// Adds a table for each number of a field, with all objects that have it, so that a field keeps its number.
pub fn add_tables(alloc: Global, store: &mut Store, model: &Model) -> Result<(), AllocError>
    requires lawful { IsLawful model.now }
    requires none { store.old.net.tables ≡ [] }
    ensures fields { OnOk result (AreFieldsOf model.now store.new.net.tables) }
    ensures each { OnOk result (HaveTables model.now store.new.net.tables) }
    ensures only { OnlyTables store.old store.new }
{
    for number in 0..most_fields(model)? {
        add_field(alloc, store, model, number)?;
    }
    Ok(())
}
