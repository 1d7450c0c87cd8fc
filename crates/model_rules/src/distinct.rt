//! Lists in which no name stands twice.

ghost use Rattle.std.specs.Prelude.{◌≡◌, ◌≢◌, ◌↔◌, ◌<◌, ◌^◌, AllPairs, IfOk, IsTrue, OnOk, [], length, map};
ghost use Rattle.std.specs.List.{flat_map};
ghost use Rattle.model_rules.specs.Distinct.{AddsAll, AreApart, AreFree, HasFields, HasMore, field_key, pred_key};

use super::named::Named;
use super::seen::Seen;
use eu_name::laws::names_are_told_apart;
use eu_name::text::Text;
use model_core::class::{Class, Enum, Pred};
use model_core::variable::VarDecl;
use std::alloc::{AllocError, Global};

/// Puts the names of the items behind those that are there, up to the first that is among them. Answers whether there was none.
pub fn add_all<T: Named>(names: &mut Seen<Text>, items: &[T]) -> Result<bool, AllocError>
    requires { AllPairs ◌≢◌ names.old }
    ensures { IfOk result (λ all_new. AddsAll names.old (map T.named items.now) all_new names.new) }
{
    names_are_told_apart();
    for item in items {
        let name = item.name().copy()?;
        if !names.add(name)? {
            return Ok(false);
        }
    }
    Ok(true)
}

/// Puts the members of the enums behind the names that are there, up to the first that is among them. Answers whether there was none.
pub fn add_members(names: &mut Seen<Text>, enums: &[Enum]) -> Result<bool, AllocError>
    requires { AllPairs ◌≢◌ names.old }
    ensures { IfOk result (λ all_new. AddsAll names.old (flat_map (λ found. found.members) enums.now) all_new names.new) }
{
    for found in enums {
        if !add_all(names, found.members.as_slice())? {
            return Ok(false);
        }
    }
    Ok(true)
}

/// Whether no two of the items have one name.
pub fn are_distinct<T: Named>(alloc: Global, items: &[T]) -> Result<bool, AllocError>
    ensures { IfOk result (λ answer. IsTrue answer ↔ AllPairs ◌≢◌ (map T.named items.now)) }
{
    let mut names = Seen::new(alloc);
    add_all(&mut names, items)
}

/// Whether no two predicates of one class have one name, and none has that of a field of its class.
pub fn are_apart(alloc: Global, classes: &[Class], preds: &[Pred]) -> Result<bool, AllocError>
    requires { length classes.now < 2 ^ 32 }
    ensures { IfOk result (λ answer. IsTrue answer ↔ (AreApart preds.now × AreFree classes.now preds.now)) }
{
    let mut names = Seen::new(alloc);
    add_fields(&mut names, classes)?;
    add_preds(&mut names, preds)
}

// Puts the fields of the class of this number with it behind those that are there, where they aren't among them.
fn add_fields_of(
    names: &mut Seen<(u32, Text)>,
    class: u32,
    fields: &[VarDecl],
) -> Result<(), AllocError>
    requires { AllPairs ◌≢◌ names.old }
    ensures { OnOk result (HasMore names.old (map (field_key class) fields.now) names.new) }
{
    names_are_told_apart();
    for field in fields {
        let name = field.name.copy()?;
        let _is_new = names.add((class, name))?;
    }
    Ok(())
}

// Gathers the fields of the classes, each with the number of its class.
fn add_fields(names: &mut Seen<(u32, Text)>, classes: &[Class]) -> Result<(), AllocError>
    requires empty { names.old ≡ [] }
    requires few { length classes.now < 2 ^ 32 }
    ensures { OnOk result (HasFields classes.now names.new) }
{
    for (number, class) in classes.iter().enumerate() {
        add_fields_of(names, number as u32, class.fields.as_slice())?;
    }
    Ok(())
}

// Puts the predicates' names with their classes behind those that are there, up to the first that is among them. Answers whether
// there was none.
fn add_preds(names: &mut Seen<(u32, Text)>, preds: &[Pred]) -> Result<bool, AllocError>
    requires { AllPairs ◌≢◌ names.old }
    ensures { IfOk result (λ all_new. AddsAll names.old (map pred_key preds.now) all_new names.new) }
{
    names_are_told_apart();
    for pred in preds {
        let name = pred.name.copy()?;
        if !names.add((pred.class, name))? {
            return Ok(false);
        }
    }
    Ok(true)
}
