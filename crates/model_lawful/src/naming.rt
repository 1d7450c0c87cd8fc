//! The names in the scope of the file.

ghost use Rattle.std.specs.Prelude.{◌≡◌, ◌≢◌, ◌↔◌, All, AllPairs, IfOk, IsTrue, [], map};
ghost use Rattle.std.specs.List.{flat_map};
ghost use Rattle.model_core.specs.Naming.{declared_names, file_names, global_names, labels};
ghost use Rattle.model_rules.specs.Distinct.{AddsAll};
ghost use Rattle.model_lawful.specs.Naming.{AddsNext, HaveGlobalNames, HaveOwnNames, IsOwnName};

use eu_name::text::Text;
use model_core::class::Enum;
use model_core::model::Model;
use model_core::variable::VarDecl;
use model_rules::distinct::{add_all, add_members};
use model_rules::forms::{Form, have_form, is_global_name};
use model_rules::named::Named;
use model_rules::seen::Seen;
use std::alloc::{AllocError, Global};

/// Whether each global has a name, or is called by its number.
pub fn have_global_names(alloc: Global, globals: &[VarDecl]) -> Result<bool, AllocError>
    ensures { IfOk result (λ answer. IsTrue answer ↔ HaveGlobalNames globals.now) }
{
    for (number, global) in globals.iter().enumerate() {
        if !is_global_name(alloc, number, global.name.as_bytes())? {
            return Ok(false);
        }
    }
    Ok(true)
}

// Whether the language gives none of the names to a class of its own.
fn are_own(texts: &[Text]) -> bool
    ensures { IsTrue result ↔ All IsOwnName texts.now }
{
    have_form(Form::Own, texts)
}

// Whether the language gives no member's name to a class of its own.
fn have_own_members(enums: &[Enum]) -> bool
    ensures { IsTrue result ↔ All IsOwnName (flat_map (λ found. found.members) enums.now) }
{
    for found in enums {
        if !are_own(found.members.as_slice()) {
            return false;
        }
    }
    true
}

// Whether the language gives none of the globals to a class of its own.
fn are_own_globals(model: &Model) -> bool
    ensures { IsTrue result ↔ All IsOwnName (global_names model.now) }
{
    have_form(Form::Own, model.problem.globals.as_slice())
}

// Whether the language gives none of the labels of roots to a class of its own.
fn are_own_labels(model: &Model) -> bool
    ensures { IsTrue result ↔ All IsOwnName (labels model.now) }
{
    have_form(Form::Own, model.problem.roots.as_slice())
}

// Whether the language gives none of the names of objects to a class of its own.
fn are_own_objects(model: &Model) -> bool
    ensures { IsTrue result ↔ All IsOwnName (map (λ object. object.name) model.now.objects) }
{
    have_form(Form::Own, model.objects.as_slice())
}

// Whether the language gives none of the names of enums to a class of its own.
fn are_own_enums(model: &Model) -> bool
    ensures { IsTrue result ↔ All IsOwnName (map (λ found. found.name) model.now.enums) }
{
    have_form(Form::Own, model.enums.as_slice())
}

// Whether the language gives no member's name of the model's enums to a class of its own.
fn are_own_members(model: &Model) -> bool
    ensures { IsTrue result ↔ All IsOwnName (flat_map (λ found. found.members) model.now.enums) }
{
    have_own_members(model.enums.as_slice())
}

// Whether it is so of all of them.
fn have_own_parts(model: &Model) -> bool
    ensures { IsTrue result ↔ HaveOwnNames model.now }
{
    if !are_own_globals(model) {
        return false;
    }
    if !are_own_labels(model) {
        return false;
    }
    if !are_own_objects(model) {
        return false;
    }
    if !are_own_enums(model) {
        return false;
    }
    are_own_members(model)
}

/// Whether the language gives no name that the file declares to a class of its own.
pub fn have_own_names(model: &Model) -> bool
    ensures { IsTrue result ↔ All IsOwnName (declared_names model.now) }
{
    have_own_parts(model)
}

// Puts the names of the items behind those that are there, if those are all that came so far. Answers whether all names are new.
fn add_next<T: Named>(names: &mut Seen<Text>, items: &[T], so_far: bool) -> Result<bool, AllocError>
    requires { IsTrue so_far → AllPairs ◌≢◌ names.old }
    ensures { IfOk result (λ all_new. AddsNext so_far names.old (map T.named items.now) all_new names.new) }
{
    if !so_far {
        return Ok(false);
    }
    add_all(names, items)
}

// Puts the members of the enums behind the names that are there, if those are all that came so far.
fn add_next_members(
    names: &mut Seen<Text>,
    enums: &[Enum],
    so_far: bool,
) -> Result<bool, AllocError>
    requires { IsTrue so_far → AllPairs ◌≢◌ names.old }
    ensures { IfOk result (λ all_new. AddsNext so_far names.old (flat_map (λ found. found.members) enums.now) all_new names.new) }
{
    if !so_far {
        return Ok(false);
    }
    add_members(names, enums)
}

// Puts what stands in the scope of the file behind no names, up to the first that stands there.
fn add_file(names: &mut Seen<Text>, model: &Model) -> Result<bool, AllocError>
    requires { names.old ≡ [] }
    ensures { IfOk result (λ all_new. AddsAll [] (file_names model.now) all_new names.new) }
{
    let globals = add_next(names, model.problem.globals.as_slice(), true)?;
    let roots = add_next(names, model.problem.roots.as_slice(), globals)?;
    let objects = add_next(names, model.objects.as_slice(), roots)?;
    let enums = add_next(names, model.enums.as_slice(), objects)?;
    let members = add_next_members(names, model.enums.as_slice(), enums)?;
    add_next(names, model.classes.as_slice(), members)
}

/// Whether no name stands twice in the scope of the file.
pub fn are_apart(alloc: Global, model: &Model) -> Result<bool, AllocError>
    ensures { IfOk result (λ answer. IsTrue answer ↔ AllPairs ◌≢◌ (file_names model.now)) }
{
    let mut names = Seen::new(alloc);
    add_file(&mut names, model)
}
