//! Objects in the sets of types.

ghost use Rattle.std.specs.Prelude.{◌≡◌, IfOk, OnOk, Some, map};
ghost use Rattle.nddl_symbols.specs.declared.scope.Meaning.TheVariants.{Entry};
ghost use Rattle.std.specs.Option.{option_copied};
ghost use Rattle.nddl_symbols.specs.Finding.{earliest_fault};
ghost use Rattle.nddl_hierarchy.specs.Ancestors.{class_of_object, made_in, object_of, object_of_meaning};
ghost use Rattle.nddl_hierarchy.specs.Facts.{faults_of_foreign, faults_of_objects, is_foreign_in, is_outside_in};

use super::basis::Basis;
use super::decls::decl_at;
use super::lines::is_same_meaning;
use super::under::is_under;
use nddl_ast::TextKind;
use nddl_ast::declaration::Decl;
use nddl_ast::expression::{Bounds, Init, Value};
use nddl_ast::name::Name;
use nddl_symbols::{Declared, Fault, Meaning, Scope, Sort, kind_if, note_at};
use nddl_typeexpr::TypeKind;
use std::alloc::{AllocError, Global};

/// Notes each object in the bounds of a type of this kind that isn't of its class.
pub fn note_objects(
    alloc: Global,
    basis: &Basis<'_>,
    decl: usize,
    kind: Option<TypeKind>,
    bounds: &Bounds,
    first: &mut Option<Fault>,
) -> Result<(), AllocError>
    ensures { OnOk result (first.new ≡ earliest_fault first.old (faults_of_objects basis.now decl kind bounds.now)) }
{
    match (kind, bounds) {
        (Some(TypeKind::Object(class)), Bounds::Set { values, .. }) => {
            note_foreign(alloc, basis, decl, class, values.as_slice(), first)
        }
        _ => Ok(()),
    }
}

// Notes each of the values that is an object of another class.
#[tactic(auto, using(nddl_symbols::proofs::Earliest::earliest_append))]
fn note_foreign(
    alloc: Global,
    basis: &Basis<'_>,
    decl: usize,
    class: Meaning,
    values: &[Value],
    first: &mut Option<Fault>,
) -> Result<(), AllocError>
    ensures { OnOk result (first.new ≡ earliest_fault first.old (faults_of_foreign basis.now decl class values.now)) }
{
    for value in values {
        let foreign = is_foreign(alloc, basis, class, value)?;
        note_at(
            first,
            decl,
            value.place(),
            kind_if(foreign, TextKind::NotInDomain),
        );
    }
    Ok(())
}

/// Whether the value names an object of another class.
pub fn is_foreign(
    alloc: Global,
    basis: &Basis<'_>,
    class: Meaning,
    value: &Value,
) -> Result<bool, AllocError>
    ensures { IfOk result (λ foreign. foreign ≡ is_foreign_in basis.now class value.now) }
{
    match object_of(basis.types.scope, value) {
        Some(object) => {
            let made = class_of_object(basis.types.scope, basis.decls, object);
            is_outside(alloc, basis, class, made)
        }
        None => Ok(false),
    }
}

// The object that the value names.
fn object_of<'a>(scope: &'a Scope, value: &Value) -> Option<&'a Declared>
    ensures { option_copied result ≡ object_of scope.now value.now }
{
    match value {
        Value::Name(name) => object_of_meaning(scope, scope.meaning(&name.text)?),
        Value::Literal(_) => None,
    }
}

fn object_of_meaning(scope: &Scope, meaning: Meaning) -> Option<&Declared>
    ensures { option_copied result ≡ object_of_meaning scope.now meaning }
{
    match meaning {
        Meaning::BuiltIn(_) => None,
        Meaning::Entry(entry) => {
            let declared = scope.names().get(entry)?;
            match declared.sort {
                Sort::Object => Some(declared),
                _ => None,
            }
        }
    }
}

// The class behind `new`.
fn made_in(decl: &Decl) -> Option<&Name>
    ensures { option_copied result ≡ made_in decl.now }
{
    match decl {
        Decl::Variable(variable) => match &variable.init {
            Some(Init::New(creation)) => Some(&creation.class),
            _ => None,
        },
        _ => None,
    }
}

// The class of which the object is made.
fn class_of_object(scope: &Scope, decls: &[&Decl], declared: &Declared) -> Option<Meaning>
    ensures { result ≡ class_of_object scope.now (map (λ decl. decl.now) decls.now) declared.now }
{
    let decl = decl_at(decls, declared.place.decl)?;
    let name = made_in(decl)?;
    scope.meaning(&name.text)
}

/// Whether what is of the one class isn't of the other.
pub fn is_outside(
    alloc: Global,
    basis: &Basis<'_>,
    class: Meaning,
    made: Option<Meaning>,
) -> Result<bool, AllocError>
    ensures { IfOk result (λ outside. outside ≡ is_outside_in basis.now class made) }
{
    match made {
        None => Ok(false),
        Some(Meaning::BuiltIn(number)) => Ok(
            !(is_same_meaning(class, Meaning::BuiltIn(0))
                || is_same_meaning(class, Meaning::BuiltIn(number))),
        ),
        Some(Meaning::Entry(entry)) => is_outside_entry(alloc, basis, class, entry),
    }
}

fn is_outside_entry(
    alloc: Global,
    basis: &Basis<'_>,
    class: Meaning,
    entry: usize,
) -> Result<bool, AllocError>
    ensures { IfOk result (λ outside. outside ≡ is_outside_in basis.now class (Some (Entry entry))) }
{
    if basis.types.scope.is_class(entry) {
        let under = is_under(alloc, basis, class, entry)?;
        Ok(!under)
    } else {
        Ok(false)
    }
}
