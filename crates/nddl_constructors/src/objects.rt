//! What is wrong with the text of what makes the objects of a program, before any is made.

ghost use Rattle.std.specs.Prelude.{◌≡◌, IfOk, OnOk, map};
ghost use Rattle.nddl_symbols.specs.Finding.{earliest_fault};
ghost use Rattle.nddl_hierarchy.specs.Facts.{facts_of};
ghost use Rattle.nddl_resolve.specs.Paths.{around_of};
ghost use Rattle.nddl_resolve.specs.Following.{understood_faults};
ghost use Rattle.nddl_constructors.specs.Formals.{around_formals};
ghost use Rattle.nddl_constructors.specs.Objects.{creation_of_faults, first_close, foreign_fault, is_alone, is_close, is_closed, is_foreign_class, is_wrong_number, new_faults, object_faults, setting_faults, settings_faults, settings_faults_from, variable_faults_by, writing_faults, writing_faults_from, written_faults};

use super::bodies::note_bodies;
use super::constants::note_value;
use super::creations::{class_alone, is_of_class, note_made};
use super::formals::around_formals;
use nddl_ast::TextKind;
use nddl_ast::declaration::Decl;
use nddl_ast::expression::{Creation, Expr, Init};
use nddl_ast::name::Name;
use nddl_ast::statement::Variable;
use nddl_hierarchy::Basis;
use nddl_resolve::{Around, Denoted, PathFault, expr_denoted};
use nddl_symbols::declared::variable_sort;
use nddl_symbols::{Fault, Meaning, kind_if, note_at};
use nddl_typeexpr::TypeKind;
use nddl_typeexpr::base::base_kind;
use std::alloc::{AllocError, Global};

/// Notes all that is wrong with the text of what makes the objects of the program: with the bodies of constructors, and
/// with each `new` outside of them.
pub fn note_written(
    alloc: Global,
    basis: &Basis<'_>,
    first: &mut Option<Fault>,
) -> Result<(), AllocError>
    ensures { OnOk result (first.new ≡ earliest_fault first.old (written_faults (facts_of basis.now))) }
{
    note_writing(alloc, basis, first_close(basis.decls), basis.decls, first)
}

/// The number of the first declaration that ends the making of objects.
pub fn first_close(decls: &[&Decl]) -> Option<usize>
    ensures { result ≡ first_close (map (λ decl. decl.now) decls.now) }
{
    for (number, decl) in decls.iter().enumerate() {
        if is_close(*decl) {
            return Some(number);
        }
    }
    None
}

fn is_close(decl: &Decl) -> bool
    ensures { result ≡ is_close decl.now }
{
    match decl {
        Decl::Call(call) => call.path.first.text.as_str() == "close"
            && is_alone(call.path.rest.as_slice()),
        _ => false,
    }
}

fn is_alone(rest: &[Name]) -> bool
    ensures { result ≡ is_alone rest.now }
{
    rest.is_empty()
}

/// Whether the making of objects has ended before the declaration of this number.
pub fn is_closed(closed: Option<usize>, decl: usize) -> bool
    ensures { result ≡ is_closed closed decl }
{
    match closed {
        Some(number) => number < decl,
        None => false,
    }
}

// Notes what is wrong with how objects are made in each of the declarations.
#[tactic(auto, using(nddl_symbols::proofs::Earliest::earliest_append))]
fn note_writing(
    alloc: Global,
    basis: &Basis<'_>,
    closed: Option<usize>,
    decls: &[&Decl],
    first: &mut Option<Fault>,
) -> Result<(), AllocError>
    ensures { OnOk result (first.new ≡ earliest_fault first.old
        (writing_faults_from (facts_of basis.now) closed 0 (map (λ decl. decl.now) decls.now))) }
{
    for (number, decl) in decls.iter().enumerate() {
        note_decl(alloc, basis, closed, number, *decl, first)?;
    }
    Ok(())
}

/// Notes what is wrong with how objects are made in the declaration of this number.
pub fn note_decl(
    alloc: Global,
    basis: &Basis<'_>,
    closed: Option<usize>,
    number: usize,
    decl: &Decl,
    first: &mut Option<Fault>,
) -> Result<(), AllocError>
    ensures { OnOk result (first.new ≡ earliest_fault first.old
        (writing_faults (facts_of basis.now) closed number decl.now)) }
{
    match decl {
        Decl::Class { name, members, .. } => note_bodies(
            alloc,
            basis,
            number,
            &name.text,
            members.as_slice(),
            first,
        ),
        Decl::Variable(variable) => note_variable(alloc, basis, closed, number, variable, first),
        _ => Ok(()),
    }
}

// Notes the same of a variable.
fn note_variable(
    alloc: Global,
    basis: &Basis<'_>,
    closed: Option<usize>,
    number: usize,
    variable: &Variable,
    first: &mut Option<Fault>,
) -> Result<(), AllocError>
    ensures { OnOk result (first.new ≡ earliest_fault first.old
        (variable_faults_by (facts_of basis.now) closed number variable.now variable.now.init)) }
{
    match &variable.init {
        Some(Init::New(creation)) => note_new(
            alloc, basis, closed, number, variable, creation, first,
        ),
        _ => Ok(()),
    }
}

// Notes the same of a `new` behind a variable.
#[tactic(auto, using(nddl_symbols::proofs::Earliest::earliest_append))]
fn note_new(
    alloc: Global,
    basis: &Basis<'_>,
    closed: Option<usize>,
    number: usize,
    variable: &Variable,
    creation: &Creation,
    first: &mut Option<Fault>,
) -> Result<(), AllocError>
    ensures { OnOk result (first.new ≡ earliest_fault first.old
        (new_faults (facts_of basis.now) closed number variable.now creation.now)) }
{
    note_at(
        first,
        number,
        creation.at,
        kind_if(is_closed(closed, number), TextKind::Closed),
    );
    note_made_by(alloc, basis, number, variable, creation, first)
}

// Notes what is wrong with what the variable is made by.
fn note_made_by(
    alloc: Global,
    basis: &Basis<'_>,
    number: usize,
    variable: &Variable,
    creation: &Creation,
    first: &mut Option<Fault>,
) -> Result<(), AllocError>
    ensures { OnOk result (first.new ≡ earliest_fault first.old
        (creation_of_faults (facts_of basis.now) number variable.now creation.now)) }
{
    if variable_sort(variable).is_config() {
        note_settings(alloc, basis, number, creation, first)
    } else {
        let kind = base_kind(&basis.types, &variable.declared.base);
        note_object(alloc, basis, number, kind, creation, first)
    }
}

// Notes what is wrong with a `new` behind a variable of this kind.
#[tactic(auto, using(nddl_symbols::proofs::Earliest::earliest_append))]
fn note_object(
    alloc: Global,
    basis: &Basis<'_>,
    number: usize,
    kind: Option<TypeKind>,
    creation: &Creation,
    first: &mut Option<Fault>,
) -> Result<(), AllocError>
    ensures { OnOk result (first.new ≡ earliest_fault first.old
        (object_faults (facts_of basis.now) number kind creation.now)) }
{
    let around = around_formals(None);
    note_made(alloc, basis, &around, number, kind, creation, first)?;
    let fault = foreign_fault(alloc, basis, kind, creation)?;
    note_at(first, number, creation.class.at, fault);
    Ok(())
}

// That the class which is made isn't the one that is declared, nor one under it.
fn foreign_fault(
    alloc: Global,
    basis: &Basis<'_>,
    kind: Option<TypeKind>,
    creation: &Creation,
) -> Result<Option<TextKind>, AllocError>
    ensures { IfOk result (λ fault. fault ≡ foreign_fault (facts_of basis.now) kind creation.now) }
{
    let scope = basis.types.scope;
    let made = class_alone(scope, scope.meaning(&creation.class.text));
    let is_foreign = is_foreign_class(alloc, basis, kind, made)?;
    Ok(kind_if(is_foreign, TextKind::NotInDomain))
}

/// Whether the class that is made is neither the one that is declared nor one under it.
pub fn is_foreign_class(
    alloc: Global,
    basis: &Basis<'_>,
    kind: Option<TypeKind>,
    made: Option<Meaning>,
) -> Result<bool, AllocError>
    ensures { IfOk result (λ foreign. foreign ≡ is_foreign_class (facts_of basis.now) kind made) }
{
    match (kind, made) {
        (Some(TypeKind::Object(class)), Some(made)) => {
            let so = is_of_class(alloc, basis, class, made)?;
            Ok(!so)
        }
        _ => Ok(false),
    }
}

// Notes what is wrong with the settings of a search.
#[tactic(auto, using(nddl_symbols::proofs::Earliest::earliest_append))]
fn note_settings(
    alloc: Global,
    basis: &Basis<'_>,
    number: usize,
    creation: &Creation,
    first: &mut Option<Fault>,
) -> Result<(), AllocError>
    ensures { OnOk result (first.new ≡ earliest_fault first.old
        (settings_faults (facts_of basis.now) number creation.now)) }
{
    let arguments = creation.arguments.as_slice();
    let is_wrong = is_wrong_number(arguments.len());
    note_at(
        first,
        number,
        creation.class.at,
        kind_if(is_wrong, TextKind::WrongCount),
    );
    let around = around_formals(None);
    note_setting_values(alloc, basis, &around, number, arguments, first)
}

fn is_wrong_number(count: usize) -> bool
    ensures { result ≡ is_wrong_number count }
{
    !(count == 3 || count == 4)
}

// Notes what is wrong with the arguments of the settings.
#[tactic(auto, using(nddl_symbols::proofs::Earliest::earliest_append))]
fn note_setting_values(
    alloc: Global,
    basis: &Basis<'_>,
    around: &Around<'_>,
    decl: usize,
    arguments: &[Expr],
    first: &mut Option<Fault>,
) -> Result<(), AllocError>
    ensures { OnOk result (first.new ≡ earliest_fault first.old
        (settings_faults_from (facts_of basis.now) (around_of around.now) decl 0 arguments.now)) }
{
    for (number, argument) in arguments.iter().enumerate() {
        note_setting(alloc, basis, around, decl, number, argument, first)?;
    }
    Ok(())
}

// Notes what is wrong with the argument of this number.
fn note_setting(
    alloc: Global,
    basis: &Basis<'_>,
    around: &Around<'_>,
    decl: usize,
    number: usize,
    argument: &Expr,
    first: &mut Option<Fault>,
) -> Result<(), AllocError>
    ensures { OnOk result (first.new ≡ earliest_fault first.old
        (setting_faults (facts_of basis.now) (around_of around.now) decl number argument.now)) }
{
    if number < 3 {
        let wanted = Some(TypeKind::Int);
        note_value(alloc, basis, around, decl, wanted, argument, first)
    } else {
        let found = expr_denoted(alloc, basis, around, argument)?;
        note_unfound(decl, found, first);
        Ok(())
    }
}

// Notes what is wrong with an argument by itself.
fn note_unfound(decl: usize, found: Result<Denoted, PathFault>, first: &mut Option<Fault>)
    ensures { first.new ≡ earliest_fault first.old (understood_faults decl found) }
{
    if let Err(fault) = found {
        note_at(first, decl, fault.at, Some(fault.kind));
    }
}
