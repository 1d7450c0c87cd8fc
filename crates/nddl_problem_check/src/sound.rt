//! Whether anything is wrong with the objects of a program.

ghost use Rattle.std.specs.Prelude.{◌≡◌, IfOk, OnOk, map};
ghost use Rattle.nddl_symbols.specs.Finding.{earliest_fault};
ghost use Rattle.nddl_problem_check.specs.Fitness.{outset_at};
ghost use Rattle.nddl_problem_check.specs.Sound.{are_sound, is_filled_stand, is_making, making_faults, making_faults_from};

use super::fitness::{Start, is_void_class, placed_stand};
use nddl_ast::declaration::Decl;
use nddl_constructors::objects::{first_close, note_decl};
use nddl_symbols::Fault;
use nddl_symbols::declared::variable_sort;
use nddl_terms::lexicon::Lexicon;
use nddl_terms::stands::Stand;
use std::alloc::{AllocError, Global};

// Whether this is a class that has an object, so that its constructor has run.
fn is_filled_stand(lexicon: &Lexicon, stand: Option<Stand>) -> bool
    ensures { result ≡ is_filled_stand lexicon.now stand }
{
    match stand {
        Some(Stand::Class(class)) => !is_void_class(lexicon, class),
        _ => false,
    }
}

// Whether the text of the declaration counts among what makes objects.
fn is_making(start: &Start<'_>, decl: &Decl) -> Result<bool, AllocError>
    ensures { IfOk result (λ making. making ≡ is_making (outset_at start.now) decl.now) }
{
    match decl {
        Decl::Class { name, .. } => {
            let stand = placed_stand(start.lexicon, start.scope, &name.text)?;
            Ok(is_filled_stand(start.lexicon, stand))
        }
        Decl::Variable(variable) => Ok(!variable_sort(variable).is_config()),
        _ => Ok(false),
    }
}

// Notes what is wrong with the text of the declaration of this number, if it counts.
fn note_making(
    alloc: Global,
    start: &Start<'_>,
    closed: Option<usize>,
    number: usize,
    decl: &Decl,
    first: &mut Option<Fault>,
) -> Result<(), AllocError>
    ensures { OnOk result (first.new ≡ earliest_fault first.old
        (making_faults (outset_at start.now) closed number decl.now)) }
{
    if is_making(start, decl)? {
        note_decl(alloc, &start.footing.basis, closed, number, decl, first)
    } else {
        Ok(())
    }
}

// Notes what is wrong with the texts of the declarations that count.
#[tactic(auto, using(nddl_symbols::proofs::Earliest::earliest_append))]
fn note_all_making(
    alloc: Global,
    start: &Start<'_>,
    closed: Option<usize>,
    decls: &[&Decl],
    first: &mut Option<Fault>,
) -> Result<(), AllocError>
    ensures { OnOk result (first.new ≡ earliest_fault first.old
        (making_faults_from (outset_at start.now) closed 0 (map (λ decl. decl.now) decls.now))) }
{
    for (number, decl) in decls.iter().enumerate() {
        note_making(alloc, start, closed, number, *decl, first)?;
    }
    Ok(())
}

/// Whether nothing is wrong with an object. The text that makes objects is judged once more for it.
pub fn are_sound(alloc: Global, start: &Start<'_>) -> Result<bool, AllocError>
    ensures { IfOk result (λ sound. sound ≡ are_sound (outset_at start.now)) }
{
    let mut first = start.met;
    let decls = start.footing.basis.decls;
    note_all_making(alloc, start, first_close(decls), decls, &mut first)?;
    Ok(first.is_none())
}
