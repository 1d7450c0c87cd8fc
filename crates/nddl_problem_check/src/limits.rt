//! What is wrong with a problem that only its objects tell, and the limits that it passes.

ghost use Rattle.std.specs.Prelude.{◌≡◌, IfOk, OnOk, map};
ghost use Rattle.nddl_symbols.specs.Finding.{earliest_fault};
ghost use Rattle.nddl_hierarchy.specs.Facts.{facts_of};
ghost use Rattle.nddl_objects.specs.Objects.{progress_of};
ghost use Rattle.nddl_problem_check.specs.Fitness.{outset_at};
ghost use Rattle.nddl_problem_check.specs.Limits.{all_global_places, count_faults, outset_of, past_faults, problem_limit_faults, unfit_faults};

use super::fitness::{Start, note_all_unfit};
use super::made::push_making_places;
use super::posts::{fact_places, global_places, posting_places};
use super::sound::are_sound;
use eu_index::NameIndex;
use nddl_ast::TextKind;
use nddl_construction::Ground;
use nddl_hierarchy::Basis;
use nddl_objects::Program;
use nddl_symbols::fault::note;
use nddl_symbols::{Fault, Place};
use nddl_terms::lexicon::Lexicon;
use std::alloc::{AllocError, Global};

// Notes a fault of the kind at the place that comes behind so many, if there is one.
fn note_past(kind: TextKind, most: usize, places: &[Place], first: &mut Option<Fault>)
    ensures { first.new ≡ earliest_fault first.old (past_faults kind most places.now) }
{
    if let Some(place) = places.get(most) {
        note(
            first,
            Fault {
                place: *place,
                kind,
            },
        );
    }
}

// The globals in their order.
fn all_global_places(alloc: Global, basis: &Basis<'_>) -> Result<Vec<Place>, AllocError>
    ensures { IfOk result (λ places. places.items ≡ all_global_places (facts_of basis.now)) }
{
    let mut places = global_places(alloc, basis.decls)?;
    push_making_places(alloc, basis, basis.decls, &mut places)?;
    Ok(places)
}

// Notes that there are too many roots, facts or globals.
#[tactic(auto, using(nddl_symbols::proofs::Earliest::earliest_append))]
fn note_counts(
    alloc: Global,
    basis: &Basis<'_>,
    first: &mut Option<Fault>,
) -> Result<(), AllocError>
    ensures { OnOk result (first.new ≡ earliest_fault first.old (count_faults (facts_of basis.now))) }
{
    let posted = posting_places(alloc, basis.decls)?;
    note_past(TextKind::LimitRoots, 4096, posted.as_slice(), first);
    let facts = fact_places(alloc, basis.decls)?;
    note_past(TextKind::LimitFacts, 512, facts.as_slice(), first);
    let globals = all_global_places(alloc, basis)?;
    note_past(TextKind::LimitGlobals, 4096, globals.as_slice(), first);
    Ok(())
}

// Notes what is wrong with declarations now that objects are made.
fn note_unfit_at(
    alloc: Global,
    start: &Start<'_>,
    first: &mut Option<Fault>,
) -> Result<(), AllocError>
    ensures { OnOk result (first.new ≡ earliest_fault first.old (unfit_faults (outset_at start.now))) }
{
    let are_fine = are_sound(alloc, start)?;
    note_all_unfit(alloc, start, are_fine, start.footing.basis.decls, first)
}

// Notes it, where this has been made of the program.
fn note_unfit_in(
    alloc: Global,
    basis: &Basis<'_>,
    program: &Program,
    lexicon: &Lexicon,
    scope: &NameIndex,
    first: &mut Option<Fault>,
) -> Result<(), AllocError>
    ensures { OnOk result (first.new ≡ earliest_fault first.old
        (unfit_faults (outset_of (facts_of basis.now) (progress_of program.now) lexicon.now scope.now))) }
{
    let start = Start {
        footing: Ground {
            basis: *basis,
            named_objects: program.named_objects.as_slice(),
        },
        objects: program.making.objects.as_slice(),
        lexicon,
        scope,
        met: program.making.first,
    };
    note_unfit_at(alloc, &start, first)
}

/// Notes all that is wrong with a problem that only its objects tell, and the limits that it passes, but for those of
/// rules. These are its objects, and the lexicon with the places of names in its scope.
#[tactic(auto, using(nddl_symbols::proofs::Earliest::earliest_append))]
pub fn note_problem_limits(
    alloc: Global,
    basis: &Basis<'_>,
    program: &Program,
    lexicon: &Lexicon,
    scope: &NameIndex,
    first: &mut Option<Fault>,
) -> Result<(), AllocError>
    ensures { OnOk result (first.new ≡ earliest_fault first.old
        (problem_limit_faults (facts_of basis.now) (progress_of program.now) lexicon.now scope.now)) }
{
    note_unfit_in(alloc, basis, program, lexicon, scope, first)?;
    note_counts(alloc, basis, first)
}
