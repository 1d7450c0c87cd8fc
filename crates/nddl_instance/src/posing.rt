//! The problem of a program.

ghost use Rattle.std.specs.Prelude.{◌≡◌, IfOk, length};
ghost use Rattle.nddl_instance.specs.Outside.{outsides_of};
ghost use Rattle.nddl_instance.specs.Asserted.{assertions_of};
ghost use Rattle.nddl_terms.specs.Readings.{no_places};
ghost use Rattle.nddl_instance.specs.Posed.{outside_rules, posed_problem, posing_of, problem_stating, stated_beside, stated_of, stated_with, text_beside};

use super::renumbered::{global_items, push_fields};
use super::settings::{natural_number, setting_or};
use crate::{Assertions, Outside, ProblemText, assertions_of, declared_globals, posted_roots};
use eu_index::NameIndex;
use eu_name::sequence::Sequence;
use model_core::class::Object;
use model_core::item::Item;
use model_core::model::{Placed, Problem, Root};
use model_core::variable::VarDecl;
use nddl_ast::declaration::FileDecls;
use nddl_construction::Datum;
use nddl_env::Premises;
use nddl_symbols::Site;
use nddl_terms::lexicon::as_number;
use nddl_terms::{Lexicon, ReadNames, Reading, TextPlaces};
use std::alloc::{AllocError, Global};

/// What is known where the problem of a program is made.
#[derive(Clone, Copy)]
pub struct Posing<'a> {
    pub premises: Premises<'a>,
    pub lexicon: &'a Lexicon,
    /// As a model has them.
    pub objects: &'a [Object],
    /// The names of the files, each with its place in the scope of their table.
    pub scope: &'a NameIndex,
    pub files: &'a [FileDecls],
    /// Where the joined declarations of the files stand.
    pub sites: &'a [Site],
    /// The values of the settings; none, where there are no settings.
    pub settings: &'a [Option<Datum>],
}

/// What a problem states beside its roots.
#[derive(Drop)]
pub struct Stated {
    pub globals: Sequence<VarDecl>,
    pub items: Sequence<Item>,
    pub decisions: Sequence<Placed>,
}

// Outside of rules the text declares nothing that rules declare.
fn no_places(alloc: Global) -> TextPlaces
    ensures { result ≡ no_places }
{
    TextPlaces {
        turns: Sequence::new(alloc),
        locals: Sequence::new(alloc),
        slots: Sequence::new(alloc),
    }
}

// What is known outside of rules.
fn outside_rules<'a>(posing: &Posing<'a>, places: &'a TextPlaces) -> Outside<'a>
    requires { places.now ≡ no_places }
    ensures { outsides_of result ≡ outside_rules (posing_of posing.now) }
{
    let reading = Reading {
        lexicon: posing.lexicon,
        objects: posing.objects,
        names: ReadNames::new(&[]),
        places,
        pred: 0,
    };
    Outside {
        reading,
        scope: posing.scope,
    }
}

// What is asserted, beside globals of which there are so many.
fn assertions_beside(
    alloc: Global,
    posing: &Posing<'_>,
    outside: &Outside<'_>,
    count: u32,
) -> Result<Assertions, AllocError>
    requires { outsides_of outside.now ≡ outside_rules (posing_of posing.now) }
    ensures { IfOk result (λ asserted. asserted
        ≡ assertions_of (text_beside (posing_of posing.now) count) (posing_of posing.now).world.facts.program) }
{
    let text = ProblemText {
        outside: *outside,
        files: posing.files,
        sites: posing.sites,
        globals: count,
    };
    assertions_of(alloc, &text, posing.premises.sources.basis.decls)
}

// What is stated with these globals and assertions.
fn stated_with(
    alloc: Global,
    count: u32,
    globals: Sequence<VarDecl>,
    asserted: Assertions,
) -> Result<Stated, AllocError>
    requires { count ≡ length globals }
    ensures { IfOk result (λ stated. stated ≡ stated_with globals asserted) }
{
    let Assertions { growth, decisions } = asserted;
    let items = global_items(alloc, count, growth.entries.as_slice())?;
    let mut globals = globals;
    push_fields(alloc, count, growth.locals.as_slice(), &mut globals)?;
    Ok(Stated {
        globals,
        items,
        decisions,
    })
}

// What is stated with these globals.
fn stated_beside(
    alloc: Global,
    posing: &Posing<'_>,
    outside: &Outside<'_>,
    globals: Sequence<VarDecl>,
) -> Result<Stated, AllocError>
    requires { outsides_of outside.now ≡ outside_rules (posing_of posing.now) }
    ensures { IfOk result (λ stated. stated ≡ stated_beside (posing_of posing.now) globals) }
{
    let count = as_number(globals.len())?;
    let asserted = assertions_beside(alloc, posing, outside, count)?;
    stated_with(alloc, count, globals, asserted)
}

// What is stated beside the roots.
fn stated_of(
    alloc: Global,
    posing: &Posing<'_>,
    outside: &Outside<'_>,
) -> Result<Stated, AllocError>
    requires { outsides_of outside.now ≡ outside_rules (posing_of posing.now) }
    ensures { IfOk result (λ stated. stated ≡ stated_of (posing_of posing.now)) }
{
    let globals = declared_globals(alloc, &posing.premises, posing.premises.sources.basis.decls)?;
    stated_beside(alloc, posing, outside, globals)
}

// The problem of these roots and of what is stated beside them.
fn problem_stating(settings: &[Option<Datum>], roots: Sequence<Root>, stated: Stated) -> Problem
    ensures { result ≡ problem_stating settings.now roots stated }
{
    let Stated {
        globals,
        items,
        decisions,
    } = stated;
    Problem {
        start: setting_or(0, settings, 0),
        end: setting_or(1000, settings, 1),
        steps: natural_number(setting_or(1000, settings, 2)),
        roots,
        globals,
        items,
        decisions,
    }
}

// The problem, where this is known outside of rules.
fn problem_outside(
    alloc: Global,
    posing: &Posing<'_>,
    outside: &Outside<'_>,
) -> Result<Problem, AllocError>
    requires { outsides_of outside.now ≡ outside_rules (posing_of posing.now) }
    ensures { IfOk result (λ problem. problem ≡ posed_problem (posing_of posing.now)) }
{
    let roots = posted_roots(alloc, outside, posing.premises.sources.basis.decls)?;
    let stated = stated_of(alloc, posing, outside)?;
    Ok(problem_stating(posing.settings, roots, stated))
}

// The problem, with these places.
fn problem_at<'a>(
    alloc: Global,
    posing: &'a Posing<'a>,
    places: &'a TextPlaces,
) -> Result<Problem, AllocError>
    requires { places.now ≡ no_places }
    ensures { IfOk result (λ problem. problem ≡ posed_problem (posing_of posing.now)) }
{
    let outside = outside_rules(posing, places);
    problem_outside(alloc, posing, &outside)
}

/// The problem of the program.
pub fn problem_of(alloc: Global, posing: &Posing<'_>) -> Result<Problem, AllocError>
    ensures { IfOk result (λ problem. problem ≡ posed_problem (posing_of posing.now)) }
{
    let places = no_places(alloc);
    problem_at(alloc, &*posing, &places)
}
