//! What the text of a problem asserts.

ghost use Rattle.std.specs.Prelude.{◌≡◌, [], IfOk, MatchResult, Ok, Err, OnOk, map};
ghost use Rattle.nddl_instance.specs.Outside.{outsides_of};
ghost use Rattle.nddl_instance.specs.Asserted.{act_argument, assertions_of, name_of_file, no_assertions, text_of_problem, with_act, with_declaration, with_declarations, with_outer_call, with_stated};

use super::constraints::{add_word, argument};
use super::decisions::{act_decision, push_placed};
use crate::Outside;
use crate::outside::names_stand;
use eu_name::sequence::Sequence;
use model_core::model::Placed;
use nddl_ast::declaration::{Decl, FileDecls};
use nddl_ast::expression::Expr;
use nddl_ast::name::Name;
use nddl_ast::path::{front, last};
use nddl_ast::statement::Call;
use nddl_symbols::place::file_of;
use nddl_symbols::{Place, Site};
use nddl_terms::{Growth, Stand};
use std::alloc::{AllocError, Global};

/// What is known where the text of a problem is read.
#[derive(Clone, Copy)]
pub struct ProblemText<'a> {
    pub outside: Outside<'a>,
    pub files: &'a [FileDecls],
    /// Where the joined declarations of the files stand.
    pub sites: &'a [Site],
    /// How many globals are declared.
    pub globals: u32,
}

/// What is asserted.
#[derive(Drop)]
pub struct Assertions {
    /// The constraints, with the locals that stand for fields.
    pub growth: Growth,
    pub decisions: Sequence<Placed>,
}

// Nothing.
fn no_assertions(alloc: Global) -> Assertions
    ensures { result ≡ no_assertions }
{
    Assertions {
        growth: Growth::new(alloc),
        decisions: Sequence::new(alloc),
    }
}

// What stands for the argument of an act.
fn act_argument(
    alloc: Global,
    outside: &Outside<'_>,
    exprs: &[Expr],
    growth: &mut Growth,
) -> Result<Stand, AllocError>
    ensures grown { OnOk result (growth.new ≡ (act_argument (outsides_of outside.now) exprs.now growth.old).growth) }
    ensures stand { IfOk result (λ stand. stand
        ≡ (act_argument (outsides_of outside.now) exprs.now growth.old).stand) }
{
    match exprs.first() {
        Some(expr) => argument(alloc, outside, expr, growth),
        None => Ok(Stand::Nothing),
    }
}

// The name of the file in which the declaration of this number stands.
fn name_of_file<'a>(text: &ProblemText<'a>, number: usize) -> &'a str
    ensures { result.now ≡ name_of_file (text_of_problem text.now) number }
{
    let place = Place {
        decl: number,
        at: 0,
    };
    match file_of(text.files, text.sites, place) {
        Some(file) => file.name.as_str(),
        None => "",
    }
}

// The decision that an act makes behind the path of these names.
fn add_act(
    alloc: Global,
    text: &ProblemText<'_>,
    number: usize,
    call: &Call,
    rest: &[Name],
    asserted: &mut Assertions,
) -> Result<(), AllocError>
    ensures { OnOk result (asserted.new ≡ with_act (text_of_problem text.now) number call.now
        (record { first = call.now.path.first; rest = rest.now }) asserted.old) }
{
    let first = &call.path.first;
    let owner = names_stand(alloc, &text.outside, first, rest, &mut asserted.growth)?;
    let given = act_argument(
        alloc,
        &text.outside,
        call.arguments.as_slice(),
        &mut asserted.growth,
    )?;
    let act = &last(&call.path).text;
    let decision = act_decision(alloc, text.globals, act, owner, given)?;
    push_placed(
        alloc,
        name_of_file(text, number),
        first.at,
        decision,
        &mut asserted.decisions,
    )
}

// The constraint that a word states.
fn add_stated(
    alloc: Global,
    outside: &Outside<'_>,
    call: &Call,
    asserted: &mut Assertions,
) -> Result<(), AllocError>
    ensures { OnOk result (asserted.new ≡ with_stated (outsides_of outside.now) call.now asserted.old) }
{
    add_word(
        alloc,
        outside,
        &call.path.first.text,
        call.arguments.as_slice(),
        &mut asserted.growth,
    )
}

// What a call says.
fn add_call(
    alloc: Global,
    text: &ProblemText<'_>,
    number: usize,
    call: &Call,
    asserted: &mut Assertions,
) -> Result<(), AllocError>
    ensures { OnOk result (asserted.new ≡ with_outer_call (text_of_problem text.now) number call.now asserted.old) }
{
    match front(&call.path) {
        Some(rest) => add_act(alloc, text, number, call, rest, asserted),
        None => add_stated(alloc, &text.outside, call, asserted),
    }
}

// What the declaration of this number says.
fn add_declaration(
    alloc: Global,
    text: &ProblemText<'_>,
    number: usize,
    decl: &Decl,
    asserted: &mut Assertions,
) -> Result<(), AllocError>
    ensures { OnOk result (asserted.new ≡ with_declaration (text_of_problem text.now) number decl.now asserted.old) }
{
    match decl {
        Decl::Call(call) => add_call(alloc, text, number, call, asserted),
        _ => Ok(()),
    }
}

// What the declarations say.
fn add_declarations(
    alloc: Global,
    text: &ProblemText<'_>,
    decls: &[&Decl],
    asserted: &mut Assertions,
) -> Result<(), AllocError>
    ensures { OnOk result (asserted.new
        ≡ with_declarations (text_of_problem text.now) 0 (map (λ decl. decl.now) decls.now) asserted.old) }
{
    for (number, decl) in decls.iter().enumerate() {
        add_declaration(alloc, text, number, *decl, asserted)?;
    }
    Ok(())
}

// What is asserted, if all went well.
fn when_done(done: Result<(), AllocError>, asserted: Assertions) -> Result<Assertions, AllocError>
    ensures { MatchResult done (λ unit. result ≡ Ok asserted) (λ fault. result ≡ Err fault) }
{
    match done {
        Ok(()) => Ok(asserted),
        Err(fault) => Err(fault),
    }
}

/// What the declarations of a program assert, in order of text.
pub fn assertions_of(
    alloc: Global,
    text: &ProblemText<'_>,
    decls: &[&Decl],
) -> Result<Assertions, AllocError>
    ensures { IfOk result (λ asserted. asserted
        ≡ assertions_of (text_of_problem text.now) (map (λ decl. decl.now) decls.now)) }
{
    let mut asserted = no_assertions(alloc);
    let done = add_declarations(alloc, text, decls, &mut asserted);
    when_done(done, asserted)
}
