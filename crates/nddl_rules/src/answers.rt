//! The rule trees of files, or what is wrong first.

ghost use Rattle.std.specs.Prelude.{◌≡◌, [], IfOk, MatchResult};
ghost use Rattle.nddl_rules.specs.Told.{AreFileTrees, TellsRuleFault, file_trees, scope_places};

use super::scope::scope_places;
use crate::{RuleTexts, all_trees};
use eu_index::NameIndex;
use nddl_ast::TextFault;
use nddl_ast::declaration::FileDecls;
use nddl_rule_check::first_rule_wrong;
use nddl_terms::RuleTree;
use nddl_types::{Groundwork, Program, TypeTable, told};
use std::alloc::{AllocError, Global};

/// The rule trees of the files, which are in the order in which they were read and have this table, or what is wrong first
/// with their rules.
pub fn rules(
    alloc: Global,
    table: &TypeTable,
    files: &[FileDecls],
) -> Result<Vec<RuleTree>, TextFault>
    ensures { MatchResult result (λ trees. AreFileTrees table.now files.now trees.items) (TellsRuleFault files.now) }
{
    match Groundwork::of(alloc, files) {
        Ok(groundwork) => trees_of(alloc, table, &groundwork),
        Err(_) => Err(TextFault::Memory),
    }
}

/// The rule trees of the files of which this is known and which have this table, or what is wrong first with their rules.
pub fn trees_of(
    alloc: Global,
    table: &TypeTable,
    groundwork: &Groundwork<'_>,
) -> Result<Vec<RuleTree>, TextFault>
    ensures { MatchResult result (λ trees. AreFileTrees table.now groundwork.now trees.items) (TellsRuleFault groundwork.now) }
{
    match find_trees(alloc, table, groundwork) {
        Ok(answer) => answer,
        Err(_) => Err(TextFault::Memory),
    }
}

// The trees, or what is wrong first, if there is memory.
#[tactic(auto, using(crate::proofs::Telling::tells_fault))]
fn find_trees(
    alloc: Global,
    table: &TypeTable,
    groundwork: &Groundwork<'_>,
) -> Result<Result<Vec<RuleTree>, TextFault>, AllocError>
    ensures { IfOk result (λ answer. MatchResult answer
        (λ trees. AreFileTrees table.now groundwork.now trees.items) (TellsRuleFault groundwork.now)) }
{
    let program = groundwork.program();
    match first_rule_wrong(alloc, &groundwork.basis())? {
        Some(fault) => Ok(Err(told(&program, fault)?)),
        None => Ok(Ok(make_trees(alloc, table, &program)?)),
    }
}

// The trees of the program.
fn make_trees(
    alloc: Global,
    table: &TypeTable,
    program: &Program<'_>,
) -> Result<Vec<RuleTree>, AllocError>
    ensures { IfOk result (λ trees. trees.items ≡ file_trees table.now program.now.files.now) }
{
    let scope = scope_places(alloc, table.scope.as_slice())?;
    resolve_trees(alloc, table, program, &scope)
}

// The trees, whose names are found by their places in the scope of the table.
fn resolve_trees(
    alloc: Global,
    table: &TypeTable,
    program: &Program<'_>,
    scope: &NameIndex,
) -> Result<Vec<RuleTree>, AllocError>
    requires { scope.now ≡ scope_places [] 0 table.now.scope }
    ensures { IfOk result (λ trees. trees.items ≡ file_trees table.now program.now.files.now) }
{
    let texts = RuleTexts {
        files: program.files,
        sites: program.sites,
        decls: program.decls,
        scope,
    };
    all_trees(
        alloc,
        &texts,
        table.classes.as_slice(),
        table.preds.as_slice(),
    )
}
