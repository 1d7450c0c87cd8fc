//! The model of files, or what is wrong first with them.

ghost use Rattle.std.specs.Prelude.{◌≡◌, IfOk};
ghost use Rattle.nddl_symbols.specs.Joined.{joined_decls};
ghost use Rattle.nddl_symbols.specs.Names.{scope_names};
ghost use Rattle.nddl_laws.specs.Given.{AreGiven};
ghost use Rattle.nddl_declarations.specs.Known.{AreFacts};
ghost use Rattle.nddl_hierarchy.specs.Facts.{facts_of};
ghost use Rattle.nddl_rules.specs.Told.{AreFileTrees};
ghost use Rattle.nddl_types.specs.Table.{IsTable};
ghost use Rattle.nddl_env.specs.Shapes.{world_of};
ghost use Rattle.nddl_problem.specs.Known.{known_by, lexicon_known, scope_known, world_known};
ghost use Rattle.nddl_problem.specs.Outlined.{IsOutlined};
ghost use Rattle.nddl_problem.specs.Stocked.{IsStocked};
ghost use Rattle.nddl_problem.specs.Told.{TellsModel, TellsProblem};

use super::judging::find_fault;
use super::making::make_model;
use super::outline::{Outline, Ruled};
use super::stock::{Stock, Words};
use model_core::model::Model;
use nddl_ast::TextFault;
use nddl_ast::declaration::FileDecls;
use nddl_env::Premises;
use nddl_hierarchy::Basis;
use nddl_laws::names_are_read_in_order;
use nddl_rules::trees_of;
use nddl_terms::RuleTree;
use nddl_types::{Groundwork, Sources, TypeTable, table_of, told};
use std::alloc::{AllocError, Global};

/// The model of the files, which are in the order in which a shelf gave them, or what is wrong first with them: with their
/// names and types, with their rules, or with the problem that they pose.
pub fn compile(alloc: Global, files: &[FileDecls]) -> Result<Model, TextFault>
    requires given { AreGiven files.now }
    ensures { TellsModel files.now result }
{
    match Groundwork::of(alloc, files) {
        Ok(groundwork) => compile_ground(alloc, &groundwork),
        Err(_) => Err(TextFault::Memory),
    }
}

// Compiles the files of which this is known.
fn compile_ground(alloc: Global, groundwork: &Groundwork<'_>) -> Result<Model, TextFault>
    requires given { AreGiven groundwork.now }
    ensures { TellsModel groundwork.now result }
{
    match table_of(alloc, groundwork) {
        Ok(table) => compile_table(alloc, groundwork, &table),
        Err(fault) => Err(fault),
    }
}

// Compiles the files that have this table.
fn compile_table(
    alloc: Global,
    groundwork: &Groundwork<'_>,
    table: &TypeTable,
) -> Result<Model, TextFault>
    requires given { AreGiven groundwork.now }
    requires table { IsTable groundwork.now table.now }
    ensures { TellsModel groundwork.now result }
{
    match trees_of(alloc, table, groundwork) {
        Ok(trees) => compile_trees(alloc, groundwork, table, trees.as_slice()),
        Err(fault) => Err(fault),
    }
}

// Compiles the files whose rules have these trees.
fn compile_trees(
    alloc: Global,
    groundwork: &Groundwork<'_>,
    table: &TypeTable,
    trees: &[RuleTree],
) -> Result<Model, TextFault>
    requires given { AreGiven groundwork.now }
    requires table { IsTable groundwork.now table.now }
    requires trees { AreFileTrees table.now groundwork.now trees.now }
    ensures { TellsModel groundwork.now result }
{
    names_are_read_in_order();
    let ruled = Ruled {
        groundwork,
        table,
        trees,
    };
    match pose_problem(alloc, &ruled) {
        Ok(answer) => answer,
        Err(_) => Err(TextFault::Memory),
    }
}

// Makes the objects, and then the model, or tells what is wrong first with the problem.
fn pose_problem(alloc: Global, ruled: &Ruled<'_>) -> Result<Result<Model, TextFault>, AllocError>
    ensures { IfOk result (TellsProblem ruled.now.groundwork.now ruled.now.table.now ruled.now.trees.now) }
{
    let basis = ruled.groundwork.basis();
    let stock = Stock::of(alloc, &basis, ruled.groundwork.class_entries())?;
    name_stock(alloc, &*ruled, &basis, &stock)
}

// Finds what the names stand for with these objects, and goes on with it.
fn name_stock<'a>(
    alloc: Global,
    ruled: &'a Ruled<'a>,
    basis: &'a Basis<'a>,
    stock: &'a Stock,
) -> Result<Result<Model, TextFault>, AllocError>
    requires facts { AreFacts (scope_names (joined_decls ruled.now.groundwork.now)) (joined_decls ruled.now.groundwork.now)
        (facts_of basis.now) }
    requires stock { IsStocked (facts_of basis.now) stock.now }
    ensures { IfOk result (TellsProblem ruled.now.groundwork.now ruled.now.table.now ruled.now.trees.now) }
{
    let sources = Sources {
        basis: *basis,
        enums: ruled.table.enums.as_slice(),
        entries: ruled.groundwork.class_entries(),
        numbers: ruled.groundwork.class_numbers(),
    };
    let premises = Premises {
        sources,
        named_objects: stock.made.named_objects.as_slice(),
        objects: stock.made.making.objects.as_slice(),
        by_class: &stock.by_class,
    };
    let words = Words::of(alloc, &premises, ruled.table)?;
    outline_problem(alloc, &*ruled, &*stock, &premises, &words)
}

// Puts together what is known of the program, and judges it.
fn outline_problem<'a>(
    alloc: Global,
    ruled: &'a Ruled<'a>,
    stock: &'a Stock,
    premises: &'a Premises<'a>,
    words: &'a Words,
) -> Result<Result<Model, TextFault>, AllocError>
    requires facts { AreFacts (scope_names (joined_decls ruled.now.groundwork.now)) (joined_decls ruled.now.groundwork.now)
        (facts_of premises.now.sources.basis) }
    requires stock { IsStocked (facts_of premises.now.sources.basis) stock.now }
    requires world { world_of premises.now ≡ world_known (known_by ruled.now.groundwork.now
        (facts_of premises.now.sources.basis) ruled.now.table.now ruled.now.trees.now) }
    requires lexicon { words.now.lexicon ≡ lexicon_known (known_by ruled.now.groundwork.now
        (facts_of premises.now.sources.basis) ruled.now.table.now ruled.now.trees.now) }
    requires scope { words.now.scope ≡ scope_known (known_by ruled.now.groundwork.now
        (facts_of premises.now.sources.basis) ruled.now.table.now ruled.now.trees.now) }
    ensures { IfOk result (TellsProblem ruled.now.groundwork.now ruled.now.table.now ruled.now.trees.now) }
{
    let outline = Outline {
        program: ruled.groundwork.program(),
        table: ruled.table,
        trees: ruled.trees,
        made: &stock.made,
        premises: *premises,
        lexicon: &words.lexicon,
        scope: &words.scope,
    };
    judge_outline(alloc, &outline)
}

// Makes the model of the program of which this is known, if nothing is wrong with its problem.
#[tactic(auto, using(crate::proofs::Telling::tells_fault))]
fn judge_outline(
    alloc: Global,
    outline: &Outline<'_>,
) -> Result<Result<Model, TextFault>, AllocError>
    requires facts { AreFacts (scope_names (joined_decls outline.now.program.files.now))
        (joined_decls outline.now.program.files.now) (facts_of outline.now.premises.sources.basis) }
    requires outlined { IsOutlined outline.now }
    ensures { IfOk result (TellsProblem outline.now.program.files.now outline.now.table.now outline.now.trees.now) }
{
    match find_fault(alloc, outline)? {
        Some(fault) => Ok(Err(told(&outline.program, fault)?)),
        None => Ok(Ok(make_model(alloc, outline)?)),
    }
}
