//! What the statements of a rule stand for.

ghost use Rattle.std.specs.Prelude.{◌≡◌, ◌++◌, ◌∷◌, [], IfOk, OnOk};
ghost use Rattle.std.specs.Option.{option_map_or};
ghost use Rattle.model_core.specs.Block.{plain_entries};
ghost use Rattle.model_core.specs.declared.rule.Entry.TheVariants.{Branch};
ghost use Rattle.nddl_ast.specs.Block.{statements_of, with_statement};
ghost use Rattle.nddl_ast.specs.Tree.{Statements};
ghost use Rattle.nddl_terms.specs.Growth.{with_last_entry};
ghost use Rattle.nddl_terms.specs.Lexicon.{class_objects};
ghost use Rattle.nddl_terms.specs.Readings.{readings_of};
ghost use Rattle.nddl_terms.specs.Stands.{first_stand};
ghost use Rattle.nddl_unroll.specs.Blocks.{all_turns, back_in, filled_block, in_block, stand_turns, turn_of, turn_stands, unrolled};

use eu_name::sequence::Sequence;
use model_core::item::Term;
use model_core::rule::{Block, Entry, Guard};
use model_core::variable::ValueKind;
use nddl_ast::name::Name;
use nddl_ast::statement::{Stmt, StmtBlock};
use nddl_lower::arguments::guard_of;
use nddl_lower::calls::{add_ask, add_call};
use nddl_lower::locals::add_variable;
use nddl_terms::stands::first_stand;
use nddl_terms::{Growth, Made, Reading, Stand};
use std::alloc::{AllocError, Global};
use std::mem;

// The turns, and one more that is within them.
fn with_turn(alloc: Global, turns: &[Made], turn: Made) -> Result<Vec<Made>, AllocError>
    ensures { IfOk result (λ all. all.items ≡ turns.now ++ turn ∷ []) }
{
    let mut all = Vec::from_slice(alloc, turns)?;
    all.push(turn)?;
    Ok(all)
}

/// What the rule has behind the statements.
#[cycle(unrolling)]
pub fn unroll_stmts(
    alloc: Global,
    reading: &Reading<'_>,
    turns: &[Made],
    stmts: &[Stmt],
    growth: &mut Growth,
) -> Result<(), AllocError>
    ensures { OnOk result (growth.new
        ≡ unrolled (readings_of reading.now) turns.now (statements_of stmts.now) growth.old) }
{
    for stmt in stmts {
        unroll_stmt(alloc, reading, turns, stmt, growth)?;
    }
    Ok(())
}

// What it has behind the statement. What it has behind that and others is then what it has behind the others.
#[cycle(unrolling)]
fn unroll_stmt(
    alloc: Global,
    reading: &Reading<'_>,
    turns: &[Made],
    stmt: &Stmt,
    growth: &mut Growth,
) -> Result<(), AllocError>
    ensures { OnOk result ((more : Statements) → unrolled (readings_of reading.now) turns.now more growth.new
        ≡ unrolled (readings_of reading.now) turns.now (with_statement stmt.now more) growth.old) }
{
    match stmt {
        Stmt::Variable(variable) => add_variable(alloc, reading, turns, variable, growth),
        Stmt::Call(call) => add_call(alloc, reading, turns, call, growth),
        Stmt::Ask(ask) => add_ask(alloc, reading, turns, ask, growth),
        Stmt::If {
            condition,
            then,
            otherwise,
            ..
        } => {
            let guard = guard_of(alloc, reading, turns, condition, growth)?;
            let then = unroll_block(alloc, reading, turns, then, growth)?;
            let otherwise = unroll_otherwise(alloc, reading, turns, otherwise, growth)?;
            add_branch(guard, then, otherwise, growth)
        }
        Stmt::Foreach {
            variable,
            class,
            body,
            ..
        } => unroll_turns(alloc, reading, turns, variable, class, body, growth),
    }
}

// A guard with its blocks more in the block.
fn add_branch(
    guard: Guard,
    then: Block,
    otherwise: Block,
    growth: &mut Growth,
) -> Result<(), AllocError>
    ensures { OnOk result (growth.new ≡ with_last_entry (Branch guard then otherwise) growth.old) }
{
    growth.add_entry(Entry::Branch {
        guard,
        then,
        otherwise,
    })
}

// A block in the one that is being filled.
#[cycle(unrolling)]
fn unroll_block(
    alloc: Global,
    reading: &Reading<'_>,
    turns: &[Made],
    block: &StmtBlock,
    growth: &mut Growth,
) -> Result<Block, AllocError>
    ensures grown { OnOk result (growth.new ≡ back_in growth.old.entries
        (unrolled (readings_of reading.now) turns.now block.now.statements (in_block growth.old))) }
    ensures block { IfOk result (λ filled. filled ≡ filled_block
        (unrolled (readings_of reading.now) turns.now block.now.statements (in_block growth.old))) }
{
    let outer = mem::replace(&mut growth.entries, Sequence::new(alloc));
    let done = unroll_stmts(alloc, reading, turns, block.stmts.as_slice(), growth);
    let entries = mem::replace(&mut growth.entries, outer).into_vec();
    done?;
    Ok(Block { entries })
}

// The block behind `else`, which has nothing where none is written.
#[cycle(unrolling)]
fn unroll_otherwise(
    alloc: Global,
    reading: &Reading<'_>,
    turns: &[Made],
    otherwise: &Option<StmtBlock>,
    growth: &mut Growth,
) -> Result<Block, AllocError>
    ensures grown { OnOk result (growth.new ≡ option_map_or (λ block. back_in growth.old.entries
        (unrolled (readings_of reading.now) turns.now block.statements (in_block growth.old)))
        otherwise.now growth.old) }
    ensures block { IfOk result (λ filled. filled ≡ option_map_or (λ block. filled_block
        (unrolled (readings_of reading.now) turns.now block.statements (in_block growth.old)))
        otherwise.now (plain_entries [])) }
{
    match otherwise {
        Some(block) => unroll_block(alloc, reading, turns, block, growth),
        None => Ok(Block {
            entries: Vec::new(alloc),
        }),
    }
}

// The block of a `foreach`, once for each object.
#[cycle(unrolling)]
fn unroll_turns(
    alloc: Global,
    reading: &Reading<'_>,
    turns: &[Made],
    variable: &Name,
    class: &Name,
    body: &StmtBlock,
    growth: &mut Growth,
) -> Result<(), AllocError>
    ensures { OnOk result (growth.new ≡ all_turns
        (λ object inner. unrolled (readings_of reading.now) (turns.now ++ turn_of variable.now object ∷ [])
        body.now.statements inner)
        (stand_turns reading.now.lexicon.now
        (first_stand (readings_of reading.now) turns.now growth.old class.now.at)) growth.old) }
{
    match first_stand(reading, turns, growth, class.at) {
        Stand::Class(number) => {
            unroll_objects(alloc, reading, turns, variable, number, body, growth)
        }
        _ => Ok(()),
    }
}

// The block of a `foreach` over the class of this number, once for each of its objects.
#[cycle(unrolling)]
fn unroll_objects(
    alloc: Global,
    reading: &Reading<'_>,
    turns: &[Made],
    variable: &Name,
    class: u32,
    body: &StmtBlock,
    growth: &mut Growth,
) -> Result<(), AllocError>
    ensures { OnOk result (growth.new ≡ all_turns
        (λ object inner. unrolled (readings_of reading.now) (turns.now ++ turn_of variable.now object ∷ [])
        body.now.statements inner)
        (turn_stands class (class_objects reading.now.lexicon.now class)) growth.old) }
{
    for object in reading.lexicon.objects(class) {
        let stand = Stand::Value {
            term: Term::Lit(*object),
            kind: ValueKind::Object,
            class,
        };
        unroll_turn(alloc, reading, turns, variable, stand, body, growth)?;
    }
    Ok(())
}

// One turn of it.
#[cycle(unrolling)]
fn unroll_turn(
    alloc: Global,
    reading: &Reading<'_>,
    turns: &[Made],
    variable: &Name,
    object: Stand,
    body: &StmtBlock,
    growth: &mut Growth,
) -> Result<(), AllocError>
    ensures { OnOk result (growth.new ≡ unrolled (readings_of reading.now)
        (turns.now ++ turn_of variable.now object ∷ []) body.now.statements growth.old) }
{
    let turn = Made {
        at: variable.at,
        stand: object,
    };
    let inner = with_turn(alloc, turns, turn)?;
    unroll_stmts(
        alloc,
        reading,
        inner.as_slice(),
        body.stmts.as_slice(),
        growth,
    )
}
