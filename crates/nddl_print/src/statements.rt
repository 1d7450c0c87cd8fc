//! Statements and blocks of them.

ghost use Rattle.std.specs.Prelude.{◌≡◌, ◌++◌, OnOk};
ghost use Rattle.nddl_ast.specs.Block.{statements_of, with_statement};
ghost use Rattle.nddl_ast.specs.Tree.{Nothing};
ghost use Rattle.nddl_print.specs.Words.{spaced};
ghost use Rattle.nddl_print.specs.Canonical.{ask_words, block_words, call_words, else_words, foreach_words, condition_words, if_words, start_words, statements_words, variable_words};

use super::expressions::print_arguments;
use super::line::Lines;
use super::lists::Print;
use eu_name::word::Reserved;
use nddl_ast::expression::Init;
use nddl_ast::name::Name;
use nddl_ast::statement::{Ask, Call, Condition, Stmt, StmtBlock, Variable};
use nddl_grammar::sort::Sort;
use std::alloc::AllocError;

// `=` and what a variable begins as, if anything.
fn print_start(init: &Option<Init>, lines: &mut Lines) -> Result<(), AllocError>
    ensures { OnOk result (lines.new ≡ lines.old ++ spaced (start_words init.now)) }
{
    match init {
        None => Ok(()),
        Some(init) => {
            lines.fixed(Sort::Assign)?;
            init.print(lines)
        }
    }
}

impl Print for Variable {
    ghost words = { variable_words };

    fn print(&self, lines: &mut Lines) -> Result<(), AllocError> {
        self.declared.print(lines)?;
        self.name.print(lines)?;
        print_start(&self.init, lines)?;
        lines.fixed(Sort::Semicolon)
    }
}

impl Print for Call {
    ghost words = { call_words };

    fn print(&self, lines: &mut Lines) -> Result<(), AllocError> {
        self.path.print(lines)?;
        print_arguments(self.arguments.as_slice(), lines)?;
        lines.fixed(Sort::Semicolon)
    }
}

impl Print for Ask {
    ghost words = { ask_words };

    fn print(&self, lines: &mut Lines) -> Result<(), AllocError> {
        self.word.print(lines)?;
        lines.fixed(Sort::ParenOpen)?;
        self.path.print(lines)?;
        self.label.print(lines)?;
        lines.fixed(Sort::ParenClose)?;
        lines.fixed(Sort::Semicolon)
    }
}

impl Print for Condition {
    ghost words = { condition_words };

    fn print(&self, lines: &mut Lines) -> Result<(), AllocError> {
        match self {
            Condition::Truth(expr) => expr.print(lines),
            Condition::Equal(one, other) => {
                one.print(lines)?;
                lines.fixed(Sort::Equal)?;
                other.print(lines)
            }
            Condition::NotEqual(one, other) => {
                one.print(lines)?;
                lines.fixed(Sort::NotEqual)?;
                other.print(lines)
            }
        }
    }
}

// `if` and its condition.
fn print_if(condition: &Condition, lines: &mut Lines) -> Result<(), AllocError>
    ensures { OnOk result (lines.new ≡ lines.old ++ spaced (if_words condition.now)) }
{
    lines.fixed(Sort::Word(Reserved::If))?;
    lines.fixed(Sort::ParenOpen)?;
    condition.print(lines)?;
    lines.fixed(Sort::ParenClose)
}

// `foreach`, its variable and its class.
fn print_foreach(variable: &Name, class: &Name, lines: &mut Lines) -> Result<(), AllocError>
    ensures { OnOk result (lines.new ≡ lines.old ++ spaced (foreach_words variable.now class.now)) }
{
    lines.fixed(Sort::Word(Reserved::Foreach))?;
    lines.fixed(Sort::ParenOpen)?;
    variable.print(lines)?;
    lines.fixed(Sort::Word(Reserved::In))?;
    class.print(lines)?;
    lines.fixed(Sort::ParenClose)
}

// A statement.
#[cycle(printing)]
fn print_stmt(stmt: &Stmt, lines: &mut Lines) -> Result<(), AllocError>
    ensures { OnOk result (lines.new ≡ lines.old ++ spaced (statements_words (with_statement stmt.now Nothing))) }
{
    match stmt {
        Stmt::Variable(variable) => variable.print(lines),
        Stmt::Call(call) => call.print(lines),
        Stmt::Ask(ask) => ask.print(lines),
        Stmt::If {
            condition,
            then,
            otherwise,
            ..
        } => {
            print_if(condition, lines)?;
            print_block(then, lines)?;
            print_else(otherwise, lines)
        }
        Stmt::Foreach {
            variable,
            class,
            body,
            ..
        } => {
            print_foreach(variable, class, lines)?;
            print_block(body, lines)
        }
    }
}

// `else` and its block, if there is one.
#[cycle(printing)]
fn print_else(otherwise: &Option<StmtBlock>, lines: &mut Lines) -> Result<(), AllocError>
    ensures { OnOk result (lines.new ≡ lines.old ++ spaced (else_words otherwise.now)) }
{
    match otherwise {
        None => Ok(()),
        Some(block) => {
            lines.fixed(Sort::Word(Reserved::Else))?;
            print_block(block, lines)
        }
    }
}

// Statements, one after another.
#[cycle(printing)]
fn print_stmts(stmts: &[Stmt], lines: &mut Lines) -> Result<(), AllocError>
    ensures { OnOk result (lines.new ≡ lines.old ++ spaced (statements_words (statements_of stmts.now))) }
{
    for stmt in stmts {
        print_stmt(stmt, lines)?;
    }
    Ok(())
}

// Statements between braces.
#[cycle(printing)]
fn print_block(block: &StmtBlock, lines: &mut Lines) -> Result<(), AllocError>
    ensures { OnOk result (lines.new ≡ lines.old ++ spaced (block_words block.now)) }
{
    lines.fixed(Sort::BraceOpen)?;
    print_stmts(block.stmts.as_slice(), lines)?;
    lines.fixed(Sort::BraceClose)
}

impl Print for StmtBlock {
    ghost words = { block_words };

    fn print(&self, lines: &mut Lines) -> Result<(), AllocError> {
        print_block(self, lines)
    }
}
