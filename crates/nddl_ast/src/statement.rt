//! Statements and blocks of them.

use super::expression::{Expr, Init, Type};
use super::name::{Name, Path};
use eu_name::sequence::Sequence;
use std::marker::Model;

/// A type and a name, and perhaps `=` and what the variable begins as.
#[derive(Drop)]
pub struct Variable {
    pub declared: Type,
    pub name: Name,
    pub init: Option<Init>,
}

/// A path and arguments between parentheses: a constraint, a relation, a decision, or `close`.
#[derive(Drop)]
pub struct Call {
    pub path: Path,
    pub arguments: Sequence<Expr>,
}

/// A word, and between parentheses the path to a predicate and a label, as `goal(rover.Go g)`.
#[derive(Drop)]
pub struct Ask {
    pub word: Name,
    pub path: Path,
    pub label: Name,
}

/// What an `if` tests.
#[derive(Drop)]
pub enum Condition {
    /// That it is true.
    Truth(Expr),
    /// `==`
    Equal(Expr, Expr),
    /// `!=`
    NotEqual(Expr, Expr),
}

/// What can stand in a block.
#[derive(Drop)]
#[cycle(block)]
pub enum Stmt {
    Variable(Variable),
    Call(Call),
    Ask(Ask),
    /// `if`, with the block behind it and perhaps one behind `else`.
    If {
        at: u32,
        condition: Condition,
        then: StmtBlock,
        otherwise: Option<StmtBlock>,
    },
    /// `foreach (variable in class)`, with its block.
    Foreach {
        at: u32,
        variable: Name,
        class: Name,
        body: StmtBlock,
    },
}

/// Statements between braces, at the place of `{`. An `if` behind an `else` is a block that has this one statement, at
/// its place.
#[derive(Drop)]
#[cycle(block)]
pub struct StmtBlock {
    pub at: u32,
    pub stmts: Vec<Stmt>,
}

impl Model for StmtBlock {
    ghost use Rattle.nddl_ast.specs.Tree.{Braces};

    ghost Value = { Braces };

    ghost use Rattle.nddl_ast.specs.Code.{braces_code};

    ghost coded = { braces_code };

    ghost use Rattle.nddl_ast.specs.Tree.{count};
    ghost use Rattle.nddl_ast.specs.Block.{statements_of};

    ghost view = { λ inside. record { at = inside.at; statements = statements_of inside.stmts.items } };

    ghost size = { λ block. count block.statements };

    ghost use Rattle.std.proofs.Common.{arith};
    ghost use Rattle.nddl_ast.specs.Falls.{most_deep};

    ghost size_decreases = { λ a h. omega (arith, most_deep a.stmts.items) };
}
