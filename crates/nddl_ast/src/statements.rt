//! Copies of statements and blocks.

ghost use Rattle.std.specs.Prelude.{◌≡◌, IfOk};

use super::copies::{Copies, both, copy_all, copy_some};
use crate::statement::{Ask, Call, Condition, Stmt, StmtBlock, Variable};
use std::alloc::{AllocError, Global};

impl Copies for Variable {
    fn copied(&self) -> Result<Variable, AllocError> {
        let named = both(self.declared.copied(), self.name.copied());
        let ((declared, name), init) = both(named, copy_some(&self.init))?;
        Ok(Variable {
            declared,
            name,
            init,
        })
    }
}

impl Copies for Call {
    fn copied(&self) -> Result<Call, AllocError> {
        let (path, arguments) = both(self.path.copied(), copy_all(&self.arguments))?;
        Ok(Call { path, arguments })
    }
}

impl Copies for Ask {
    fn copied(&self) -> Result<Ask, AllocError> {
        let named = both(self.word.copied(), self.path.copied());
        let ((word, path), label) = both(named, self.label.copied())?;
        Ok(Ask { word, path, label })
    }
}

impl Copies for Condition {
    fn copied(&self) -> Result<Condition, AllocError> {
        match self {
            Condition::Truth(expr) => Ok(Condition::Truth(expr.copied()?)),
            Condition::Equal(one, other) => {
                let (one, other) = both(one.copied(), other.copied())?;
                Ok(Condition::Equal(one, other))
            }
            Condition::NotEqual(one, other) => {
                let (one, other) = both(one.copied(), other.copied())?;
                Ok(Condition::NotEqual(one, other))
            }
        }
    }
}

// A copy of a statement, of a block that may be missing, of a block, and of the statements in one.
#[cycle(copying)]
fn copy_stmt(stmt: &Stmt) -> Result<Stmt, AllocError>
    ensures { IfOk result (λ copy. copy ≡ stmt.now) }
{
    match stmt {
        Stmt::Variable(variable) => Ok(Stmt::Variable(variable.copied()?)),
        Stmt::Call(call) => Ok(Stmt::Call(call.copied()?)),
        Stmt::Ask(ask) => Ok(Stmt::Ask(ask.copied()?)),
        Stmt::If {
            at,
            condition,
            then,
            otherwise,
        } => {
            let tested = both(condition.copied(), copy_block(then));
            let ((condition, then), otherwise) = both(tested, copy_otherwise(otherwise))?;
            Ok(Stmt::If {
                at: *at,
                condition,
                then,
                otherwise,
            })
        }
        Stmt::Foreach {
            at,
            variable,
            class,
            body,
        } => {
            let named = both(variable.copied(), class.copied());
            let ((variable, class), body) = both(named, copy_block(body))?;
            Ok(Stmt::Foreach {
                at: *at,
                variable,
                class,
                body,
            })
        }
    }
}

#[cycle(copying)]
fn copy_otherwise(block: &Option<StmtBlock>) -> Result<Option<StmtBlock>, AllocError>
    ensures { IfOk result (λ copy. copy ≡ block.now) }
{
    match block {
        Some(block) => match copy_block(block) {
            Ok(copy) => Ok(Some(copy)),
            Err(error) => Err(error),
        },
        None => Ok(None),
    }
}

#[cycle(copying)]
fn copy_block(block: &StmtBlock) -> Result<StmtBlock, AllocError>
    ensures { IfOk result (λ copy. copy ≡ block.now) }
{
    let at = block.at;
    let stmts = copy_stmts(*block.stmts.allocator(), block.stmts.as_slice())?;
    Ok(StmtBlock { at, stmts })
}

#[cycle(copying)]
fn copy_stmts(alloc: Global, stmts: &[Stmt]) -> Result<Vec<Stmt>, AllocError>
    ensures { IfOk result (λ copies. copies.items ≡ stmts.now) }
{
    let mut copies = Vec::new(alloc);
    for stmt in stmts {
        copies.push(copy_stmt(stmt)?)?;
    }
    Ok(copies)
}

impl Copies for Stmt {
    fn copied(&self) -> Result<Stmt, AllocError> {
        copy_stmt(self)
    }
}

impl Copies for StmtBlock {
    fn copied(&self) -> Result<StmtBlock, AllocError> {
        copy_block(self)
    }
}
