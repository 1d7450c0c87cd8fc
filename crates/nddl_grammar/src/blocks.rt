//! Statements with blocks in them.

ghost use Rattle.std.specs.Prelude.{◌≡◌};
ghost use Rattle.nddl_grammar.specs.Readers.{begins, sequence, mark, IsFound};
ghost use Rattle.eu_name.specs.declared.word.Reserved.TheVariants as keywords;
ghost use Rattle.nddl_grammar.specs.declared.sort.Sort.TheVariants as sorts;
ghost use Rattle.nddl_grammar.specs.Productions.{name, condition, condition_behind, begins_stmt, stmt_of, too_deep, braces, block, lone_if, else_block, otherwise, if_stmt, foreach, stmt, statements};

use super::expressions::{Expressions, expr, name};
use super::list;
use super::statements::{SimpleStmt, plain};
use super::types::begins_type;
use crate::cursor::{Cursor, Stop};
use crate::joining::{behind, joined};
use crate::sort::Sort;
use eu_name::sequence::Sequence;
use eu_name::word::Reserved;
use nddl_ast::expression::Expr;
use nddl_ast::name::Name;
use nddl_ast::statement::{Condition, Stmt, StmtBlock};

// What a condition is behind its first expression.
#[tactic(auto, unfolding(crate::specs::Productions::condition_behind))]
fn condition_behind(cursor: &mut Cursor<'_>, one: Expr) -> Result<Condition, Stop>
    ensures { IsFound result cursor.new (condition_behind one cursor.old) }
{
    if cursor.is_at(Sort::Equal) {
        let other = list::after::<Expressions>(cursor, Sort::Equal);
        let (one, other) = joined(one, other)?;
        return Ok(Condition::Equal(one, other));
    }
    if cursor.is_at(Sort::NotEqual) {
        let other = list::after::<Expressions>(cursor, Sort::NotEqual);
        let (one, other) = joined(one, other)?;
        return Ok(Condition::NotEqual(one, other));
    }
    Ok(Condition::Truth(one))
}

/// `Expr [ ("==" | "!=") Expr ]`
#[tactic(auto, unfolding(crate::specs::Productions::condition))]
fn condition(cursor: &mut Cursor<'_>) -> Result<Condition, Stop>
    ensures { IsFound result cursor.new (condition cursor.old) }
{
    let one = expr(cursor)?;
    condition_behind(cursor, one)
}

fn stmt_of(simple: SimpleStmt) -> Stmt
    ensures { result ≡ stmt_of simple }
{
    match simple {
        SimpleStmt::Variable(variable) => Stmt::Variable(variable),
        SimpleStmt::Call(call) => Stmt::Call(call),
        SimpleStmt::Ask(ask) => Stmt::Ask(ask),
    }
}

// Whether a statement can begin with a symbol of the sort.
fn begins_stmt(sort: Sort) -> bool
    ensures { result ≡ begins_stmt sort }
{
    match sort {
        Sort::Word(Reserved::If) | Sort::Word(Reserved::Foreach) => true,
        _ => begins_type(sort),
    }
}

// Whether a statement can begin with the next symbol.
fn is_at_stmt(cursor: &Cursor<'_>) -> bool
    ensures { result ≡ begins begins_stmt cursor.now }
{
    match cursor.sort() {
        Some(sort) => begins_stmt(sort),
        None => false,
    }
}

// A block that begins with a symbol of the sort is nested too deep here.
#[tactic(auto, unfolding(crate::specs::Productions::too_deep))]
fn too_deep(cursor: &mut Cursor<'_>, sort: Sort) -> Result<StmtBlock, Stop>
    ensures { IsFound result cursor.new (too_deep sort cursor.old) }
{
    if cursor.is_at(sort) {
        return Err(Stop::Deep);
    }
    Err(Stop::Stuck)
}

/// `"{" { Stmt } "}"`, where so many blocks may be nested in it.
#[cycle(blocks)]
#[tactic(auto, unfolding(crate::specs::Productions::braces))]
fn braces(cursor: &mut Cursor<'_>, left: u8) -> Result<StmtBlock, Stop>
    ensures { IsFound result cursor.new (braces left cursor.old) }
{
    let at = cursor.mark_place(Sort::BraceOpen)?;
    let stmts = statements(cursor, left)?;
    let done = cursor.mark(Sort::BraceClose);
    let stmts = behind(done, stmts)?;
    Ok(StmtBlock {
        at,
        stmts: stmts.into_vec(),
    })
}

/// `"{" { Stmt } "}"`, where so many blocks may be nested, it among them.
#[cycle(blocks)]
pub fn block(cursor: &mut Cursor<'_>, left: u8) -> Result<StmtBlock, Stop>
    ensures { IsFound result cursor.new (block left cursor.old) }
{
    if left == 0 {
        return too_deep(cursor, Sort::BraceOpen);
    }
    braces(cursor, left - 1)
}

/// An `if` behind an `else`, as a block.
#[cycle(blocks)]
#[tactic(auto, unfolding(crate::specs::Productions::lone_if))]
fn lone_if(cursor: &mut Cursor<'_>, left: u8) -> Result<StmtBlock, Stop>
    ensures { IsFound result cursor.new (lone_if left cursor.old) }
{
    let stmt = if_stmt(cursor, left)?;
    let at = stmt.place();
    let mut stmts = Sequence::new(cursor.allocator());
    stmts.push(stmt)?;
    Ok(StmtBlock {
        at,
        stmts: stmts.into_vec(),
    })
}

/// `Block | IfStmt`: what stands behind `else`.
#[cycle(blocks)]
fn else_block(cursor: &mut Cursor<'_>, left: u8) -> Result<StmtBlock, Stop>
    ensures { IsFound result cursor.new (else_block left cursor.old) }
{
    if !cursor.is_at(Sort::Word(Reserved::If)) {
        return block(cursor, left);
    }
    if left == 0 {
        return too_deep(cursor, Sort::Word(Reserved::If));
    }
    lone_if(cursor, left - 1)
}

/// `[ "else" ( Block | IfStmt ) ]`
#[cycle(blocks)]
#[tactic(auto, unfolding(crate::specs::Productions::otherwise))]
fn otherwise(cursor: &mut Cursor<'_>, left: u8) -> Result<Option<StmtBlock>, Stop>
    ensures { IsFound result cursor.new (otherwise left cursor.old) }
{
    if cursor.is_at(Sort::Word(Reserved::Else)) {
        cursor.mark(Sort::Word(Reserved::Else))?;
        return Ok(Some(else_block(cursor, left)?));
    }
    Ok(None)
}

/// `")" Block [ "else" ( Block | IfStmt ) ]`
#[cycle(blocks)]
#[tactic(auto, unfolding(crate::specs::Productions::otherwise))]
fn branches(cursor: &mut Cursor<'_>, left: u8) -> Result<((), (StmtBlock, Option<StmtBlock>)), Stop>
    ensures { IsFound result cursor.new
        (sequence (mark sorts.ParenClose) (sequence (block left) (otherwise left)) cursor.old) }
{
    cursor.mark(Sort::ParenClose)?;
    let then = block(cursor, left)?;
    let otherwise = otherwise(cursor, left);
    let blocks = joined(then, otherwise)?;
    Ok(((), blocks))
}

/// `"if" "(" Expr [ ("==" | "!=") Expr ] ")" Block [ "else" ( Block | IfStmt ) ]`
#[cycle(blocks)]
#[tactic(auto, unfolding(crate::specs::Productions::if_stmt, crate::specs::Productions::otherwise))]
fn if_stmt(cursor: &mut Cursor<'_>, left: u8) -> Result<Stmt, Stop>
    ensures { IsFound result cursor.new (if_stmt left cursor.old) }
{
    let at = cursor.mark_place(Sort::Word(Reserved::If))?;
    cursor.mark(Sort::ParenOpen)?;
    let condition = condition(cursor)?;
    let rest = branches(cursor, left);
    let (condition, ((), (then, otherwise))) = joined(condition, rest)?;
    Ok(Stmt::If {
        at,
        condition,
        then,
        otherwise,
    })
}

/// `"in" Name ")" Block`
#[cycle(blocks)]
fn class_body(cursor: &mut Cursor<'_>, left: u8) -> Result<((), (Name, ((), StmtBlock))), Stop>
    ensures { IsFound result cursor.new
        (sequence (mark (sorts.Word keywords.In)) (sequence name (sequence (mark sorts.ParenClose) (block left)))
        cursor.old) }
{
    cursor.mark(Sort::Word(Reserved::In))?;
    let class = name(cursor)?;
    let done = cursor.mark(Sort::ParenClose);
    let class = behind(done, class)?;
    let body = block(cursor, left);
    let (class, body) = joined(class, body)?;
    Ok(((), (class, ((), body))))
}

/// `"foreach" "(" Name "in" Name ")" Block`
#[cycle(blocks)]
#[tactic(auto, unfolding(crate::specs::Productions::foreach))]
fn foreach(cursor: &mut Cursor<'_>, left: u8) -> Result<Stmt, Stop>
    ensures { IsFound result cursor.new (foreach left cursor.old) }
{
    let at = cursor.mark_place(Sort::Word(Reserved::Foreach))?;
    cursor.mark(Sort::ParenOpen)?;
    let variable = name(cursor)?;
    let rest = class_body(cursor, left);
    let (variable, ((), (class, ((), body)))) = joined(variable, rest)?;
    Ok(Stmt::Foreach {
        at,
        variable,
        class,
        body,
    })
}

/// A statement, where so many blocks may be nested in it.
#[cycle(blocks)]
#[tactic(auto, unfolding(crate::specs::Productions::stmt, crate::specs::Productions::if_stmt, crate::specs::Productions::foreach))]
fn stmt(cursor: &mut Cursor<'_>, left: u8) -> Result<Stmt, Stop>
    ensures { IsFound result cursor.new (stmt left cursor.old) }
{
    if cursor.is_at(Sort::Word(Reserved::If)) {
        return if_stmt(cursor, left);
    }
    if cursor.is_at(Sort::Word(Reserved::Foreach)) {
        return foreach(cursor, left);
    }
    Ok(stmt_of(plain(cursor)?))
}

/// `{ Stmt }`
#[cycle(blocks)]
fn statements(cursor: &mut Cursor<'_>, left: u8) -> Result<Sequence<Stmt>, Stop>
    ensures { IsFound result cursor.new (statements left cursor.old) }
{
    let mut stmts = Sequence::new(cursor.allocator());
    for turn in 0..cursor.len() {
        if !is_at_stmt(cursor) {
            return Ok(stmts);
        }
        let stmt = stmt(cursor, left)?;
        stmts.push(stmt)?;
    }
    Ok(stmts)
}
