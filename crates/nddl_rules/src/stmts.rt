//! The statements of rules.

ghost use Rattle.std.specs.Prelude.{◌≡◌, ◌++◌, ◌∷◌, [], IfOk, OnOk, map};
ghost use Rattle.nddl_ast.specs.Block.{statements_of};
ghost use Rattle.nddl_rules.specs.Collected.{class_statements, decl_statements, member_statements, part_statements, rule_statements, text_statements};

use crate::TextPlace;
use nddl_ast::Copies;
use nddl_ast::declaration::{Decl, Member, PredicatePart};
use nddl_ast::statement::{Stmt, StmtBlock};
use nddl_hierarchy::decls::decl_at;
use std::alloc::{AllocError, Global};

/// The statements of the rule at this place.
pub fn text_stmts(alloc: Global, decls: &[&Decl], place: TextPlace) -> Result<Vec<Stmt>, AllocError>
    ensures { IfOk result (λ stmts. statements_of stmts.items ≡ text_statements (map (λ decl. decl.now) decls.now) place) }
{
    match decl_at(decls, place.decl) {
        Some(decl) => decl_stmts(alloc, place.member, decl),
        None => Ok(Vec::new(alloc)),
    }
}

fn decl_stmts(alloc: Global, member: Option<usize>, decl: &Decl) -> Result<Vec<Stmt>, AllocError>
    ensures { IfOk result (λ stmts. statements_of stmts.items ≡ decl_statements member decl.now) }
{
    match member {
        Some(place) => class_stmts(alloc, place, decl),
        None => rule_stmts(alloc, decl),
    }
}

// The statements of a rule that is a declaration of its own.
fn rule_stmts(alloc: Global, decl: &Decl) -> Result<Vec<Stmt>, AllocError>
    ensures { IfOk result (λ stmts. statements_of stmts.items ≡ rule_statements decl.now) }
{
    match decl {
        Decl::Rule { body, .. } => block_stmts(body),
        _ => Ok(Vec::new(alloc)),
    }
}

fn block_stmts(block: &StmtBlock) -> Result<Vec<Stmt>, AllocError>
    ensures { IfOk result (λ stmts. statements_of stmts.items ≡ block.now.statements) }
{
    let StmtBlock { at: _, stmts } = block.copied()?;
    Ok(stmts)
}

// The statements of the rule that the member of this place has.
fn class_stmts(alloc: Global, place: usize, decl: &Decl) -> Result<Vec<Stmt>, AllocError>
    ensures { IfOk result (λ stmts. statements_of stmts.items ≡ class_statements place decl.now) }
{
    match decl {
        Decl::Class { members, .. } => match members.as_slice().get(place) {
            Some(member) => member_stmts(alloc, member),
            None => Ok(Vec::new(alloc)),
        },
        _ => Ok(Vec::new(alloc)),
    }
}

fn member_stmts(alloc: Global, member: &Member) -> Result<Vec<Stmt>, AllocError>
    ensures { IfOk result (λ stmts. statements_of stmts.items ≡ member_statements member.now) }
{
    match member {
        Member::Predicate { parts, .. } => part_stmts(alloc, parts.as_slice()),
        _ => Ok(Vec::new(alloc)),
    }
}

// The constraints among the parts of a predicate.
fn part_stmts(alloc: Global, parts: &[PredicatePart]) -> Result<Vec<Stmt>, AllocError>
    ensures { IfOk result (λ stmts. stmts.items ≡ part_statements parts.now) }
{
    let mut stmts = Vec::new(alloc);
    for part in parts {
        push_part(part, &mut stmts)?;
    }
    Ok(stmts)
}

// Puts the constraint that the part is at the end, if it is one.
fn push_part(part: &PredicatePart, stmts: &mut Vec<Stmt>) -> Result<(), AllocError>
    ensures { OnOk result (stmts.new.items ≡ stmts.old.items ++ part_statements (part.now ∷ [])) }
{
    match part {
        PredicatePart::Constraint(call) => {
            stmts.push(Stmt::Call(call.copied()?))?;
            Ok(())
        }
        PredicatePart::Parameter(_) => Ok(()),
    }
}
