//! Copies of rules.

use super::asked::Sought;
use super::rows::assert_rows;
use nddl_ast::Copies;
use nddl_ast::declaration::{Decl, FileDecls};
use nddl_ast::same::Same;
use nddl_ast::statement::StmtBlock;
use std::alloc::{AllocError, Global};

/// Whether a copy of the block is the same, at the same place.
fn is_copied(body: &StmtBlock) -> Result<bool, AllocError> {
    let copy = body.copied()?;
    Ok(copy.is_same(body) && copy.at == body.at)
}

/// Whether the declaration is a rule of which a copy of the block is the same.
fn rule_is_copied(decl: Option<&Decl>) -> Result<bool, AllocError> {
    match decl {
        Some(Decl::Rule { body, .. }) => is_copied(body),
        _ => Ok(false),
    }
}

fn first_is_copied(files: &[FileDecls]) -> Result<bool, AllocError> {
    match files.first() {
        Some(file) => rule_is_copied(file.decls.as_slice().first()),
        None => Ok(false),
    }
}

/// Whether the first declaration is such a rule, in words.
pub fn copy_words(alloc: Global, files: &[FileDecls]) -> Result<String, AllocError> {
    format!(in alloc; "{:?}", first_is_copied(files))
}

const RULES: &str = "
A::P { } | Ok(true)
A::P { int [0 5] x = y.z; bool {true, b} w; float f = 1.5; E e; string s = new C(1, d); } | Ok(true)
A::P { if (b) { leq(x, 3); } else if (x != y.z) { any(object.Q q); } else { eq(true, q.end); } meets(q); } | Ok(true)
A::P { foreach (o in C) { if (o == p) { } goal(o.Q g); int {1, 2} k; } before(o.Q, -4); } | Ok(true)
";

#[test]
fn copies_of_rules_are_the_same(rt: HostRuntime) {
    assert_rows(&rt, Sought::Copy, "", RULES);
}
