//! The names that declarations give to the scope of a program, with what they are by hand.

use super::asked::Sought;
use super::rows::assert_rows;
use nddl_ast::declaration::{Decl, FileDecls};
use nddl_symbols::{Declared, Sort, declared_names};
use std::alloc::{AllocError, Global};
use tests_samples::lines::Lines;

fn word(sort: Sort) -> &'static str {
    match sort {
        Sort::Enum(_) => "enum",
        Sort::Member { .. } => "member",
        Sort::Typedef => "typedef",
        Sort::Forward => "forward",
        Sort::Body => "class",
        Sort::Global => "global",
        Sort::Object => "object",
        Sort::Root => "root",
        Sort::Config => "config",
    }
}

/// The declarations of the file.
fn listed(alloc: Global, file: &FileDecls) -> Result<Vec<&Decl>, AllocError> {
    let mut decls = Vec::new(alloc);
    for decl in file.decls.as_slice() {
        decls.push(decl)?;
    }
    Ok(decls)
}

/// Each name with what it is and where it stands.
fn lines_of(alloc: Global, names: &[Declared]) -> Result<String, AllocError> {
    let mut lines = Lines::new(alloc);
    for declared in names {
        lines.say(word(declared.sort));
        lines.say(" ");
        lines.number(declared.place.decl);
        lines.numbered(":", declared.place.at);
        lines.say(" ");
    }
    lines.into_text()
}

/// The names that the declarations give.
fn words(alloc: Global, decls: &[&Decl]) -> Result<String, AllocError> {
    match declared_names(alloc, decls) {
        Ok(names) => lines_of(alloc, names.as_slice()),
        Err(none) => Err(none),
    }
}

/// Those of the declarations of the file.
fn file_words(alloc: Global, file: &FileDecls) -> Result<String, AllocError> {
    match listed(alloc, file) {
        Ok(decls) => words(alloc, decls.as_slice()),
        Err(none) => Err(none),
    }
}

/// Those of the first file.
pub fn names_words(alloc: Global, files: &[FileDecls]) -> Result<String, AllocError> {
    match files.first() {
        Some(file) => file_words(alloc, file),
        None => String::from_str(alloc, "no file"),
    }
}

const NAMES: &str = "
enum E { a, b } int x; | enum 0:5 member 0:9 member 0:12 global 1:20
class A; class A { } typedef int [0 3] T; | forward 0:6 class 1:15 typedef 2:39
A a = new A(); goal(a.P g); close(); | object 0:2 root 1:24
PlannerConfig p = new PlannerConfig(0, 10, 5); eq(p, 1); A::P { } | config 0:14
";

#[test]
fn declarations_give_these_names(rt: HostRuntime) {
    assert_rows(&rt, Sought::Names, "", "");
    assert_rows(&rt, Sought::Names, "", NAMES);
}
