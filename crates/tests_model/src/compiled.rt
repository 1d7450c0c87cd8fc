//! What texts are compiled to, in lines.

ghost use Rattle.nddl_laws.specs.Given.{AreGiven};

use model_core::model::Model;
use nddl_ast::TextFault;
use nddl_ast::declaration::FileDecls;
use nddl_parser::read_all;
use nddl_problem::compile;
use std::alloc::{AllocError, Global};
use std::process::Abort;
use tests_samples::models::model_lines;
use tests_samples::shelves::shelf_of;

fn fault_line(alloc: Global, fault: &TextFault) -> Result<String, AllocError> {
    match fault {
        TextFault::At { kind, file, at } => {
            format!(in alloc; "{} {} {at}", kind.word(), file.as_str())
        }
        TextFault::Memory => Err(AllocError),
    }
}

// The lines of the model, told of a copy: one with the same end of its horizon is equal.
fn copied_lines(alloc: Global, model: &Model) -> Result<String, AllocError> {
    let copied = model.with_end(model.problem.end)?;
    model_lines(alloc, &copied)
}

// The model of the files, or what is wrong first with them.
fn compiled(alloc: Global, files: &[FileDecls]) -> Result<String, AllocError>
    requires { AreGiven files.now }
{
    match compile(alloc, files) {
        Ok(model) => copied_lines(alloc, &model),
        Err(fault) => fault_line(alloc, &fault),
    }
}

// That of the file `m` of the first text, beside a file `q` of the second.
#[tactic(auto, using(crate::proofs::Given::read_given))]
fn told(alloc: Global, text: &str, other: &str) -> Result<String, AllocError> {
    let mut files = shelf_of(alloc, &[("m", text), ("q", other)])?;
    match read_all(alloc, &mut files, "m") {
        Ok(read) => compiled(alloc, read.as_slice()),
        Err(_) => String::from_str(alloc, "not read"),
    }
}

/// Asserts that these are the lines, up to blanks at the ends.
fn assert_lines<R: Abort>(rt: &R, found: &str, wanted: &str) {
    if found.trim() != wanted.trim() {
        panic!(rt; "{found}");
    }
}

/// Asserts that the file `m` of the first text, beside a file `q` of the second, is compiled to the model of these lines.
pub fn assert_two_give<R: Abort + AllocGlobal>(rt: &R, text: &str, other: &str, wanted: &str) {
    match told(rt.alloc(), text, other) {
        Ok(found) => assert_lines(rt, found.as_str(), wanted),
        Err(_none) => panic!(rt; "no memory"),
    }
}

/// Asserts that the file `m` of the text alone is compiled to the model of these lines.
pub fn assert_gives<R: Abort + AllocGlobal>(rt: &R, text: &str, wanted: &str) {
    assert_two_give(rt, text, "", wanted);
}
