//! Tables in texts: a row is a line, and its last field, behind ` | `, is what is answered to what stands before it. One text
//! costs the prover little, where an array of as many texts costs it seconds.

use std::alloc::{AllocError, Global};
use std::process::Abort;

/// What is asked of each row of a table.
pub trait Asked {
    /// What is answered to this, in words.
    fn answer(&self, alloc: Global, given: &str) -> Result<String, AllocError>;
}

/// Whether these are the words, up to blanks at their end.
fn is_text(found: Result<String, AllocError>, wanted: &str) -> bool {
    match found {
        Ok(found) => found.as_str().trim_end() == wanted,
        Err(_none) => false,
    }
}

/// Asserts that this is answered so.
pub fn assert_answer<R: Abort + AllocGlobal, A: Asked>(
    rt: &R,
    asked: &A,
    given: &str,
    wanted: &str,
) {
    if !is_text(asked.answer(rt.alloc(), given), wanted) {
        panic!(rt; "{given} | {wanted}");
    }
}

fn assert_row<R: Abort + AllocGlobal, A: Asked>(rt: &R, asked: &A, row: &str) {
    if !row.is_empty() {
        let (given, wanted) = row.rsplit_once(" | ").unwrap_or((row, ""));
        assert_answer(rt, asked, given, wanted);
    }
}

/// Asserts that each row of the table is answered so. Empty lines are no rows.
pub fn assert_rows<R: Abort + AllocGlobal, A: Asked>(rt: &R, asked: &A, table: &str) {
    for row in table.split('\n') {
        assert_row(rt, asked, row);
    }
}

/// What was filled, where there was memory for all of it. No other exit drops it.
pub fn filled<T: Drop>(value: T, done: Result<(), AllocError>) -> Result<T, AllocError> {
    match done {
        Ok(()) => Ok(value),
        Err(none) => Err(none),
    }
}
