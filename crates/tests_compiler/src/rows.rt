//! Tables in texts: a row is a line, and its last field, behind ` | `, is what is answered to what stands before it. One text
//! costs the prover little, where an array of as many texts costs it seconds.

use super::asked::{Sought, told};
use std::alloc::{AllocError, Global};
use std::process::Abort;
use tests_samples::repeating::repeated;

/// What is asked of the text, where there is one, beside a file `q` of the other.
fn told_beside(
    alloc: Global,
    sought: Sought,
    text: Result<String, AllocError>,
    other: &str,
) -> Result<String, AllocError> {
    match text {
        Ok(text) => told(alloc, sought, text.as_str(), other),
        Err(none) => Err(none),
    }
}

/// What is asked of a text, in which a piece may be repeated, and maybe that of the file `q`.
fn answer(alloc: Global, sought: Sought, other: &str, given: &str) -> Result<String, AllocError> {
    let (text, other) = given.split_once(" | ").unwrap_or((given, other));
    told_beside(alloc, sought, repeated(alloc, text), other)
}

/// Whether these are the words, up to blanks at their end.
fn is_text(found: Result<String, AllocError>, wanted: &str) -> bool {
    match found {
        Ok(found) => found.as_str().trim_end() == wanted,
        Err(_none) => false,
    }
}

fn assert_row<R: Abort + AllocGlobal>(rt: &R, sought: Sought, other: &str, row: &str) {
    let (given, wanted) = row.rsplit_once(" | ").unwrap_or((row, ""));
    if !is_text(answer(rt.alloc(), sought, other, given), wanted) {
        panic!(rt; "{row}");
    }
}

/// Asserts that each row of the table is answered so, with this text of the file `q` where the row has none.
pub fn assert_rows<R: Abort + AllocGlobal>(rt: &R, sought: Sought, other: &str, table: &str) {
    for row in table.trim().split('\n') {
        assert_row(rt, sought, other, row);
    }
}
