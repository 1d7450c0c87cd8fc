//! Tables in texts: behind `== ` and what is answered stands, from the next line on, what it is the answer to. That goes up to the
//! line feed before the next row, so that a text that ends in a line feed is followed by an empty line. A row that begins with
//! `#` is a comment. One text costs the prover little, where an array of as many texts costs it seconds.

use std::alloc::{AllocError, Global};
use std::process::Abort;

/// What is asked of each row of a table.
pub trait Asked {
    /// What is answered to this, in words.
    fn answer(&self, alloc: Global, given: &str) -> Result<String, AllocError>;
}

fn is_text(found: Result<String, AllocError>, wanted: &str) -> bool {
    match found {
        Ok(found) => found.as_str() == wanted,
        Err(_none) => false,
    }
}

fn assert_row<R: Abort + AllocGlobal, A: Asked>(rt: &R, asked: &A, row: &str) {
    let (wanted, given) = row.split_once('\n').unwrap_or((row, ""));
    let is_row = !row.is_empty() && !row.starts_with('#');
    if is_row && !is_text(asked.answer(rt.alloc(), given), wanted) {
        panic!(rt; "{row}");
    }
}

/// Asserts that each row of the table is answered so.
pub fn assert_rows<R: Abort + AllocGlobal, A: Asked>(rt: &R, asked: &A, table: &str) {
    for row in table.split("\n== ") {
        assert_row(rt, asked, row);
    }
}
