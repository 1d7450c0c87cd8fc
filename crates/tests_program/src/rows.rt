//! Tables of runs in texts. A row stands behind `== `: the number of the status and the words of the command, and then, each
//! behind `-- ` and its name, the files, the input `input` and the output `output`. Such a text goes up to the line feed before
//! the next row or name, so that one that ends in a line feed is followed by an empty line. It may be named in place of being
//! written, as in `texts`, and a piece of it may be repeated, as in `<<COUNT PIECE>>`. A row that begins with `#` is a comment.
//! One text costs the prover little, where an array of as many texts costs it seconds.

use super::runs::{Fails, NONE, Ran, is_run, ran};
use super::texts::{section_in, text_of};
use eu_io::shelf::FileEntry;
use std::alloc::{AllocError, Global};
use std::process::Abort;
use tests_samples::repeating::repeated;
use tests_samples::shelves::{add_file, entry};

/// The text of this name among the sections, or else among the common ones, or else nothing.
pub fn text_in<'a>(sections: &'a str, common: &'a str, name: &str) -> &'a str {
    match section_in(sections, "\n-- ", name) {
        Some(text) => text_of(text),
        None => text_of(section_in(common, "\n-- ", name).unwrap_or("")),
    }
}

/// A file of this name with the text, in which a piece may be repeated.
fn file_of(alloc: Global, name: &str, text: &str) -> Result<FileEntry, AllocError> {
    match repeated(alloc, text) {
        Ok(text) => entry(alloc, name, text.as_bytes()),
        Err(none) => Err(none),
    }
}

/// Adds the sections as files.
fn add_files(alloc: Global, files: &mut Vec<FileEntry>, sections: &str) -> Result<(), AllocError> {
    for section in sections.split("\n-- ") {
        let (name, text) = section.split_once('\n').unwrap_or((section, ""));
        add_file(files, file_of(alloc, name, text_of(text)))?;
    }
    Ok(())
}

fn add_both(
    alloc: Global,
    files: &mut Vec<FileEntry>,
    sections: &str,
    common: &str,
) -> Result<(), AllocError> {
    match add_files(alloc, files, sections) {
        Ok(()) => add_files(alloc, files, common),
        Err(none) => Err(none),
    }
}

/// The sections and the common ones, as files.
pub fn files_of(alloc: Global, sections: &str, common: &str) -> Result<Vec<FileEntry>, AllocError> {
    let mut files = Vec::new(alloc);
    match add_both(alloc, &mut files, sections, common) {
        Ok(()) => Ok(files),
        Err(none) => Err(none),
    }
}

/// The call that the word tells, or none.
pub fn call_of(word: &str) -> u64 {
    word.parse().unwrap_or(NONE)
}

/// The calls of three words.
fn fails_of(words: &str) -> Fails {
    let (of_shelf, rest) = words.split_once(' ').unwrap_or((words, ""));
    let (of_input, of_output) = rest.split_once(' ').unwrap_or((rest, ""));
    (call_of(of_shelf), call_of(of_input), call_of(of_output))
}

/// What a row runs: its line, its sections, and the common ones.
#[derive(Clone, Copy)]
struct Row<'a> {
    line: &'a str,
    sections: &'a str,
    common: &'a str,
}

/// The row's text of this name.
fn row_text(alloc: Global, row: Row<'_>, name: &str) -> Result<String, AllocError> {
    repeated(alloc, text_in(row.sections, row.common, name))
}

/// Whether the row's run on this input writes this, and the number of its status.
fn ran_on(alloc: Global, row: Row<'_>, input: &str, output: &str) -> Ran {
    let fails = fails_of(text_in(row.sections, "", "fails"));
    match files_of(alloc, row.sections, row.common) {
        Ok(files) => ran(
            alloc,
            row.line,
            files,
            (input.as_bytes(), 16),
            fails,
            (output.as_bytes(), usize::MAX),
        ),
        Err(none) => Err(none),
    }
}

/// Whether the row's run writes this, and the number of its status.
fn ran_to(alloc: Global, row: Row<'_>, output: &str) -> Ran {
    match row_text(alloc, row, "input") {
        Ok(input) => ran_on(alloc, row, input.as_str(), output),
        Err(none) => Err(none),
    }
}

/// Whether the row's run writes its output, and the number of its status.
fn ran_row(alloc: Global, row: Row<'_>) -> Ran {
    match row_text(alloc, row, "output") {
        Ok(output) => ran_to(alloc, row, output.as_str()),
        Err(none) => Err(none),
    }
}

/// Whether the row is a comment, or its run writes and ends as it says.
fn is_right(alloc: Global, row: &str, common: &str) -> bool {
    let (head, sections) = row.split_once("\n-- ").unwrap_or((row, ""));
    let (status, line) = head.split_once(' ').unwrap_or((head, ""));
    let row = Row {
        line,
        sections,
        common,
    };
    match status.parse() {
        Ok(status) => is_run(ran_row(alloc, row), status),
        Err(_fault) => status.is_empty() || status == "#",
    }
}

fn assert_run<R: Abort + AllocGlobal>(rt: &R, row: &str, common: &str) {
    if !is_right(rt.alloc(), row, common) {
        panic!(rt; "{row}");
    }
}

/// Asserts that each row's run, also with the common sections, writes and ends as the row says.
pub fn assert_runs<R: Abort + AllocGlobal>(rt: &R, table: &str, common: &str) {
    for row in table.split("\n== ") {
        assert_run(rt, row, common);
    }
}

/// Asserts that nothing was found, as a number at which something is wrong.
pub fn assert_none<R: Abort>(rt: &R, found: Option<usize>) {
    if let Some(number) = found {
        panic!(rt; "at {number}");
    }
}
