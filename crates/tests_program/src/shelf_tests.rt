//! Which files a run asks for: those that its words name, and what these include, each once.

use super::rows::files_of;
use super::runs::words_of;
use eu_io::calm::sink::CalmSink;
use eu_io::calm::source::CalmSource;
use eu_io::memory::shelf::MemShelf;
use eu_io::shelf::{Shelf, ShelfFail};
use eu_name::bytes::Bytes;
use eu_name::text::Text;
use europa_run::run::europa;
use std::alloc::{AllocError, Global};
use std::process::Abort;

/// A shelf in memory that keeps the names that it was asked for, each before a `;`.
#[derive(Drop)]
struct Asked {
    shelf: MemShelf,
    names: String,
    // Whether the last call failed.
    failed: bool,
}

impl Shelf for Asked {
    ghost use Rattle.std.specs.Prelude.{Some};

    ghost files = { λ asked. Some asked.shelf.entries };

    ghost faults = { λ asked. asked.shelf.calls.faults.count };

    ghost has_failed = { λ asked. asked.failed };

    fn get(&mut self, name: &str, limit: u64) -> Result<Bytes, ShelfFail> {
        self.failed = false;
        if keep(&mut self.names, name).is_err() {
            return Err(ShelfFail::Memory);
        }
        let answer = self.shelf.get(name, limit);
        self.failed = matches!(answer, Err(ShelfFail::Failed));
        answer
    }
}

fn keep(names: &mut String, name: &str) -> Result<(), AllocError> {
    names.push_str(name)?;
    names.push(';')
}

/// The file `m.nddl`, which includes another, and two more.
const FILES: &str = "m.nddl
#include \"n.nddl\" #include \"m.nddl\"

-- n.nddl
int [0 1] x;
-- p.txt
plan
end
";

/// A shelf with the files that was asked for none.
fn shelf_of(alloc: Global) -> Result<Asked, AllocError> {
    match files_of(alloc, FILES, "") {
        Ok(files) => Ok(Asked {
            shelf: MemShelf::new(files, Vec::new(alloc)),
            names: String::new(alloc),
            failed: false,
        }),
        Err(none) => Err(none),
    }
}

/// Runs these words over the shelf.
fn ask(alloc: Global, words: &[Text], shelf: &mut Asked, out: &mut CalmSink) {
    let mut input = CalmSource::new(Bytes::from_vec(Vec::new(alloc)), 1);
    let _status = europa(alloc, words, shelf, &mut input, out);
}

/// Whether the run of these words over the shelf asks for these files.
fn is_asked(alloc: Global, words: &[Text], shelf: &mut Asked, names: &str) -> bool {
    match CalmSink::new(alloc, 1_000, 1_000) {
        Ok(mut out) => {
            ask(alloc, words, shelf, &mut out);
            shelf.names.as_str() == names
        }
        Err(_none) => false,
    }
}

/// Whether the run of these words asks for these files.
fn words_ask_for(alloc: Global, words: &[Text], names: &str) -> bool {
    match shelf_of(alloc) {
        Ok(mut shelf) => is_asked(alloc, words, &mut shelf, names),
        Err(_none) => false,
    }
}

/// Whether the run of the words of this line asks for these files.
fn asks_for(alloc: Global, line: &str, names: &str) -> bool {
    match words_of(alloc, line) {
        Ok(words) => words_ask_for(alloc, words.as_slice(), names),
        Err(_none) => false,
    }
}

/// Words, and the files that are asked for.
const ASKED: &str = "
show m.nddl | m.nddl;
script m.nddl | m.nddl;n.nddl;
plan m.nddl | m.nddl;n.nddl;
check m.nddl p.txt | m.nddl;n.nddl;p.txt;
check n.nddl n.nddl | n.nddl;n.nddl;
script q.nddl | q.nddl;
gen 1
try 1
check m.nddl
";

fn assert_asks<R: Abort + AllocGlobal>(rt: &R, row: &str) {
    let (line, names) = row.split_once(" | ").unwrap_or((row, ""));
    if !asks_for(rt.alloc(), line, names) {
        panic!(rt; "{row}");
    }
}

#[test]
fn a_run_asks_for_no_other_file(rt: HostRuntime) {
    for row in ASKED.trim().split('\n') {
        assert_asks(&rt, row);
    }
}
