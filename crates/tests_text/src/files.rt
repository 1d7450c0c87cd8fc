//! Files of the language over a shelf in memory, with what they are read as by hand.

use super::faults::described;
use super::includes::put_file;
use super::rows::{Asked, assert_answer, assert_rows, filled};
use eu_io::calm::shelf::CalmShelf;
use eu_io::shelf::FileEntry;
use nddl_ast::declaration::FileDecls;
use nddl_parser::read_all;
use std::alloc::{AllocError, Global};

fn put_two(files: &mut Vec<FileEntry>, text: &str) -> Result<(), AllocError> {
    put_file(files, "m.nddl", text)?;
    put_file(files, "q", "int k;")
}

/// A file `m.nddl` of this text, and a file `q` that declares one variable.
fn two_files(alloc: Global, text: &str) -> Result<Vec<FileEntry>, AllocError> {
    let mut files = Vec::new(alloc);
    let done = put_two(&mut files, text);
    filled(files, done)
}

/// The names of the files, each with the count of its declarations.
fn counts(alloc: Global, files: &[FileDecls]) -> Result<String, AllocError> {
    let mut words = String::new(alloc);
    for file in files {
        write!(words, "{} {} ", file.name.as_str(), file.decls.len())?;
    }
    Ok(words)
}

/// What the file `m.nddl` is read as, in words.
fn told(alloc: Global, files: Vec<FileEntry>) -> Result<String, AllocError> {
    let mut shelf = CalmShelf::new(files);
    match read_all(alloc, &mut shelf, "m.nddl") {
        Ok(read) => counts(alloc, read.as_slice()),
        Err(fault) => described(alloc, &fault),
    }
}

/// What a file of this text is read as.
struct Read;

impl Asked for Read {
    fn answer(&self, alloc: Global, given: &str) -> Result<String, AllocError> {
        match two_files(alloc, given) {
            Ok(files) => told(alloc, files),
            Err(none) => Err(none),
        }
    }
}

const FILES: &str = "
#include \"q\" int [0 1] x; | m.nddl 2 q 1
#include \"m.nddl\"; #include \"Plasma.nddl\" | m.nddl 2
 | m.nddl 0
int x; @ | BadByte m.nddl 7
int int @ | BadByte m.nddl 8
/* x | OpenComment m.nddl 0
int [0 1000001] x; | OutOfRange m.nddl 7
int x | Syntax m.nddl 5
int int x; | Syntax m.nddl 4
#include \"p\" | Absent m.nddl 0
#include \"p\" int x | Syntax m.nddl 18
#include \"\" | Absent m.nddl 0
A::P{if(a){if(a){if(a){if(a){if(a){if(a){if(a){if(a){if(a){if(a){if(a){if(a){if(a){if(a){if(a){if(a){ | Limit:nesting m.nddl 100
enum E { } | Syntax m.nddl 9
";

#[test]
fn files_are_read_as_trees(rt: HostRuntime) {
    assert_rows(&rt, &Read, FILES);
    assert_answer(&rt, &Read, "int x; // one\nleq(x, x);", "m.nddl 2");
}
