//! Files with their includes over shelves in memory, with a reader of its own for texts.

use super::faults::described;
use super::rows::{Asked, assert_answer, assert_rows, filled};
use eu_io::calm::shelf::CalmShelf;
use eu_io::memory::shelf::MemShelf;
use eu_io::shelf::{FileEntry, Shelf};
use eu_name::bytes::Bytes;
use eu_name::sequence::Sequence;
use eu_name::text::Text;
use nddl_ast::declaration::{Decl, FileDecls};
use nddl_ast::name::Name;
use nddl_lexer::kinds::LexFault;
use nddl_parser::fault::TextFail;
use nddl_parser::includes::read_all;
use nddl_parser::parsing::ParseFault;
use nddl_parser::reader::TextReader;
use std::alloc::{AllocError, Global};
use std::str;

/// Reads parts between commas, whose places are their numbers. `!` is a fault, `-` a class, nothing is nothing, and
/// anything else an include; `?` is that of a name that isn't UTF-8.
#[derive(Drop)]
struct Commas;

impl TextReader for Commas {
    ghost reads = { λ _ _ _. Unit {0} };

    fn read(&self, alloc: Global, text: &[u8]) -> Result<Sequence<Decl>, TextFail> {
        match str::from_utf8(text) {
            Ok(text) => decls_of(alloc, text),
            Err(_) => Err(TextFail::Lex(LexFault::BadByte(0))),
        }
    }
}

fn decls_of(alloc: Global, text: &str) -> Result<Sequence<Decl>, TextFail> {
    let mut decls = Sequence::new(alloc);
    let mut at = 0u32;
    for part in text.split(',') {
        if part == "!" {
            return Err(TextFail::Parse(ParseFault::Syntax(at)));
        }
        if !part.is_empty() && keep(alloc, &mut decls, part, at).is_err() {
            return Err(TextFail::Lex(LexFault::Memory));
        }
        at = at.saturating_add(1);
    }
    Ok(decls)
}

fn keep(alloc: Global, decls: &mut Sequence<Decl>, part: &str, at: u32) -> Result<(), AllocError> {
    let decl = decl_of(alloc, part, at)?;
    decls.push(decl)
}

fn decl_of(alloc: Global, part: &str, at: u32) -> Result<Decl, AllocError> {
    if part == "-" {
        let text = Text::from_str(alloc, part)?;
        return Ok(Decl::Forward {
            at,
            name: Name { text, at },
        });
    }
    let name: &[u8] = if part == "?" { &[255] } else { part.as_bytes() };
    Ok(Decl::Include {
        at,
        file: Bytes::from_slice(alloc, name)?,
        file_at: at,
    })
}

/// The file of this name and text.
fn entry(alloc: Global, name: &str, text: &[u8]) -> Result<FileEntry, AllocError> {
    Ok(FileEntry {
        name: Text::from_str(alloc, name)?,
        bytes: Bytes::from_slice(alloc, text)?,
    })
}

/// Puts the file of this name and text on the list.
pub fn put_file(files: &mut Vec<FileEntry>, name: &str, text: &str) -> Result<(), AllocError> {
    let file = entry(*files.allocator(), name, text.as_bytes())?;
    files.push(file)?;
    Ok(())
}

/// Puts on the list the files of a shelf, each as its name, `>` and its text, between blanks.
fn put_files(files: &mut Vec<FileEntry>, shelf: &str) -> Result<(), AllocError> {
    for file in shelf.split(' ') {
        if let Some((name, text)) = file.split_once('>') {
            put_file(files, name, text)?;
        }
    }
    Ok(())
}

/// The files of a shelf.
fn files_of(alloc: Global, shelf: &str) -> Result<Vec<FileEntry>, AllocError> {
    let mut files = Vec::new(alloc);
    let done = put_files(&mut files, shelf);
    filled(files, done)
}

/// The names of the files that were read.
fn names_of(alloc: Global, files: &[FileDecls]) -> Result<String, AllocError> {
    let mut names = String::new(alloc);
    for file in files {
        write!(names, "{} ", file.name.as_str())?;
    }
    Ok(names)
}

/// What was read under this name, or the fault, in words.
fn told<S: Shelf>(alloc: Global, shelf: &mut S, name: &str) -> Result<String, AllocError> {
    match read_all(alloc, shelf, &Commas, name) {
        Ok(files) => names_of(alloc, files.as_slice()),
        Err(fault) => described(alloc, &fault),
    }
}

/// What was read from a shelf with these files, or the fault, in words.
fn told_of(alloc: Global, files: Vec<FileEntry>, name: &str) -> Result<String, AllocError> {
    let mut shelf = CalmShelf::new(files);
    told(alloc, &mut shelf, name)
}

/// What was read from files of these names and texts, or the fault, in words.
fn told_of_text(alloc: Global, files: &str, name: &str) -> Result<String, AllocError> {
    match files_of(alloc, files) {
        Ok(files) => told_of(alloc, files, name),
        Err(none) => Err(none),
    }
}

/// What comes of files, whose names and texts stand before the name that is read.
struct Files;

impl Asked for Files {
    fn answer(&self, alloc: Global, given: &str) -> Result<String, AllocError> {
        let (files, name) = given.split_once(" | ").unwrap_or((given, ""));
        told_of_text(alloc, files, name)
    }
}

const FILES: &str = "
m>a,b a>c b> c> | m | m a c b
m>-,a,a,b a>b,m b>m,a | m | m a b
m>./m ./m>m,./m | m | m ./m
m>Plasma.nddl,a,PlannerConfig.nddl a> | m | m a
m>q,q q>! | m | Syntax q 0
m>q,-,! | m | Syntax m 2
m>a,q a>-,-,q | m | Absent a 2
m>a,? a> | m | Absent m 1
a> | m | Absent m 0
m>é é>m | m | m é
Plasma.nddl>a a>Plasma.nddl | Plasma.nddl | Plasma.nddl a
";

#[test]
fn files_are_read_each_before_its_includes(rt: HostRuntime) {
    assert_rows(&rt, &Files, FILES);
}

fn put_row(files: &mut String, included: u32, held: u32) -> Result<(), AllocError> {
    files.push_str("m>")?;
    for number in 0..included {
        write!(files, "{number},")?;
    }
    for number in 0..held {
        write!(files, " {number}>")?;
    }
    Ok(())
}

/// A file `m` that includes the files from 0 up to a number, of which there are so many.
fn row_files(alloc: Global, included: u32, held: u32) -> Result<String, AllocError> {
    let mut files = String::new(alloc);
    let done = put_row(&mut files, included, held);
    filled(files, done)
}

/// What comes of one of these files.
struct Row {
    included: u32,
    held: u32,
}

impl Asked for Row {
    fn answer(&self, alloc: Global, given: &str) -> Result<String, AllocError> {
        match row_files(alloc, self.included, self.held) {
            Ok(files) => told_of_text(alloc, files.as_str(), given),
            Err(none) => Err(none),
        }
    }
}

/// How many words come of the file `m`.
fn row_words(alloc: Global, row: &Row) -> usize {
    match row.answer(alloc, "m") {
        Ok(words) => words.as_str().split(' ').count(),
        Err(_none) => 0,
    }
}

const FULL: Row = Row {
    included: 63,
    held: 63,
};

const LONGER: Row = Row {
    included: 64,
    held: 64,
};

const LACKING: Row = Row {
    included: 64,
    held: 63,
};

#[test]
fn there_are_at_most_64_files(rt: HostRuntime) {
    assert!(rt; row_words(rt.alloc(), &FULL) == 65);
    assert_answer(&rt, &LONGER, "m", "Limit:files m 63");
    assert_answer(&rt, &LACKING, "m", "Absent m 63");
}

fn put_chain(files: &mut String, held: u32, last: &str) -> Result<(), AllocError> {
    for number in 1..held {
        write!(files, "{}>{number} ", number - 1)?;
    }
    files.push_str(last)
}

/// A file 0 that includes 1, which includes 2, and so on, where there are so many.
fn chain_files(alloc: Global, held: u32, last: &str) -> Result<String, AllocError> {
    let mut files = String::new(alloc);
    let done = put_chain(&mut files, held, last);
    filled(files, done)
}

/// What comes of the first of so many files, where this is the last one.
struct Chain(u32);

impl Asked for Chain {
    fn answer(&self, alloc: Global, given: &str) -> Result<String, AllocError> {
        match chain_files(alloc, self.0, given) {
            Ok(files) => told_of_text(alloc, files.as_str(), "0"),
            Err(none) => Err(none),
        }
    }
}

#[test]
fn includes_are_at_most_8_deep(rt: HostRuntime) {
    assert_answer(&rt, &Chain(9), "8>", "0 1 2 3 4 5 6 7 8");
    assert_answer(&rt, &Chain(10), "9>", "Limit:depth 8 0");
    assert_answer(&rt, &Chain(10), "", "Absent 8 0");
}

/// A file `a` of so many bytes.
fn long_file(alloc: Global, count: usize) -> Result<FileEntry, AllocError> {
    let bytes = vec![in alloc; b','; count]?;
    Ok(FileEntry {
        name: Text::from_str(alloc, "a")?,
        bytes: Bytes::from_vec(bytes),
    })
}

fn put_long(files: &mut Vec<FileEntry>, count: usize) -> Result<(), AllocError> {
    put_file(files, "m", "-,a")?;
    let file = long_file(*files.allocator(), count)?;
    files.push(file)?;
    Ok(())
}

/// A file `m`, which includes `a`, and a file `a` of so many bytes.
fn with_long_file(alloc: Global, count: usize) -> Result<Vec<FileEntry>, AllocError> {
    let mut files = Vec::new(alloc);
    let done = put_long(&mut files, count);
    filled(files, done)
}

/// What comes of one of these files.
struct Long(usize);

impl Asked for Long {
    fn answer(&self, alloc: Global, given: &str) -> Result<String, AllocError> {
        match with_long_file(alloc, self.0) {
            Ok(files) => told_of(alloc, files, given),
            Err(none) => Err(none),
        }
    }
}

#[test]
fn a_file_has_at_most_1048576_bytes(rt: HostRuntime) {
    assert_answer(&rt, &Long(1_048_576), "a", "a");
    assert_answer(&rt, &Long(1_048_576), "m", "m a");
    assert_answer(&rt, &Long(1_048_577), "a", "Limit:bytes a 0");
    assert_answer(&rt, &Long(1_048_577), "m", "Limit:bytes m 1");
}

/// A shelf of two files, where this call fails.
fn failing_shelf(alloc: Global, fails: u64) -> Result<MemShelf, AllocError> {
    let fails = vec![in alloc; fails]?;
    Ok(MemShelf::new(files_of(alloc, "m>a a>")?, fails))
}

/// What comes of one of these files.
struct Failing(u64);

impl Asked for Failing {
    fn answer(&self, alloc: Global, given: &str) -> Result<String, AllocError> {
        match failing_shelf(alloc, self.0) {
            Ok(mut shelf) => told(alloc, &mut shelf, given),
            Err(none) => Err(none),
        }
    }
}

#[test]
fn a_call_of_the_shelf_that_fails_ends_it(rt: HostRuntime) {
    assert_answer(&rt, &Failing(1), "m", "ReadFault");
    assert_answer(&rt, &Failing(2), "m", "ReadFault");
    assert_answer(&rt, &Failing(3), "m", "m a");
}
