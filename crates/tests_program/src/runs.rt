//! Runs over objects in memory.

use eu_io::memory::shelf::MemShelf;
use eu_io::memory::sink::MemSink;
use eu_io::memory::source::MemSource;
use eu_io::shelf::FileEntry;
use eu_name::bytes::Bytes;
use eu_name::text::Text;
use europa_run::run::europa;
use std::alloc::{AllocError, Global};

/// A call that no run comes to.
pub const NONE: u64 = 9_999_999;

/// Which calls fail: of the shelf, of the input, and of the output. They are counted from 1.
pub type Fails = (u64, u64, u64);

/// No call fails.
pub const CALM: Fails = (NONE, NONE, NONE);

/// Whether a run wrote what it should, and the number of its status.
pub type Ran = Result<(bool, u8), AllocError>;

/// Whether the run wrote what it should, and ended with this status.
pub fn is_run(ran: Ran, status: u8) -> bool {
    match ran {
        Ok((wrote, number)) => wrote && number == status,
        Err(_none) => false,
    }
}

fn add_word(words: &mut Vec<Text>, word: Result<Text, AllocError>) -> Result<(), AllocError> {
    match word {
        Ok(word) => {
            words.push(word)?;
            Ok(())
        }
        Err(none) => Err(none),
    }
}

fn add_words(alloc: Global, words: &mut Vec<Text>, line: &str) -> Result<(), AllocError> {
    for word in line.split_whitespace() {
        add_word(words, Text::from_str(alloc, word))?;
    }
    Ok(())
}

pub fn words_of(alloc: Global, line: &str) -> Result<Vec<Text>, AllocError> {
    let mut words = Vec::new(alloc);
    match add_words(alloc, &mut words, line) {
        Ok(()) => Ok(words),
        Err(none) => Err(none),
    }
}

/// Input that comes so many bytes a call, of which one call fails.
pub fn source_of(
    alloc: Global,
    input: &[u8],
    most: usize,
    fails: u64,
) -> Result<MemSource, AllocError> {
    let input = Bytes::from_slice(alloc, input)?;
    Ok(MemSource::new(input, most.max(1), vec![in alloc; fails]?))
}

/// A list of one call.
fn one_call(alloc: Global, fails: u64) -> Result<Vec<u64>, AllocError> {
    let calls = vec![in alloc; fails]?;
    Ok(calls)
}

/// A shelf with these files, of which one call fails.
fn shelf_of(alloc: Global, files: Vec<FileEntry>, fails: u64) -> Result<MemShelf, AllocError> {
    match one_call(alloc, fails) {
        Ok(fails) => Ok(MemShelf::new(files, fails)),
        Err(none) => Err(none),
    }
}

/// A sink that has room for more than the output, takes so many bytes a call, and of which one call fails.
fn sink_of(alloc: Global, output: (&[u8], usize), fails: u64) -> Result<MemSink, AllocError> {
    MemSink::new(
        alloc,
        output.0.len().saturating_add(99),
        output.1.max(1),
        one_call(alloc, fails)?,
    )
}

/// Whether a run over this shelf and this input writes this, and the number of its status.
fn ran_from(
    alloc: Global,
    words: &[Text],
    shelf: &mut MemShelf,
    source: &mut MemSource,
    fails: u64,
    output: (&[u8], usize),
) -> Ran {
    let mut sink = sink_of(alloc, output, fails)?;
    let status = europa(alloc, words, shelf, source, &mut sink);
    Ok((sink.as_slice() == output.0, status.number()))
}

/// Whether a run whose input comes so many bytes a call writes this, and the number of its status.
fn ran_over(
    alloc: Global,
    words: &[Text],
    shelf: &mut MemShelf,
    input: (&[u8], usize),
    fails: Fails,
    output: (&[u8], usize),
) -> Ran {
    let mut source = source_of(alloc, input.0, input.1, fails.1)?;
    ran_from(alloc, words, shelf, &mut source, fails.2, output)
}

/// Whether the run of these words over these files writes this, and the number of its status.
fn ran_words(
    alloc: Global,
    words: &[Text],
    files: Vec<FileEntry>,
    input: (&[u8], usize),
    fails: Fails,
    output: (&[u8], usize),
) -> Ran {
    let mut shelf = shelf_of(alloc, files, fails.0)?;
    ran_over(alloc, words, &mut shelf, input, fails, output)
}

/// Whether the run of the words of a line writes this, and the number of its status. The input comes so many bytes a call, and
/// the output is taken so many bytes a call.
pub fn ran(
    alloc: Global,
    line: &str,
    files: Vec<FileEntry>,
    input: (&[u8], usize),
    fails: Fails,
    output: (&[u8], usize),
) -> Ran {
    match words_of(alloc, line) {
        Ok(words) => ran_words(alloc, words.as_slice(), files, input, fails, output),
        Err(none) => Err(none),
    }
}
