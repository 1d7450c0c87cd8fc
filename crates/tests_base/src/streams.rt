//! Objects in memory, and the adapters over the system's own.

use eu_io::adapters::file_shelf::FileShelf;
use eu_io::adapters::std_sink::StdSink;
use eu_io::adapters::std_source::StdSource;
use eu_io::calm::shelf::CalmShelf;
use eu_io::calm::sink::CalmSink;
use eu_io::calm::source::CalmSource;
use eu_io::fault::Failed;
use eu_io::memory::shelf::MemShelf;
use eu_io::memory::sink::MemSink;
use eu_io::memory::source::MemSource;
use eu_io::shelf::{FileEntry, Shelf, ShelfFail};
use eu_io::sink::Sink;
use eu_io::source::Source;
use eu_name::bytes::Bytes;
use eu_name::text::Text;
use std::alloc::{AllocError, Global};
use std::rt::Files;
use std::test::Fail;
use std::{env, fs, io, process};

fn entry(alloc: Global, name: &str, bytes: &str) -> Result<FileEntry, AllocError> {
    Ok(FileEntry {
        name: Text::from_str(alloc, name)?,
        bytes: Bytes::from_slice(alloc, bytes.as_bytes())?,
    })
}

fn put_file(entries: &mut Vec<FileEntry>, name: &str, bytes: &str) -> Result<(), AllocError> {
    let file = entry(*entries.allocator(), name, bytes)?;
    entries.push(file)?;
    Ok(())
}

fn put_three(entries: &mut Vec<FileEntry>) -> Result<(), AllocError> {
    put_file(entries, "a", "first")?;
    put_file(entries, "a", "second")?;
    put_file(entries, "dir/b", "")?;
    Ok(())
}

/// Two files of the name `a`, and an empty one in a folder.
fn three_files(alloc: Global) -> Result<Vec<FileEntry>, AllocError> {
    let mut entries = Vec::new(alloc);
    match put_three(&mut entries) {
        Ok(()) => Ok(entries),
        Err(none) => Err(none),
    }
}

/// Whether the shelf gives these bytes.
fn gives<S: Shelf>(
    shelf: &mut S,
    name: &str,
    limit: u64,
    expected: &[u8],
) -> Result<bool, ShelfFail> {
    shelf
        .get(name, limit)
        .map(|bytes| bytes.as_slice() == expected)
}

/// What a shelf of the three files answers.
fn answers<S: Shelf>(shelf: &mut S) -> [Result<bool, ShelfFail>; 4] {
    [
        gives(shelf, "a", 5, b"first"),
        gives(shelf, "a", 4, b""),
        gives(shelf, "dir/b", 0, b""),
        gives(shelf, "b", 9, b""),
    ]
}

const GIVEN: [Result<bool, ShelfFail>; 4] = [
    Ok(true),
    Err(ShelfFail::TooLong),
    Ok(true),
    Err(ShelfFail::Absent),
];

fn calm_answers(alloc: Global) -> Result<[Result<bool, ShelfFail>; 4], AllocError> {
    Ok(answers(&mut CalmShelf::new(three_files(alloc)?)))
}

/// What a shelf answers whose fifth call fails, and how many calls have failed after that call.
fn failing_answers(
    alloc: Global,
) -> Result<([Result<bool, ShelfFail>; 4], Result<bool, ShelfFail>, u64), AllocError> {
    let mut shelf = MemShelf::new(three_files(alloc)?, vec![in alloc; 5]?);
    let four = answers(&mut shelf);
    let fifth = gives(&mut shelf, "a", 5, b"first");
    Ok((four, fifth, shelf.faults()))
}

#[test]
fn a_shelf_gives_the_first_of_two_files(rt: HostRuntime) {
    assert!(rt; calm_answers(rt.alloc()) == Ok(GIVEN));
    assert!(rt; failing_answers(rt.alloc()) == Ok((GIVEN, Err(ShelfFail::Failed), 1)));
}

/// What a read answers, and how many reads have failed.
fn read<S: Source>(source: &mut S) -> Result<usize, Failed> {
    let mut buffer = [0; 64];
    source.read(&mut buffer)
}

const READ: [Result<usize, Failed>; 5] = [Ok(16), Err(Failed), Ok(16), Ok(8), Ok(0)];

/// What five reads answer of which the second fails, and how many have failed.
fn reads(alloc: Global) -> Result<([Result<usize, Failed>; 5], u64), AllocError> {
    let bytes = Bytes::from_vec(vec![in alloc; 7; 40]?);
    let mut source = MemSource::new(bytes, 16, vec![in alloc; 2]?);
    let answers = [
        read(&mut source),
        read(&mut source),
        read(&mut source),
        read(&mut source),
        read(&mut source),
    ];
    Ok((answers, source.faults()))
}

#[test]
fn a_source_fails_at_its_second_call(rt: HostRuntime) {
    assert!(rt; reads(rt.alloc()) == Ok((READ, 1)));
}

const WRITTEN: [Result<usize, Failed>; 5] = [Ok(2), Ok(0), Err(Failed), Ok(6), Err(Failed)];

/// What five writes answer of which the third fails and the last has no room, how many have failed, and whether the right
/// bytes were written.
fn writes(alloc: Global) -> Result<([Result<usize, Failed>; 5], u64, bool), AllocError> {
    let mut sink = MemSink::new(alloc, 8, usize::MAX, vec![in alloc; 3]?)?;
    let answers = [
        sink.write(b"ab"),
        sink.write(b""),
        sink.write(b"cd"),
        sink.write(b"efghijkl"),
        sink.write(b"m"),
    ];
    Ok((
        answers,
        sink.faults(),
        sink.as_slice() == b"abefghij".as_slice(),
    ))
}

#[test]
fn a_sink_fails_at_its_third_call(rt: HostRuntime) {
    assert!(rt; writes(rt.alloc()) == Ok((WRITTEN, 2, true)));
}

/// What calm streams answer to one call each.
fn calm_calls(
    alloc: Global,
) -> Result<(Result<usize, Failed>, Result<usize, Failed>, bool), AllocError> {
    let mut source = CalmSource::new(Bytes::from_slice(alloc, b"abc")?, 2);
    let mut sink = CalmSink::new(alloc, 3, 1)?;
    let read = read(&mut source);
    let written = sink.write(b"ab");
    Ok((read, written, sink.as_slice() == b"a".as_slice()))
}

#[test]
fn calm_streams_move_all(rt: HostRuntime) {
    assert!(rt; calm_calls(rt.alloc()) == Ok((Ok(2), Ok(1), true)));
}

/// A reader that fails at each call.
struct Broken;

impl io::Read for Broken {
    fn read(&mut self, _buffer: &mut [u8]) -> io::Result<usize> {
        Err(io::Error::from(io::ErrorKind::Interrupted))
    }
}

/// What two reads of a broken reader answer, and how many have failed.
fn broken_reads() -> (Result<usize, Failed>, Result<usize, Failed>, u64) {
    let mut source = StdSource::new(Broken);
    let answers = (read(&mut source), read(&mut source), source.faults());
    let Broken = source.into_inner();
    answers
}

/// What three reads of two bytes answer, the first two bytes, and how many have failed.
fn slice_reads(bytes: &[u8]) -> ([Result<usize, Failed>; 3], [u8; 2], u64) {
    let mut source = StdSource::new(bytes);
    let mut first = [0; 2];
    let mut other = [0; 2];
    let answers = [
        source.read(&mut first),
        source.read(&mut other),
        source.read(&mut other),
    ];
    (answers, first, source.faults())
}

#[test]
fn a_reader_is_a_source(rt: HostRuntime) {
    assert!(rt; slice_reads(b"abc") == ([Ok(2), Ok(1), Ok(0)], *b"ab", 0));
    assert!(rt; broken_reads() == (Err(Failed), Err(Failed), 2));
}

/// What three writes to a vector answer, and whether it has their bytes then.
fn vector_writes(alloc: Global) -> ([Result<usize, Failed>; 3], u64, bool) {
    let mut sink = StdSink::new(Vec::new(alloc));
    let answers = [sink.write(b"ab"), sink.write(b""), sink.write(b"c")];
    let faults = sink.faults();
    (
        answers,
        faults,
        sink.into_inner().as_slice() == b"abc".as_slice(),
    )
}

/// What two writes to a room of one byte answer, and how many have failed.
fn room_writes() -> ([Result<usize, Failed>; 2], u64) {
    let mut room = [0; 1];
    let mut sink = StdSink::new(room.as_mut_slice());
    let answers = [sink.write(b"ab"), sink.write(b"b")];
    (answers, sink.faults())
}

#[test]
fn a_writer_is_a_sink(rt: HostRuntime) {
    assert!(rt; vector_writes(rt.alloc()) == ([Ok(2), Ok(0), Ok(1)], 0, true));
    assert!(rt; room_writes() == ([Ok(1), Err(Failed)], 1));
}

/// What a shelf of files answers to one call, and how many of its calls have failed.
fn file_answer<R: Files + AllocGlobal + Drop>(
    runtime: R,
    path: &str,
    limit: u64,
) -> (Result<bool, ShelfFail>, u64) {
    let mut shelf = FileShelf::new(runtime);
    let answer = gives(&mut shelf, path, limit, b"abc");
    (answer, shelf.faults())
}

/// A path in the folder for what doesn't last.
fn path_of(rt: &HostRuntime) -> io::Result<String> {
    let folder = env::temp_dir(rt)?;
    let path = format!(in rt.alloc();
        "{}/shelf-test-{}",
        folder.to_string_lossy(),
        process::id(rt.process())
    )?;
    Ok(path)
}

/// What shelves answer about a file of three bytes: whole, where fewer are allowed, and once it is gone.
fn file_answers(rt: &HostRuntime, path: &str) -> io::Result<[(Result<bool, ShelfFail>, u64); 3]> {
    fs::write(rt, path, "abc")?;
    let whole = file_answer(rt, path, 3);
    let longer = file_answer(rt, path, 2);
    fs::remove_file(rt, path)?;
    Ok([whole, longer, file_answer(rt, path, 3)])
}

/// Whether they are as they should be.
fn temporary_answers(rt: &HostRuntime) -> io::Result<bool> {
    let path = path_of(rt)?;
    let answers = file_answers(rt, path.as_str())?;
    Ok(answers == FILED)
}

const FILED: [(Result<bool, ShelfFail>, u64); 3] = [
    (Ok(true), 0),
    (Err(ShelfFail::TooLong), 0),
    (Err(ShelfFail::Absent), 0),
];

/// Whether there is no file of no name, and a folder is none.
fn are_no_files(rt: &HostRuntime) -> bool {
    file_answer(rt, "", 3) == (Err(ShelfFail::Absent), 0)
        && file_answer(rt, ".", u64::MAX) == (Err(ShelfFail::Failed), 1)
}

#[test]
fn a_shelf_reads_files(rt: HostRuntime) -> Result<(), Fail> {
    assert!(rt; temporary_answers(&rt)? && are_no_files(&rt));
    Ok(())
}
