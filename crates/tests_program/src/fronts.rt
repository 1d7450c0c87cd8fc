//! Each front of a file, with the fault that it has, and a shelf that fails at each of its calls.

use super::rows::{assert_none, files_of, text_in};
use super::runs::{CALM, Fails, NONE, Ran, is_run, ran};
use super::texts::text_of;
use std::alloc::{AllocError, Global};
use tests_samples::lines::Lines;
use tests_samples::shelves::{add_file, entry};

/// What is told of a front of the usual file, from so many bytes on. A fault without a place has the length of the front as its
/// place: the text ends where a lexeme is wanting. A string that isn't closed begins with a wrong byte, as `#` and `:` are while
/// the lexeme is cut; and where `extends` is cut, there is a name in its place.
const VERDICTS: &str = "0 fine
1 BadByte 0
8 Syntax
10 BadByte 9
22 fine
24 BadByte 23
31 Syntax
33 BadByte 32
52 fine
54 Syntax
89 fine
92 Syntax
104 Syntax 103
110 Syntax
226 fine
228 Syntax
233 BadByte 232
234 Syntax
284 fine
286 Syntax
291 BadByte 290
292 Syntax
361 fine
363 Syntax
423 fine
425 Syntax
451 fine
453 Syntax
460 fine
462 Syntax
482 fine
484 Syntax
505 fine
507 Syntax
536 fine
538 Syntax
559 fine
561 Syntax
589 fine";

/// Whether the row is of a front of so many bytes, or of a shorter one.
fn is_from(row: &str, count: usize) -> bool {
    let (from, _verdict) = row.split_once(' ').unwrap_or((row, ""));
    from.parse().unwrap_or(usize::MAX) <= count
}

/// The number of the last row that is.
fn row_of(count: usize) -> usize {
    let mut last = 0;
    for (number, row) in VERDICTS.split('\n').enumerate() {
        if is_from(row, count) {
            last = number;
        }
    }
    last
}

/// What is told of a front of so many bytes.
fn verdict_of(count: usize) -> &'static str {
    let row = VERDICTS.split('\n').nth(row_of(count)).unwrap_or("");
    let (_from, verdict) = row.split_once(' ').unwrap_or((row, ""));
    verdict
}

/// The line that a front of so many bytes is answered by, or nothing where it is fine.
fn line_of(alloc: Global, count: usize) -> Result<String, AllocError> {
    let verdict = verdict_of(count);
    let (kind, place) = verdict.split_once(' ').unwrap_or((verdict, ""));
    let mut line = Lines::new(alloc);
    if kind != "fine" {
        line.say("text ");
        line.say(kind);
        line.say(" m.nddl ");
        line.number(place.parse().unwrap_or(count));
        line.end_line();
    }
    line.into_text()
}

/// The number of the status behind this line.
fn status_behind(line: &str) -> u8 {
    if line.is_empty() { 0 } else { 3 }
}

/// Whether a script over this file, without any input, writes the line, and the number of its status.
fn ran_silent(alloc: Global, file: &[u8], line: &str) -> Ran {
    let mut files = Vec::new(alloc);
    match add_file(&mut files, entry(alloc, "m.nddl", file)) {
        Ok(()) => ran(
            alloc,
            "script m.nddl",
            files,
            (b"", 16),
            CALM,
            (line.as_bytes(), usize::MAX),
        ),
        Err(none) => Err(none),
    }
}

/// Whether so many first bytes of the file are answered as they have to be.
fn is_told(alloc: Global, file: &[u8], count: usize) -> bool {
    match line_of(alloc, count) {
        Ok(line) => {
            let front = &file[..count.min(file.len())];
            is_run(
                ran_silent(alloc, front, line.as_str()),
                status_behind(line.as_str()),
            )
        }
        Err(_none) => false,
    }
}

/// The first number of bytes whose front of the file is answered otherwise.
fn wrong_front(alloc: Global, file: &[u8]) -> Option<usize> {
    for count in 0..file.len() + 1 {
        if !is_told(alloc, file, count) {
            return Some(count);
        }
    }
    None
}

#[test]
fn each_front_of_a_file_is_fine_or_has_its_first_fault(rt: HostRuntime) {
    assert_none(&rt, wrong_front(rt.alloc(), text_of("USUAL").as_bytes()));
}

/// A file that includes two others, the second of which includes a third one, and a plan of its variables.
const INCLUDING: &str = "m.nddl
#include \"a\" #include \"b\" leq(x, y);
-- a
int [0 3] x;
-- b
#include \"c\" int [2 2] y;
-- c
eq(x, 1);
-- p.txt
plan
global x 1
global y 2
end

-- input
domain x
";

/// The status and what is written, of each command that reads the files, and how many of them it reads.
const READING: &str = "4 script m.nddl
x [1 1]

== 4 plan m.nddl
found 1
plan
global x 1
global y 2
end

== 5 check m.nddl p.txt
valid

== 1 show m.nddl
#include \"a\"
#include \"b\"
leq ( x , y ) ;
";

/// Whether the run of this line writes the output, and the number of its status.
fn ran_line(alloc: Global, line: &str, fails: Fails, output: &str) -> Ran {
    let input = text_in(INCLUDING, "", "input").as_bytes();
    match files_of(alloc, INCLUDING, "") {
        Ok(files) => ran(
            alloc,
            line,
            files,
            (input, 16),
            fails,
            (output.as_bytes(), usize::MAX),
        ),
        Err(none) => Err(none),
    }
}

/// Whether the run ends in order where the shelf fails at a call behind the last.
fn is_whole(alloc: Global, line: &str, calls: u64, output: &str) -> bool {
    is_run(
        ran_line(alloc, line, (calls.saturating_add(1), NONE, NONE), output),
        0,
    )
}

/// Whether the run writes nothing and ends so where the shelf fails at any one of these calls.
fn ends_at_each(alloc: Global, line: &str, calls: u64) -> bool {
    for call in 0..calls {
        if !is_run(
            ran_line(alloc, line, (call.saturating_add(1), NONE, NONE), ""),
            20,
        ) {
            return false;
        }
    }
    true
}

/// Whether the row's run ends as it has to at each call.
fn is_row(alloc: Global, row: &str) -> bool {
    let (head, output) = row.split_once('\n').unwrap_or((row, ""));
    let (calls, line) = head.split_once(' ').unwrap_or((head, ""));
    let calls = calls.parse().unwrap_or(NONE);
    ends_at_each(alloc, line, calls) && is_whole(alloc, line, calls, output)
}

/// The first row whose runs end otherwise.
fn wrong_row(alloc: Global) -> Option<usize> {
    for (number, row) in READING.split("\n== ").enumerate() {
        if !is_row(alloc, row) {
            return Some(number);
        }
    }
    None
}

#[test]
fn a_failed_file_ends_the_run(rt: HostRuntime) {
    assert_none(&rt, wrong_row(rt.alloc()));
}
