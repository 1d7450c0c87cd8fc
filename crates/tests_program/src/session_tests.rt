//! Sessions over sources and sinks in memory, with a responder that says a line again.

use super::rows::{call_of, text_in};
use super::runs::source_of;
use eu_io::memory::sink::MemSink;
use eu_io::memory::source::MemSource;
use eu_name::bytes::Bytes;
use session_loop::fault::SessionFault;
use session_loop::reply::{Answer, Responder};
use session_loop::talk::{SessionEnd, session};
use std::alloc::{AllocError, Global};
use std::process::Abort;
use tests_samples::repeating::repeated;

/// Says a short line again, then how many bytes came; to an empty line nothing. The line `quit` ends the session.
#[derive(Drop)]
struct Echo {
    alloc: Global,
}

impl Responder for Echo {
    ghost answers = { λ _ _ _ _. Unit {0} };

    ghost reads_front = { λ _ _ _ _ _. tt };

    fn answer(&mut self, line: &[u8]) -> Result<Answer, AllocError> {
        let reply = say_again(self.alloc, line)?;
        let goes_on = line != b"quit".as_slice();
        Ok(Answer { reply, goes_on })
    }
}

fn bytes_of(text: Result<String, AllocError>) -> Result<Bytes, AllocError> {
    match text {
        Ok(text) => Ok(Bytes::from_vec(text.into_bytes())),
        Err(none) => Err(none),
    }
}

fn say_short(alloc: Global, line: &[u8]) -> Result<Bytes, AllocError> {
    match String::from_utf8_lossy(alloc, line) {
        Ok(said) => bytes_of(format!(in alloc; "{said}\n{}\n", line.len())),
        Err(none) => Err(none),
    }
}

fn say_again(alloc: Global, line: &[u8]) -> Result<Bytes, AllocError> {
    if line.is_empty() {
        Ok(Bytes::from_vec(Vec::new(alloc)))
    } else if line.len() >= 10 {
        bytes_of(format!(in alloc; "{}\n", line.len()))
    } else {
        say_short(alloc, line)
    }
}

/// How a session ends, and whether the right bytes were written.
type Ended = (Result<SessionEnd, SessionFault>, bool);

/// How a session from this source into this sink ends, and whether this is what was written.
fn ended_in(alloc: Global, source: &mut MemSource, sink: &mut MemSink, output: &[u8]) -> Ended {
    let end = session(alloc, &mut Echo { alloc }, source, sink);
    (end, sink.as_slice() == output)
}

/// A sink of which this call fails.
fn sink_of(alloc: Global, fails: u64) -> Result<MemSink, AllocError> {
    MemSink::new(alloc, 2_000, 3, vec![in alloc; fails]?)
}

/// How a session over this source ends, where this call of the sink fails; and whether this is what was written.
fn ended_from(
    alloc: Global,
    source: &mut MemSource,
    fails: u64,
    output: &[u8],
) -> Result<Ended, AllocError> {
    match sink_of(alloc, fails) {
        Ok(mut sink) => Ok(ended_in(alloc, source, &mut sink, output)),
        Err(none) => Err(none),
    }
}

/// How a session ends over this input, of which a read gives so many bytes, and where these calls fail; and whether
/// this is what was written. The calls are told in words: the bytes of a read, and which read and which write fail.
fn ended(alloc: Global, calls: &str, input: &str, output: &str) -> Result<Ended, AllocError> {
    let (most, fails) = calls.split_once(' ').unwrap_or((calls, ""));
    let (read, write) = fails.split_once(' ').unwrap_or((fails, ""));
    let most = most.parse().unwrap_or(1);
    match source_of(alloc, input.as_bytes(), most, call_of(read)) {
        Ok(mut source) => ended_from(alloc, &mut source, call_of(write), output.as_bytes()),
        Err(none) => Err(none),
    }
}

fn ended_to(alloc: Global, calls: &str, sections: &str, output: &str) -> Result<Ended, AllocError> {
    match repeated(alloc, text_in(sections, "", "input")) {
        Ok(input) => ended(alloc, calls, input.as_str(), output),
        Err(none) => Err(none),
    }
}

/// How the session of these calls and sections ends, and whether it writes what it should.
fn ended_over(alloc: Global, calls: &str, sections: &str) -> Result<Ended, AllocError> {
    match repeated(alloc, text_in(sections, "", "output")) {
        Ok(output) => ended_to(alloc, calls, sections, output.as_str()),
        Err(none) => Err(none),
    }
}

fn is_text(found: Result<String, AllocError>, wanted: &str) -> bool {
    match found {
        Ok(found) => found.as_str() == wanted,
        Err(_none) => false,
    }
}

fn is_end(alloc: Global, found: Result<Ended, AllocError>, wanted: &str) -> bool {
    match found {
        Ok((end, wrote)) => wrote && is_text(format!(in alloc; "{end:?}"), wanted),
        Err(_none) => false,
    }
}

/// Whether the row's session writes and ends as the row says.
fn is_right(alloc: Global, row: &str) -> bool {
    let (head, sections) = row.split_once("\n-- ").unwrap_or((row, ""));
    let (calls, end) = head.rsplit_once(' ').unwrap_or((head, ""));
    head.is_empty() || is_end(alloc, ended_over(alloc, calls, sections), end)
}

/// Asserts each session of the table, whose rows are like those of runs. In front stand how many bytes a read gives, which
/// read and which write fails, and how the session ends.
fn assert_sessions<R: Abort + AllocGlobal>(rt: &R, table: &str) {
    for row in table.split("\n== ") {
        if !is_right(rt.alloc(), row) {
            panic!(rt; "{row}");
        }
    }
}

// The last line may lack its line end.
const BY_INPUT: &str = "
== 4 - - Ok(OfInput)
-- input
one

th\rree
-- output
one
3
th\rree
6

== 1 - - Ok(OfInput)
-- input
one
two

-- output
one
3
two
3
";

#[test]
fn sessions_end_with_their_input(rt: HostRuntime) {
    assert_sessions(&rt, BY_INPUT);
}

// On a line in the middle and on the last.
const BY_ANSWER: &str = "
== 99 - - Ok(ByAnswer)
-- input
one
quit
two

-- output
one
3
quit
4

== 99 - - Ok(ByAnswer)
-- input
quit
-- output
quit
4
";

#[test]
fn an_answer_ends_the_session(rt: HostRuntime) {
    assert_sessions(&rt, BY_ANSWER);
}

const BY_FAULT: &str = "
== 6 3 - Err(ReadFault)
-- input
one
two
three
-- output
one
3
two
3

== 99 - 2 Err(WriteFault)
-- input
three
two

-- output
thr";

#[test]
fn a_fault_ends_the_session(rt: HostRuntime) {
    assert_sessions(&rt, BY_FAULT);
}

// Of a long line the front is kept, and it is one line.
const LONG: &str = "
== 1000000 - - Ok(OfInput)
-- input
<<4097 x>>
-- output
4097

== 1000000 - - Ok(OfInput)
-- input
<<4099 x>>
next
-- output
4097
next
4

== 1000000 - - Ok(OfInput)
-- input
<<1000000 \n>>
== 1000000 - - Err(LinesSpent)
-- input
<<1000001 \n>>";

#[test]
fn long_lines_and_many(rt: HostRuntime) {
    assert_sessions(&rt, LONG);
}
