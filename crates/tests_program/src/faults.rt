//! What is left of a run where a call of the outside fails.

use super::rows::{assert_none, assert_runs, files_of, text_in};
use super::runs::{Fails, NONE, Ran, is_run, ran};
use std::alloc::Global;

/// Two variables and a plan of them, and lines over them.
const COMMON: &str = "m.nddl
ORDERED
-- p.txt
plan
global x 1
global y 0
end

-- input
specify x 4
domain y
undo
domain y
";

const FAULTS: &str = "
== 20 script m.nddl
-- fails
1 - -
== 20 script m.nddl
-- fails
- 1 -
== 20 script m.nddl
-- fails
- 2 -
-- output
ok

== 21 script m.nddl
-- fails
- - 1
== 21 script m.nddl
-- fails
- - 3
-- output
ok
y [4 10]

== # The end is a read too, and a script makes no other call behind it.
== 20 script m.nddl
-- fails
- 4 -
-- output
ok
y [4 10]
ok
y [0 10]

== 0 script m.nddl
-- fails
2 5 5
-- output
ok
y [4 10]
ok
y [0 10]

== 21 script n.nddl
-- fails
- - 1
== 20 show m.nddl
-- fails
1 - -
== # A line is one piece.
== 21 show m.nddl
-- fails
- - 2
-- output
int [ 0 10 ] x ;

== # Only a script reads the input.
== 0 show m.nddl
-- fails
- 1 -
-- output
int [ 0 10 ] x ;
int [ 0 10 ] y ;
leq ( x , y ) ;

== 20 plan m.nddl
-- fails
1 - -
== 21 plan m.nddl
-- fails
2 1 4
-- output
found 3
plan
global x 0

== # The file of the plan is the second one that is asked for.
== 20 check m.nddl p.txt
-- fails
2 - -
== 5 check m.nddl p.txt
-- fails
3 1 2
-- output
invalid V7 problem 0

== 21 check m.nddl p.txt
-- fails
- - 1
== # Neither the shelf nor the input is called.
== 21 try 1
-- fails
1 1 4
-- output
try 1
found 3
active 2

== 21 plan
-- fails
1 1 1";

#[test]
fn a_fault_ends_the_run(rt: HostRuntime) {
    assert_runs(&rt, FAULTS, COMMON);
}

/// How many calls a sink needs for a line that takes so many bytes a call.
fn calls_for(line: &str, most: usize) -> usize {
    line.len().saturating_add(most) / most.max(1)
}

/// How many calls it needs for all lines of a text, each of which is handed over as one piece.
fn calls_for_all(text: &str, most: usize) -> usize {
    let mut calls: usize = 0;
    for line in text.trim_end().split('\n') {
        calls = calls.saturating_add(calls_for(line, most));
    }
    calls
}

/// How many bytes of the text so many calls take.
fn taken_by(text: &str, calls: usize, most: usize) -> usize {
    let mut left = calls;
    let mut bytes: usize = 0;
    for line in text.trim_end().split('\n') {
        let made = calls_for(line, most).min(left);
        let room = made.saturating_mul(most);
        bytes = bytes.saturating_add(room.min(line.len().saturating_add(1)));
        left = left.saturating_sub(made);
    }
    bytes
}

/// How many lines end in so many first bytes.
fn lines_in(text: &[u8], bytes: usize) -> usize {
    let front = &text[..bytes.min(text.len())];
    let mut lines: usize = 0;
    for byte in front {
        if *byte == b'\n' {
            lines = lines.saturating_add(1);
        }
    }
    lines
}

/// The call behind so many.
fn next_call(calls: usize) -> u64 {
    (calls as u64).saturating_add(1)
}

/// Whether the script of these sections writes just so many bytes of its output where a call fails, and the number of the
/// status. The input comes, and the output is taken, so many bytes a call.
fn stopped(
    alloc: Global,
    sections: &str,
    pieces: (usize, usize),
    fails: Fails,
    bytes: usize,
) -> Ran {
    let output = text_in(sections, "", "output").as_bytes();
    let front = &output[..bytes.min(output.len())];
    let input = text_in(sections, "", "input").as_bytes();
    match files_of(alloc, sections, "") {
        Ok(files) => ran(
            alloc,
            "script m.nddl",
            files,
            (input, pieces.0),
            fails,
            (front, pieces.1),
        ),
        Err(none) => Err(none),
    }
}

/// Orders that go round.
const ORDERS: &str = "m.nddl
THREE
-- input
ROUND
-- output
ROUND_ANSWERS";

/// The plan of the rover is found, and what it decides last is taken back.
const FOUND_THEN: &str = "m.nddl
ROVER
-- input
solve 100 512
undo
tokens

-- output
found 12
plan
fact init Rover.At start 0 end 1 duration 1 object r place 0
token g Rover.At start 2 end 3 duration 1 object r place 2
token g/0:0 Rover.Going start 1 end 2 duration 1 object r from 0 to 2
merged g/0:0/0:0 init
end
ok
tokens 4
init Rover.At fact
g Rover.At active
g/0:0 Rover.Going active
g/0:0/0:0 Rover.At merged init
";

/// Lines over two variables.
const EDITED: &str = "m.nddl
ORDERED
-- input
specify x 4
domain y
undo
domain y

-- output
ok
y [4 10]
ok
y [0 10]
";

/// Whether what so many calls take is written where the call behind them fails, and the number of the status.
fn written(alloc: Global, script: &str, calls: usize, most: usize) -> Ran {
    let bytes = taken_by(text_in(script, "", "output"), calls, most);
    let fails = (NONE, NONE, next_call(calls));
    stopped(alloc, script, (4_096, most), fails, bytes)
}

/// Whether so many bytes of the edits are answered where the read behind them fails, and the number of the status.
fn read(alloc: Global, edits: &[u8], bytes: usize) -> Ran {
    let lines = lines_in(edits, bytes);
    let fails = (NONE, next_call(bytes), NONE);
    let answered = taken_by(text_in(EDITED, "", "output"), lines, usize::MAX);
    stopped(alloc, EDITED, (1, usize::MAX), fails, answered)
}

/// The first number of calls behind which a failed write leaves something else than what these take.
fn wrong_write(alloc: Global, script: &str, most: usize) -> Option<usize> {
    let all = calls_for_all(text_in(script, "", "output"), most);
    for calls in 0..all {
        if !is_run(written(alloc, script, calls, most), 21) {
            return Some(calls);
        }
    }
    None
}

/// Whether all is written where a call fails that isn't made.
fn is_all_written(alloc: Global, script: &str, most: usize) -> bool {
    let all = calls_for_all(text_in(script, "", "output"), most);
    is_run(written(alloc, script, all, most), 0)
}

/// The first number of bytes of the edits behind which a failed read leaves something else than it should.
fn wrong_read(alloc: Global, edits: &[u8]) -> Option<usize> {
    for bytes in 0..edits.len() + 1 {
        if !is_run(read(alloc, edits, bytes), 20) {
            return Some(bytes);
        }
    }
    None
}

/// How many bytes a sink takes a call: each piece whole, one, and seven.
const PIECES: [usize; 3] = [usize::MAX, 1, 7];

#[test]
fn a_failed_write_leaves_what_was_taken_before(rt: HostRuntime) {
    for most in PIECES {
        assert_none(&rt, wrong_write(rt.alloc(), ORDERS, most));
        assert_none(&rt, wrong_write(rt.alloc(), FOUND_THEN, most));
    }
}

#[test]
fn nothing_is_written_behind_the_last(rt: HostRuntime) {
    for most in PIECES {
        assert!(rt; is_all_written(rt.alloc(), ORDERS, most));
        assert!(rt; is_all_written(rt.alloc(), FOUND_THEN, most));
    }
}

#[test]
fn a_failed_read_leaves_the_lines_before(rt: HostRuntime) {
    let edits = text_in(EDITED, "", "input").as_bytes();
    assert_none(&rt, wrong_read(rt.alloc(), edits));
}
