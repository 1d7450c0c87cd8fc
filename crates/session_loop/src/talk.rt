//! A session from the first line of a source to its end.

ghost use Rattle.std.specs.Prelude.{◌≡◌, ◌≤◌, [], if◌then◌else◌};
ghost use Rattle.eu_io.specs.Faults.{counted, NoneAfter};
ghost use Rattle.session_loop.specs.Ends.{SessionTells, is_read_fault, is_write_fault};
ghost use Rattle.session_loop.specs.Lines.{most};
ghost use Rattle.session_loop.specs.Pieces.{Talks, TurnTalks};

use super::answering::{MOST, answer_line};
use super::cutting::{Cut, next_line};
use super::fault::SessionFault;
use super::inflow::Inflow;
use super::line::Line;
use super::reply::Responder;
use eu_io::sink::Sink;
use eu_io::source::Source;
use std::alloc::Global;

/// How a session ended without a fault.
#[derive(Clone, Copy, Debug, PartialEq, Eq)]
pub enum SessionEnd {
    /// The input was read to its end.
    OfInput,
    /// An answer ended it.
    ByAnswer,
}

/// Reads lines to the end of the input, has each answered, and writes the replies, each line of them as one piece.
/// After a fault nothing more is read or written.
pub fn session<T: Responder, S: Source, O: Sink>(
    alloc: Global,
    responder: &mut T,
    input: &mut S,
    out: &mut O,
) -> Result<SessionEnd, SessionFault>
    ensures told { SessionTells T.answers
        (record { responder = responder.old; left = S.left input.old; written = O.written out.old })
        (record { responder = responder.new; left = S.left input.new; written = O.written out.new }) result }
    ensures reads { S.faults input.new ≡ counted (is_read_fault result) (S.faults input.old) }
    ensures writes { O.faults out.new ≡ counted (is_write_fault result) (O.faults out.old) }
    ensures last_read { NoneAfter (is_read_fault result) (S.has_failed input.new) }
    ensures last_write { NoneAfter (is_write_fault result) (O.has_failed out.new) }
{
    start(alloc, responder, input, out)
}

/// Makes room for what is read and for a line, and answers all lines.
fn start<T: Responder, S: Source, O: Sink>(
    alloc: Global,
    responder: &mut T,
    input: &mut S,
    out: &mut O,
) -> Result<SessionEnd, SessionFault>
    ensures talks { Talks T.answers (record { count = 0; held = [] })
        (record { responder = responder.old; left = S.left input.old; written = O.written out.old })
        (record { responder = responder.new; left = S.left input.new; written = O.written out.new }) result }
    ensures reads { S.faults input.new ≡ counted (is_read_fault result) (S.faults input.old) }
    ensures writes { O.faults out.new ≡ counted (is_write_fault result) (O.faults out.old) }
    ensures last_read { NoneAfter (is_read_fault result) (S.has_failed input.new) }
    ensures last_write { NoneAfter (is_write_fault result) (O.has_failed out.new) }
{
    let mut inflow = Inflow::new(alloc)?;
    let mut line = Line::new(alloc);
    answer_lines(responder, input, out, &mut inflow, &mut line)
}

/// Answers line after line, until the input ends, or an answer or a fault ends the session.
fn answer_lines<T: Responder, S: Source, O: Sink>(
    responder: &mut T,
    input: &mut S,
    out: &mut O,
    inflow: &mut Inflow,
    line: &mut Line,
) -> Result<SessionEnd, SessionFault>
    ensures talks { Talks T.answers (record { count = 0; held = inflow.old })
        (record { responder = responder.old; left = S.left input.old; written = O.written out.old })
        (record { responder = responder.new; left = S.left input.new; written = O.written out.new }) result }
    ensures reads { S.faults input.new ≡ counted (is_read_fault result) (S.faults input.old) }
    ensures writes { O.faults out.new ≡ counted (is_write_fault result) (O.faults out.old) }
    ensures last_read { NoneAfter (is_read_fault result) (S.has_failed input.new) }
    ensures last_write { NoneAfter (is_write_fault result) (O.has_failed out.new) }
{
    let mut count = 0;
    'lines: loop {
        let turn = take_turn(responder, input, out, inflow, line, count)?;
        match turn {
            Turn::Goes(more) => count = more,
            Turn::Stops(end) => return Ok(end),
        }
    }
}

/// What comes of one turn of the session.
#[derive(Clone, Copy)]
enum Turn {
    /// The session goes on, and its lines count so much.
    Goes(usize),
    /// The session ends.
    Stops(SessionEnd),
}

/// Reads a line, if there is one, and answers it.
fn take_turn<T: Responder, S: Source, O: Sink>(
    responder: &mut T,
    input: &mut S,
    out: &mut O,
    inflow: &mut Inflow,
    line: &mut Line,
    count: usize,
) -> Result<Turn, SessionFault>
    requires { count ≤ most }
    ensures turns { TurnTalks T.answers (record { count = count; held = inflow.old })
        (record { responder = responder.old; left = S.left input.old; written = O.written out.old })
        (record { responder = responder.new; left = S.left input.new; written = O.written out.new }) inflow.new result }
    ensures reads { S.faults input.new ≡ counted (is_read_fault result) (S.faults input.old) }
    ensures writes { O.faults out.new ≡ counted (is_write_fault result) (O.faults out.old) }
    ensures last_read { NoneAfter (is_read_fault result) (S.has_failed input.new) }
    ensures last_write { NoneAfter (is_write_fault result) (O.has_failed out.new) }
{
    match next_line(input, inflow, line, (MOST - count) * 4096)? {
        Cut::Feed => {
            let answered = answer_line(responder, out, line, count)?;
            if answered.goes_on {
                Ok(Turn::Goes(answered.count))
            } else {
                Ok(Turn::Stops(SessionEnd::ByAnswer))
            }
        }
        Cut::Last => {
            let answered = answer_line(responder, out, line, count)?;
            Ok(Turn::Stops(end_behind(answered.goes_on)))
        }
        Cut::End => Ok(Turn::Stops(SessionEnd::OfInput)),
    }
}

/// How the session ends behind the last line.
fn end_behind(goes_on: bool) -> SessionEnd
    ensures { result ≡ (if goes_on then SessionEnd.OfInput else SessionEnd.ByAnswer) }
{
    if goes_on {
        SessionEnd::OfInput
    } else {
        SessionEnd::ByAnswer
    }
}
