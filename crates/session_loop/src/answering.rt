//! One line answered, and its reply written.

ghost use Rattle.std.specs.Prelude.{◌≡◌, ℕ, List, ◌+◌, ◌/◌, ◌^◌, ◌<◌, ◌≤◌, max};
ghost use Rattle.eu_io.specs.Faults.{counted, NoneAfter};
ghost use Rattle.session_loop.specs.Ends.{is_write_fault};
ghost use Rattle.session_loop.specs.Held.{HoldsLine};
ghost use Rattle.session_loop.specs.Lines.{most};
ghost use Rattle.session_loop.specs.Pieces.{TakesTurn};

use super::fault::SessionFault;
use super::line::Line;
use super::reply::Responder;
use super::whole::write_lines;
use eu_io::fault::Failed;
use eu_io::sink::Sink;

/// The most that the lines of a session may count.
pub const MOST: usize = 1_000_000;

/// What the lines count once one more was answered, and whether the session goes on.
#[derive(Clone, Copy)]
pub struct Answered {
    pub count: usize,
    pub goes_on: bool,
}

/// What a line of this length counts.
fn cost_of(length: usize) -> usize
    requires { length < 2 ^ 63 }
    ensures { result ≡ max 1 ((length + 4095) / 4096) }
{
    ((length + 4095) / 4096).max(1)
}

/// Answers a line and writes the reply, each line of it as one piece, unless the line brings the count above the most.
pub fn answer_line<T: Responder, O: Sink>(
    responder: &mut T,
    out: &mut O,
    line: &Line,
    count: usize,
) -> Result<Answered, SessionFault>
    requires short { line.now.length < 2 ^ 63 }
    requires counted { count ≤ most }
    ensures answered { (whole : List ℕ) → HoldsLine line.now whole → TakesTurn T.answers count whole
        (record { responder = responder.old; written = O.written out.old })
        (record { responder = responder.new; written = O.written out.new }) result }
    ensures writes { O.faults out.new ≡ counted (is_write_fault result) (O.faults out.old) }
    ensures last { NoneAfter (is_write_fault result) (O.has_failed out.new) }
{
    let count = count + cost_of(line.len());
    if count > MOST {
        return Err(SessionFault::LinesSpent);
    }
    let answer = responder.answer(line.front())?;
    let goes_on = answer.goes_on;
    match write_lines(out, answer.reply.as_slice()) {
        Ok(()) => Ok(Answered { count, goes_on }),
        Err(Failed) => Err(SessionFault::WriteFault),
    }
}
