//! Lines cut from the bytes of a source.

ghost use Rattle.std.specs.Prelude.{◌≡◌, ◌<◌, ◌≤◌, ℕ, ◌+◌, ◌*◌, ◌^◌, length, take, slice_index, IfOk, OnOk};
ghost use Rattle.eu_io.specs.Faults.{counted, NoneAfter};
ghost use Rattle.session_loop.specs.Ends.{is_read_fault};
ghost use Rattle.session_loop.specs.Pieces.{IsOneLine, MovesLine, CutsLine, AtEndCuts};

use super::fault::SessionFault;
use super::inflow::Inflow;
use super::line::Line;
use eu_io::fault::Failed;
use eu_io::source::Source;
use std::alloc::AllocError;

/// How a line ended.
#[derive(Clone, Copy)]
pub enum Cut {
    /// With a line feed.
    Feed,
    /// With the input, and it isn't empty.
    Last,
    /// The input ended, and there is no line.
    End,
}

/// The place of the first line feed, or the length.
fn find_feed(bytes: &[u8]) -> usize
    ensures within { result ≤ length bytes.now }
    ensures before { IsOneLine (take result bytes.now) }
    ensures found { result < length bytes.now → slice_index bytes.now result ≡ 10 }
{
    for (i, byte) in bytes.iter().enumerate() {
        if *byte == b'\n' {
            return i;
        }
    }
    bytes.len()
}

/// Moves the bytes before the first line feed to the line, or all where there is none, and answers whether there was
/// one.
fn move_line(inflow: &mut Inflow, line: &mut Line) -> Result<bool, AllocError>
    requires { line.old.length + 8192 < 2 ^ 64 }
    ensures moved { IfOk result (λ fed. MovesLine inflow.old inflow.new line.old line.new fed) }
    ensures grown { OnOk result (line.new.length ≤ line.old.length + 8192) }
{
    let bytes = inflow.as_slice();
    let room = bytes.len();
    let count = find_feed(bytes);
    line.add(&bytes[..count])?;
    if count < room {
        inflow.skip(count + 1);
        return Ok(true);
    }
    inflow.skip(count);
    Ok(false)
}

/// Where the input ended: the line that it ended, if there is one.
fn at_end(line: &Line) -> Cut
    ensures { AtEndCuts line.now result }
{
    if line.len() == 0 { Cut::End } else { Cut::Last }
}

/// Reads a line. One that is longer than this may be given up.
pub fn next_line<S: Source>(
    input: &mut S,
    inflow: &mut Inflow,
    line: &mut Line,
    longest: usize,
) -> Result<Cut, SessionFault>
    requires { longest < 2 ^ 62 }
    ensures cut { CutsLine (record { left = S.left input.old; held = inflow.old })
        (record { left = S.left input.new; held = inflow.new }) line.new longest result }
    ensures bound { OnOk result (line.new.length < 2 ^ 63) }
    ensures reads { S.faults input.new ≡ counted (is_read_fault result) (S.faults input.old) }
    ensures last { NoneAfter (is_read_fault result) (S.has_failed input.new) }
{
    line.clear();
    loop {
        match inflow.refill(input) {
            Ok(true) => {}
            Ok(false) => return Ok(at_end(line)),
            Err(Failed) => return Err(SessionFault::ReadFault),
        }
        if move_line(inflow, line)? {
            return Ok(Cut::Feed);
        }
        if line.len() > longest {
            return Err(SessionFault::LinesSpent);
        }
    }
}
