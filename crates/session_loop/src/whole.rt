//! Writes that hand over all they are given.

ghost use Rattle.std.specs.Prelude.{◌≡◌, ℕ, List, ◌+◌, ◌<◌, ◌≤◌, length, min, is_err};
ghost use Rattle.std.specs.List.{prefix_len};
ghost use Rattle.eu_io.specs.Faults.{CountsFailures, NoneAfter};
ghost use Rattle.session_loop.specs.Writing.{WritesWhole, is_before_feed};

use eu_io::fault::Failed;
use eu_io::sink::Sink;

/// Writes the piece, handing over again what a write didn't take. A write that fails ends it.
pub fn write_whole<O: Sink>(out: &mut O, piece: &[u8]) -> Result<(), Failed>
    ensures bytes { WritesWhole (O.written out.old) (O.written out.new) result piece.now }
    ensures counted { CountsFailures result (O.faults out.old) (O.faults out.new) }
    ensures last { NoneAfter (is_err result) (O.has_failed out.new) }
{
    let mut taken = 0;
    while taken < piece.len() {
        taken += out.write(&piece[taken..])?;
    }
    Ok(())
}

// How many bytes stand before the first line feed.
fn inside_len(text: &[u8]) -> usize
    ensures exact { result ≡ prefix_len is_before_feed text.now }
    ensures within { result ≤ length text.now }
{
    text.iter().take_while(|byte| **byte != b'\n').count()
}

// How long the first line is, with its line feed.
fn line_len(text: &[u8]) -> usize
    ensures { result ≡ min (prefix_len is_before_feed text.now + 1) (length text.now) }
{
    let inside = inside_len(text);
    if inside < text.len() {
        inside + 1
    } else {
        inside
    }
}

/// Writes each line of the text with its line feed as one piece. A write that fails ends it.
pub fn write_lines<O: Sink>(out: &mut O, text: &[u8]) -> Result<(), Failed>
    ensures bytes { WritesWhole (O.written out.old) (O.written out.new) result text.now }
    ensures counted { CountsFailures result (O.faults out.old) (O.faults out.new) }
    ensures last { NoneAfter (is_err result) (O.has_failed out.new) }
{
    let mut rest = text;
    while !rest.is_empty() {
        let (line, more) = rest.split_at(line_len(rest));
        write_whole(out, line)?;
        rest = more;
    }
    Ok(())
}
