//! A writer of std as a sink.

ghost use Rattle.std.specs.Prelude.{◌≡◌, ◌<◌, length, is_err, None, IfOk};
ghost use Rattle.std.specs.Io.{WritesAtMost};
ghost use Rattle.std.specs.Io.KnownBytes.{WriteAppends};
ghost use Rattle.eu_io.specs.Faults.{CountsFailures, no_faults};

use crate::fault::Failed;
use crate::fault_count::FaultCount;
use crate::sink::Sink;
use std::io::Write;
use std::marker::Model;

/// A writer that tells nothing of its bytes. One call is one call of the writer, also where a signal stopped that,
/// and a writer that takes nothing of a piece has failed. Nothing is flushed.
#[derive(Drop)]
pub struct StdSink<W: Write> {
    writer: W,
    faults: FaultCount,
}

impl<W: Write> Model for StdSink<W> {
    ghost use Rattle.eu_io.specs.Adapters.{Counted, counted_code};

    ghost Value = { Counted W };

    ghost coded = { counted_code W.code };

    ghost view = { λ inside. record { inner = inside.writer; faults = inside.faults } };
}

impl<W: Write> StdSink<W> {
    /// A sink over this writer. No call has failed yet.
    pub fn new(writer: W) -> StdSink<W>
        ensures { result ≡ record { inner = writer; faults = no_faults } }
    {
        StdSink {
            writer,
            faults: FaultCount::new(),
        }
    }

    /// Gives the writer back.
    pub fn into_inner(self) -> W
        ensures { result ≡ self.inner }
    {
        let StdSink { writer, .. } = self;
        writer
    }

    /// How many calls have failed.
    pub fn faults(&self) -> u64
        ensures { result ≡ self.now.faults.count }
    {
        self.faults.get()
    }
}

impl<W: Write> Sink for StdSink<W> {
    ghost written = { λ _. None };

    ghost faults = { λ sink. sink.faults.count };

    ghost has_failed = { λ sink. sink.faults.last };

    fn write(&mut self, piece: &[u8]) -> Result<usize, Failed>
        ensures bound { WritesAtMost result piece.now }
        ensures moves { IfOk result (λ count. 0 < length piece.now → 0 < count) }
        ensures counted { CountsFailures result self.old.faults.count self.new.faults.count }
        ensures last { self.new.faults.last ≡ is_err result }
        ensures writer { WriteAppends (W.contents self.old.inner) (W.contents self.new.inner) result piece.now }
    {
        match self.writer.write(piece) {
            Ok(count) if count > 0 || piece.is_empty() => {
                self.faults.note(false);
                Ok(count)
            }
            _ => {
                self.faults.note(true);
                Err(Failed)
            }
        }
    }
}
