//! A reader of std as a source.

ghost use Rattle.std.specs.Prelude.{◌≡◌, is_err, None};
ghost use Rattle.std.specs.Io.{ReadsAtMost};
ghost use Rattle.std.specs.Io.KnownBytes.{ReadConsumes};
ghost use Rattle.eu_io.specs.Faults.{CountsFailures, no_faults};

use crate::fault::Failed;
use crate::fault_count::FaultCount;
use crate::source::Source;
use std::io::Read;
use std::marker::Model;

/// A reader that tells nothing of its bytes. One call is one call of the reader, also where a signal stopped that.
#[derive(Drop)]
pub struct StdSource<R: Read> {
    reader: R,
    faults: FaultCount,
}

impl<R: Read> Model for StdSource<R> {
    ghost use Rattle.eu_io.specs.Adapters.{Counted, counted_code};

    ghost Value = { Counted R };

    ghost coded = { counted_code R.code };

    ghost view = { λ inside. record { inner = inside.reader; faults = inside.faults } };
}

impl<R: Read> StdSource<R> {
    /// A source over this reader. No call has failed yet.
    pub fn new(reader: R) -> StdSource<R>
        ensures { result ≡ record { inner = reader; faults = no_faults } }
    {
        StdSource {
            reader,
            faults: FaultCount::new(),
        }
    }

    /// Gives the reader back.
    pub fn into_inner(self) -> R
        ensures { result ≡ self.inner }
    {
        let StdSource { reader, .. } = self;
        reader
    }

    /// How many calls have failed.
    pub fn faults(&self) -> u64
        ensures { result ≡ self.now.faults.count }
    {
        self.faults.get()
    }
}

impl<R: Read> Source for StdSource<R> {
    ghost left = { λ _. None };

    ghost faults = { λ source. source.faults.count };

    ghost has_failed = { λ source. source.faults.last };

    fn read(&mut self, buffer: &mut [u8]) -> Result<usize, Failed>
        ensures bound { ReadsAtMost result buffer.new }
        ensures counted { CountsFailures result self.old.faults.count self.new.faults.count }
        ensures last { self.new.faults.last ≡ is_err result }
        ensures reader { ReadConsumes (R.remaining self.old.inner) (R.remaining self.new.inner) result buffer.new }
    {
        match self.reader.read(buffer) {
            Ok(count) => {
                self.faults.note(false);
                Ok(count)
            }
            Err(_) => {
                self.faults.note(true);
                Err(Failed)
            }
        }
    }
}
