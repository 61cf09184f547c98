ghost use Rattle.std.specs.Prelude.{◌≡◌, true, false, List, Option, ℕ, Bool};
ghost use Rattle.std.specs.Io.{WritesAtMost};
ghost use Rattle.std.specs.Io.KnownBytes.{WriteAppends, Keeps};
ghost use Rattle.basket_stream.specs.Stream.{read_fails, write_fails};

use crate::failed::Failed;
use std::io::Write;

/// A writer of bytes, whose first failure is its last call.
pub trait Sink {
    // The bytes that were taken, or nothing if the sink does not report them.
    ghost taken: { Self → Option (List ℕ) };

    ghost has_failed: { Self → Bool };

    // Whether the last call was a flush.
    ghost ends_in_flush: { Self → Bool };

    /// Takes a prefix of the bytes, and returns how many. To take none of a nonempty piece is a
    /// failure.
    fn write(&mut self, bytes: &[u8]) -> Result<usize, Failed>
        requires { has_failed self.old ≡ false }
        ensures bound { WritesAtMost result bytes.now }
        ensures bytes { WriteAppends (taken self.old) (taken self.new) result bytes.now }
        ensures failed { has_failed self.new ≡ write_fails result bytes.now }
        ensures last { ends_in_flush self.new ≡ false };

    fn flush(&mut self) -> Result<(), Failed>
        requires { has_failed self.old ≡ false }
        ensures bytes { Keeps (taken self.old) (taken self.new) }
        ensures failed { has_failed self.new ≡ read_fails result }
        ensures last { ends_in_flush self.new ≡ true };

    /// Whether a write or a flush has failed.
    fn failed(&self) -> bool
        ensures { result ≡ has_failed self.now };
}

/// A sink over a writer of std. Any error of the writer is a failure.
#[derive(Debug, Drop)]
pub struct StdSink<W> {
    writer: W,
    failed: bool,
    ends_in_flush: bool,
}

impl<W: Write> StdSink<W> {
    pub fn new(writer: W) -> Self
        ensures fresh { ⟦<StdSink<W> as Sink>⟧.has_failed result ≡ false }
        ensures taken { ⟦<StdSink<W> as Sink>⟧.taken result ≡ W.contents writer }
    {
        StdSink {
            writer,
            failed: false,
            ends_in_flush: false,
        }
    }
}

impl<W: Write> Sink for StdSink<W> {
    ghost taken = { λ s. W.contents s.writer };

    ghost has_failed = { λ s. s.failed };

    ghost ends_in_flush = { λ s. s.ends_in_flush };

    fn write(&mut self, bytes: &[u8]) -> Result<usize, Failed> {
        self.ends_in_flush = false;
        match self.writer.write(bytes) {
            Ok(count) => {
                self.failed = count == 0 && !bytes.is_empty();
                Ok(count)
            }
            Err(_) => {
                self.failed = true;
                Err(Failed)
            }
        }
    }

    fn flush(&mut self) -> Result<(), Failed> {
        self.ends_in_flush = true;
        match self.writer.flush() {
            Ok(()) => Ok(()),
            Err(_) => {
                self.failed = true;
                Err(Failed)
            }
        }
    }

    fn failed(&self) -> bool {
        self.failed
    }
}
