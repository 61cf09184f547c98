ghost use Rattle.std.specs.Prelude.{◌≡◌, ◌<◌, false, None, Some, IfOk, List, Option, ℕ, Bool, length};
ghost use Rattle.std.specs.Io.{ReadsAtMost};
ghost use Rattle.std.specs.Io.KnownBytes.{ReadConsumes};
ghost use Rattle.basket_stream.specs.Stream.{read_ends, read_fails};

use crate::failed::Failed;
use std::io::Read;

/// A reader of bytes. After its first failure and at its end it is not read on.
pub trait Source {
    // The bytes that are left, or nothing if the source does not report them.
    ghost left: { Self → Option (List ℕ) };

    ghost has_failed: { Self → Bool };

    // Whether the last read gave nothing to a buffer that had room.
    ghost at_end: { Self → Bool };

    /// Fills the buffer from its beginning, and returns how much of it: 0 only at the end or if the
    /// buffer is empty.
    fn read(&mut self, buf: &mut [u8]) -> Result<usize, Failed>
        requires working { has_failed self.old ≡ false }
        requires open { at_end self.old ≡ false }
        ensures bound { ReadsAtMost result buf.new }
        ensures bytes { ReadConsumes (left self.old) (left self.new) result buf.new }
        ensures failed { has_failed self.new ≡ read_fails result }
        ensures ended { at_end self.new ≡ read_ends result buf.new };

    /// Whether a read has failed.
    fn failed(&self) -> bool
        ensures { result ≡ has_failed self.now };
}

/// A source over a reader of std. Any error of the reader is a failure.
#[derive(Debug, Drop)]
pub struct StdSource<R> {
    reader: R,
    failed: bool,
    ended: bool,
}

impl<R: Read> StdSource<R> {
    pub fn new(reader: R) -> Self
        ensures fresh { ⟦<StdSource<R> as Source>⟧.has_failed result ≡ false }
        ensures open { ⟦<StdSource<R> as Source>⟧.at_end result ≡ false }
        ensures left { ⟦<StdSource<R> as Source>⟧.left result ≡ R.remaining reader }
    {
        StdSource {
            reader,
            failed: false,
            ended: false,
        }
    }
}

impl<R: Read> Source for StdSource<R> {
    ghost left = { λ s. R.remaining s.reader };

    ghost has_failed = { λ s. s.failed };

    ghost at_end = { λ s. s.ended };

    fn read(&mut self, buf: &mut [u8]) -> Result<usize, Failed> {
        match self.reader.read(buf) {
            Ok(count) => {
                self.ended = count == 0 && !buf.is_empty();
                Ok(count)
            }
            Err(_) => {
                self.ended = false;
                self.failed = true;
                Err(Failed)
            }
        }
    }

    fn failed(&self) -> bool {
        self.failed
    }
}
