//! Readers and writers that keep what a person wants to know after they failed.
use std::cell::Cell;
use std::io::{self, Read, Write};

/// A reader or writer, where the system's code for its last error is put, and whether a byte was
/// written.
#[derive(Drop)]
pub struct Kept<'a, T> {
    stream: T,
    code: &'a Cell<Option<i32>>,
    is_used: bool,
}

impl<'a, T> Kept<'a, T> {
    pub fn new(stream: T, code: &'a Cell<Option<i32>>) -> Self {
        Kept {
            stream,
            code,
            is_used: false,
        }
    }

    /// Whether a byte was written.
    pub fn is_used(&self) -> bool {
        self.is_used
    }
}

impl<R: Read> Read for Kept<'_, R> {
    ghost remaining = { λ kept. R.remaining kept.stream };

    fn read(&mut self, buf: &mut [u8]) -> io::Result<usize> {
        match self.stream.read(buf) {
            Ok(count) => Ok(count),
            Err(error) => {
                self.code.set(error.raw_os_error());
                Err(error)
            }
        }
    }
}

impl<W: Write> Write for Kept<'_, W> {
    ghost contents = { λ kept. W.contents kept.stream };

    fn write(&mut self, buf: &[u8]) -> io::Result<usize> {
        match self.stream.write(buf) {
            Ok(count) => {
                self.is_used |= count > 0;
                Ok(count)
            }
            Err(error) => {
                self.code.set(error.raw_os_error());
                Err(error)
            }
        }
    }

    fn flush(&mut self) -> io::Result<()> {
        match self.stream.flush() {
            Ok(()) => Ok(()),
            Err(error) => {
                self.code.set(error.raw_os_error());
                Err(error)
            }
        }
    }
}
