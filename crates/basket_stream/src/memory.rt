//! Sources and a sink over memory.
ghost use Rattle.std.specs.Prelude.{◌≡◌, ◌<◌, ◌≤◌, false, true, Some, None, [], IfOk, List, ℕ, length};
ghost use Rattle.std.specs.Io.{ReadsAtMost, WritesAtMost};

use crate::failed::Failed;
use crate::sink::Sink;
use crate::source::Source;
use std::alloc::{AllocError, Global};

/// A source that gives the bytes of a slice, and never fails.
#[derive(Debug, Drop)]
pub struct SliceSource<'a> {
    rest: &'a [u8],
    ended: bool,
}

impl<'a> SliceSource<'a> {
    pub fn new(bytes: &'a [u8]) -> Self
        ensures open { ⟦<SliceSource<'a> as Source>⟧.at_end result ≡ false }
        ensures left { ⟦<SliceSource<'a> as Source>⟧.left result ≡ Some bytes.now }
    {
        SliceSource {
            rest: bytes,
            ended: false,
        }
    }
}

impl Source for SliceSource<'_> {
    ghost left = { λ s. Some s.rest.now };

    ghost has_failed = { λ _. false };

    ghost at_end = { λ s. s.ended };

    fn read(&mut self, buf: &mut [u8]) -> Result<usize, Failed> {
        let count = self.rest.len().min(buf.len());
        let (front, rest) = self.rest.split_at(count);
        buf[..count].copy_from_slice(front);
        self.rest = rest;
        self.ended = count == 0 && !buf.is_empty();
        Ok(count)
    }

    fn failed(&self) -> bool {
        false
    }
}

/// A source that gives the bytes of a slice, for tests: in small pieces, and with a failure.
#[derive(Debug, Drop)]
pub struct MemSource<'a> {
    rest: &'a [u8],
    greatest_piece: usize,
    reads_before_failure: Option<u64>,
    failed: bool,
    ended: bool,
    ghost gives_some: { 0 < greatest_piece },
}

impl<'a> MemSource<'a> {
    /// A source that gives at most `greatest_piece` bytes a read, and fails after this many reads,
    /// or never.
    pub fn new(bytes: &'a [u8], greatest_piece: usize, reads_before_failure: Option<u64>) -> Self
        requires { 0 < greatest_piece }
        ensures fresh { ⟦<MemSource<'a> as Source>⟧.has_failed result ≡ false }
        ensures open { ⟦<MemSource<'a> as Source>⟧.at_end result ≡ false }
        ensures left { ⟦<MemSource<'a> as Source>⟧.left result ≡ Some bytes.now }
    {
        MemSource {
            rest: bytes,
            greatest_piece,
            reads_before_failure,
            failed: false,
            ended: false,
        }
    }
}

impl Source for MemSource<'_> {
    ghost left = { λ s. Some s.rest.now };

    ghost has_failed = { λ s. s.failed };

    ghost at_end = { λ s. s.ended };

    fn read(&mut self, buf: &mut [u8]) -> Result<usize, Failed> {
        match self.reads_before_failure {
            Some(0) => {
                self.ended = false;
                self.failed = true;
                return Err(Failed);
            }
            Some(reads) => self.reads_before_failure = Some(reads - 1),
            None => {}
        }
        let count = self.rest.len().min(buf.len()).min(self.greatest_piece);
        let (front, rest) = self.rest.split_at(count);
        buf[..count].copy_from_slice(front);
        self.rest = rest;
        self.ended = count == 0 && !buf.is_empty();
        Ok(count)
    }

    fn failed(&self) -> bool {
        self.failed
    }
}

/// A sink that keeps the bytes.
#[derive(Debug, Drop)]
pub struct MemSink {
    bytes: Vec<u8>,
    room: usize,
    greatest_piece: usize,
    flush_fails: bool,
    failed: bool,
    ends_in_flush: bool,
}

impl MemSink {
    /// A sink that takes all bytes, and fails only if memory runs out.
    pub fn unbounded(alloc: Global) -> Self
        ensures fresh { ⟦<MemSink as Sink>⟧.has_failed result ≡ false }
        ensures taken { ⟦<MemSink as Sink>⟧.taken result ≡ Some [] }
    {
        MemSink {
            bytes: Vec::new(alloc),
            room: usize::MAX,
            greatest_piece: usize::MAX,
            flush_fails: false,
            failed: false,
            ends_in_flush: false,
        }
    }

    /// A sink that takes at most `greatest_piece` bytes a write, fails once `room` bytes were
    /// taken, for which it has the memory from the start, and may fail at a flush.
    pub fn new(
        alloc: Global,
        room: usize,
        greatest_piece: usize,
        flush_fails: bool,
    ) -> Result<Self, AllocError>
        ensures fresh { IfOk result (λ s. ⟦<MemSink as Sink>⟧.has_failed s ≡ false) }
        ensures taken { IfOk result (λ s. ⟦<MemSink as Sink>⟧.taken s ≡ Some []) }
    {
        Ok(MemSink {
            bytes: Vec::with_capacity(alloc, room)?,
            room,
            greatest_piece,
            flush_fails,
            failed: false,
            ends_in_flush: false,
        })
    }

    /// The bytes that were taken.
    pub fn bytes(&self) -> &[u8]
        ensures { ⟦<MemSink as Sink>⟧.taken self.now ≡ Some result.now }
    {
        &self.bytes
    }

    /// The bytes that were taken, without a copy.
    pub fn into_bytes(self) -> Vec<u8>
        ensures { ⟦<MemSink as Sink>⟧.taken self ≡ Some result.items }
    {
        self.bytes
    }
}

impl Sink for MemSink {
    ghost taken = { λ s. Some s.bytes.items };

    ghost has_failed = { λ s. s.failed };

    ghost ends_in_flush = { λ s. s.ends_in_flush };

    fn write(&mut self, bytes: &[u8]) -> Result<usize, Failed> {
        self.ends_in_flush = false;
        let room = self.room.saturating_sub(self.bytes.len());
        if room == 0 && !bytes.is_empty() {
            self.failed = true;
            return Err(Failed);
        }
        let count = bytes.len().min(room).min(self.greatest_piece);
        if self.bytes.extend_from_slice(&bytes[..count]).is_err() {
            self.failed = true;
            return Err(Failed);
        }
        self.failed = count == 0 && !bytes.is_empty();
        Ok(count)
    }

    fn flush(&mut self) -> Result<(), Failed> {
        self.ends_in_flush = true;
        if self.flush_fails {
            self.failed = true;
            return Err(Failed);
        }
        Ok(())
    }

    fn failed(&self) -> bool {
        self.failed
    }
}
