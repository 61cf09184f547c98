//! Why pairs are not written.
use csv::ErrorKind as CsvErrorKind;
use std::alloc::AllocError;
use std::io;

/// Why no pairs, or not all, were written.
#[derive(Drop)]
pub enum PairsFault {
    /// A line whose bytes are no text in the encoding that was named.
    NotText { line: u64 },
    /// A column, counted from 1, that no record has.
    NoColumn { column: usize },
    Memory,
    Write,
}

impl From<AllocError> for PairsFault {
    fn from(_: AllocError) -> Self {
        PairsFault::Memory
    }
}

/// What a writer of CSV failed by.
impl From<csv::Error> for PairsFault {
    fn from(error: csv::Error) -> Self {
        match error.into_kind() {
            CsvErrorKind::Io(error) if error.kind() == io::ErrorKind::OutOfMemory => {
                PairsFault::Memory
            }
            _ => PairsFault::Write,
        }
    }
}
