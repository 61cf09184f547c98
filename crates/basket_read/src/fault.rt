ghost use Rattle.std.specs.Prelude.{◌≡◌};
ghost use Rattle.basket_read.specs.declared.fault.ReadFault.TheVariants.{Memory};
ghost use Rattle.basket_read.specs.Fault.{number_of_fault};

use std::alloc::{AllocError, AllocFailed};
use thiserror::Error;

/// Why an input was not read.
#[derive(Clone, Copy, Debug, PartialEq, Eq, Error)]
pub enum ReadFault {
    #[error("out of memory")]
    Memory,
    /// The reader failed.
    #[error("cannot read the input")]
    Read,
    #[error("input is longer than 4294967295 bytes")]
    TooLong,
    /// A byte that is no digit, blank or line feed, and no `x` right after a weight.
    #[error("line {line}: byte {byte:#04X} is no digit or blank")]
    Byte { line: u32, byte: u8 },
    /// The digit that takes a number above the bound.
    #[error("line {line}: number above 4294967295")]
    Number { line: u32 },
    /// A field of a CSV record that is not UTF-8.
    #[error("record {nth}: field is not UTF-8")]
    NotText { nth: u32 },
    /// A CSV record that lacks a basket's id or a name.
    #[error("record {nth}: fewer than two fields")]
    ShortRecord { nth: u32 },
    /// The weights of the baskets add up to too much.
    #[error("total weight above 1099511627775")]
    Heavy,
    /// A CSV record whose first field is no weight, if one is asked for.
    #[error("record {nth}: bad weight")]
    Weight { nth: u32 },
    /// The digit that takes the count of a set above the bound.
    #[error("line {line}: count above 1099511627775")]
    Count { line: u32 },
    /// A set without a count, or with one that doesn't end, if one is asked for.
    #[error("line {line}: no count in parentheses")]
    NoCount { line: u32 },
    /// The weight of all baskets is asked for, and counted sets don't have it.
    #[error("no count of the empty set, as (15), which a share and rules need")]
    NoTotal,
    /// A set with a subset of one item less that isn't there, or is there with a lower count.
    #[error("line or record {line}: a subset of one item less is missing or has a lower count")]
    Subset { line: u32 },
    /// A CSV record whose first field is no count, if one is asked for.
    #[error("record {nth}: bad count")]
    RecordCount { nth: u32 },
}

impl ReadFault {
    /// The number that programs use for a fault.
    pub fn number(self) -> u8
        ensures { result ≡ number_of_fault self }
    {
        match self {
            ReadFault::Memory => 1,
            ReadFault::Read => 2,
            ReadFault::TooLong => 3,
            ReadFault::Byte { .. } => 4,
            ReadFault::Number { .. } => 5,
            ReadFault::NotText { .. } => 6,
            ReadFault::ShortRecord { .. } => 7,
            ReadFault::Heavy => 8,
            ReadFault::Weight { .. } => 9,
            ReadFault::Count { .. } => 10,
            ReadFault::NoCount { .. } => 11,
            ReadFault::NoTotal => 12,
            ReadFault::Subset { .. } => 13,
            ReadFault::RecordCount { .. } => 14,
        }
    }
}

impl From<AllocError> for ReadFault {
    ghost from_gives = { λ _ fault. fault ≡ Memory };

    fn from(_error: AllocError) -> Self {
        ReadFault::Memory
    }
}

impl<T: Drop> From<AllocFailed<T>> for ReadFault {
    ghost from_gives = { λ _ fault. fault ≡ Memory };

    fn from(_error: AllocFailed<T>) -> Self {
        ReadFault::Memory
    }
}
