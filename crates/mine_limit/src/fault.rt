ghost use Rattle.std.specs.Prelude.{◌≡◌};
ghost use Rattle.mine_limit.specs.declared.fault.MineFault.TheVariants.{Memory};

use std::alloc::{AllocError, AllocFailed};
use thiserror::Error;

/// Why a list of frequent sets was not made.
#[derive(Clone, Copy, Debug, PartialEq, Eq, Error)]
pub enum MineFault {
    #[error("out of memory")]
    Memory,
    /// The list is longer than the given limit.
    #[error("more than {limit} frequent itemsets")]
    TooMany { limit: u32 },
}

impl From<AllocError> for MineFault {
    ghost from_gives = { λ _ fault. fault ≡ Memory };

    fn from(_error: AllocError) -> Self {
        MineFault::Memory
    }
}

impl<T: Drop> From<AllocFailed<T>> for MineFault {
    ghost from_gives = { λ _ fault. fault ≡ Memory };

    fn from(_error: AllocFailed<T>) -> Self {
        MineFault::Memory
    }
}
