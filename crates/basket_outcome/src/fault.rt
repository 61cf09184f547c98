ghost use Rattle.std.specs.Prelude.{◌≡◌};
ghost use Rattle.mine_limit.specs.declared.fault.MineFault.TheVariants.{Memory};
ghost use Rattle.basket_outcome.specs.declared.fault.RunFault.TheVariants.{Mine, Write};
ghost use Rattle.basket_outcome.specs.Status.{status_after};

use basket_core::Failed;
use basket_read::ReadFault;
use mine_limit::MineFault;
use std::alloc::{AllocError, AllocFailed};
use thiserror::Error;

/// Why a run wrote no whole report.
#[derive(Clone, Copy, Debug, PartialEq, Eq, Error)]
pub enum RunFault {
    /// The input was not read.
    #[error(transparent)]
    Input(ReadFault),
    /// The sets that are to be counted were not read.
    #[error("in the sets: {0}")]
    Sets(ReadFault),
    /// A set that is to be counted has no count in a counted input: the empty set is the first, 0.
    #[error("the input has no count of set {nth}")]
    Uncounted { nth: usize },
    /// The list of sets was not made.
    #[error(transparent)]
    Mine(MineFault),
    /// The writer failed, or took nothing of what was left.
    #[error("cannot write the report")]
    Write,
}

impl From<MineFault> for RunFault {
    ghost from_gives = { λ found fault. fault ≡ Mine found };

    fn from(fault: MineFault) -> Self {
        RunFault::Mine(fault)
    }
}

impl From<AllocError> for RunFault {
    ghost from_gives = { λ _ fault. fault ≡ Mine Memory };

    fn from(_error: AllocError) -> Self {
        RunFault::Mine(MineFault::Memory)
    }
}

impl<T: Drop> From<AllocFailed<T>> for RunFault {
    ghost from_gives = { λ _ fault. fault ≡ Mine Memory };

    fn from(_error: AllocFailed<T>) -> Self {
        RunFault::Mine(MineFault::Memory)
    }
}

impl From<Failed> for RunFault {
    ghost from_gives = { λ _ fault. fault ≡ Write };

    fn from(_error: Failed) -> Self {
        RunFault::Write
    }
}

/// The exit status of a program that ends with the fault.
pub fn status_of(fault: &RunFault) -> u8
    ensures { result ≡ status_after fault.now }
{
    match fault {
        RunFault::Input(ReadFault::Read) | RunFault::Sets(ReadFault::Read) | RunFault::Write => 4,
        RunFault::Input(ReadFault::Memory)
        | RunFault::Sets(ReadFault::Memory)
        | RunFault::Mine(MineFault::Memory) => 6,
        RunFault::Mine(MineFault::TooMany { .. }) => 5,
        RunFault::Input(_) | RunFault::Sets(_) | RunFault::Uncounted { .. } => 3,
    }
}
