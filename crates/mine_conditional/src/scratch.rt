//! What is used again from rank to rank.
ghost use Rattle.std.specs.Prelude.{IfOk};
ghost use Rattle.mine_conditional.specs.ClassScratch.{IsScratchOf};

use crate::local_numbers::LocalNumbers;
use mine_pairs::Sums;
use std::alloc::{AllocError, Global};

/// A local number and a sum for each rank, used again from rank to rank, and by databases of fewer ranks.
pub struct ClassScratch {
    pub sums: Sums,
    pub numbers: LocalNumbers,
}

impl Drop for ClassScratch {
    fn drop(self) {
        let ClassScratch {
            sums: _,
            numbers: _,
        } = self;
    }
}

impl ClassScratch {
    /// Scratch memory for this many ranks.
    pub fn new(alloc: Global, count: u32) -> Result<Self, AllocError>
        ensures { IfOk result (IsScratchOf count) }
    {
        Ok(ClassScratch {
            sums: Sums::new(alloc, count)?,
            numbers: LocalNumbers::new(alloc, count)?,
        })
    }
}
