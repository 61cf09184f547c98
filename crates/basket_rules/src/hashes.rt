//! Hashes of the sides of rules. Nothing is claimed of them: code that finds a set by its hash
//! compares it.

use basket_order::item_hash;
use std::alloc::{AllocError, Global};

/// The hashes of the items of a union.
#[derive(Debug, Drop)]
pub struct ItemHashes {
    hashes: Vec<u64>,
}

impl ItemHashes {
    /// The hashes of no items. Nothing is allocated.
    pub fn none(alloc: Global) -> Self {
        ItemHashes {
            hashes: Vec::new(alloc),
        }
    }

    /// Replaces the hashes by those of these items.
    pub fn set(&mut self, union: &[u32]) -> Result<(), AllocError> {
        self.hashes.clear();
        for item in union {
            self.hashes.push(item_hash(*item))?;
        }
        Ok(())
    }

    /// The hash of the items of the union at the bits of a word, which is the sum of theirs. So
    /// that of the other items is the hash of the union less it.
    pub fn side(&self, bits: u64) -> u64 {
        let mut sum: u64 = 0;
        let mut rest = bits;
        for hash in &self.hashes {
            sum = sum.wrapping_add(*hash & (rest % 2).wrapping_neg());
            rest /= 2;
        }
        sum
    }
}
