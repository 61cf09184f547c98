ghost use Rattle.std.specs.Prelude.{◌≡◌, IfOk};

use crate::itemset::Itemset;
use std::alloc::{AllocError, Global};

/// A basket, and how many times it was bought.
#[derive(Debug, PartialEq, Eq, Drop)]
pub struct Weighted {
    pub basket: Itemset,
    pub weight: u64,
}

impl Weighted {
    pub fn copied(&self, alloc: Global) -> Result<Self, AllocError>
        ensures { IfOk result (λ copy. copy ≡ self.now) }
    {
        Ok(Weighted {
            basket: self.basket.copied(alloc)?,
            weight: self.weight,
        })
    }
}
