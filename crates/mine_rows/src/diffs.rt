ghost use Rattle.std.specs.Prelude.{true, not};
ghost use Rattle.basket_sets.specs.Itemset.{has};
ghost use Rattle.mine_rows.specs.Marks.{IsMarked};
ghost use Rattle.mine_rows.specs.Rows.{IsDiffList};

use crate::cover::missing_tids;
use crate::marks::Marks;
use crate::row::Row;
use crate::weights::Weights;
use std::alloc::{AllocError, Global};

/// A row that lists the tids that its cover lacks of its parent's (Zaki and Gouda 2003).
#[derive(Drop)]
pub struct DiffList {
    missing: Vec<u32>,
    count: u64,
}

impl Row for DiffList {
    ghost stands = { IsDiffList };

    ghost at_rest = { λ weights marks. IsMarked weights (λ tid. true) marks };

    ghost marked = { λ row weights marks. IsMarked weights (λ tid. not (has row.missing.items tid)) marks };

    fn first(alloc: Global, cover: &[u32], weights: &Weights) -> Result<Self, AllocError> {
        Ok(DiffList {
            missing: missing_tids(alloc, cover, weights.count())?,
            count: weights.weight(cover),
        })
    }

    fn empty(alloc: Global) -> Self {
        DiffList {
            missing: Vec::new(alloc),
            count: 0,
        }
    }

    fn new_marks(alloc: Global, weights: &Weights) -> Result<Marks, AllocError> {
        Marks::full(alloc, weights)
    }

    fn mark(&self, marks: &mut Marks, _weights: &Weights) {
        marks.clear(&self.missing);
    }

    fn unmark(&self, marks: &mut Marks, weights: &Weights) {
        marks.mark(&self.missing, weights);
    }

    fn join(
        &mut self,
        x: &Self,
        y: &Self,
        marks: &Marks,
        weights: &Weights,
        least: u64,
    ) -> Result<bool, AllocError> {
        weights.bounds();
        // What the second lacks and the first doesn't is lost, and this much may be.
        let Some(most) = x.count.checked_sub(least) else {
            return Ok(false);
        };
        let Some(lost) = marks.keep(&y.missing, &mut self.missing, most)? else {
            return Ok(false);
        };
        self.count = x.count - lost;
        Ok(true)
    }

    fn count(&self) -> u64 {
        self.count
    }

    fn pays_to_reproject(&self, _kept: usize, _joined: usize, _weights: &Weights) -> bool {
        false
    }

    // Its tids are those of its parent's cover that it lacks.
    fn cover<'a>(
        &'a self,
        _weights: &Weights,
        _tids: &'a mut Vec<u32>,
    ) -> Result<Option<&'a [u32]>, AllocError> {
        Ok(None)
    }
}
